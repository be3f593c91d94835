//! Arrival of a segment over the numbers of a connection modulo 2^32, without bytes. No call here takes memory; what is to be done with the
//! body, with what is held and with the send queue is told in a verdict.
#![tactic(auto)]

mod acknowledgement;
mod arrival;
mod checks;
mod heads;
mod opening;
mod text;
mod verdict;
mod words;

pub use arrival::{arrive, held_place};
pub use verdict::{HeldUse, Take, Uses, Verdict};

#[cfg(test)]
mod tests;
