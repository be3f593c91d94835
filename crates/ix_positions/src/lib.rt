//! The positions of a connection that is kept as numbers modulo 2^32: each is counted on from the number before a step to the number after it.
#![tactic(auto)]

mod positions;
#[cfg(test)]
mod tests;

pub use positions::Positions;
