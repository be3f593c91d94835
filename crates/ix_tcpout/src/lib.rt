//! What a connection sends on its own, over its numbers modulo 2^32: at the end of a cycle, and when its timer expires. No call here takes
//! memory; what is to be sent is told as heads and as ranges of the send queue.
#![tactic(auto)]

mod cycle;
mod heads;
mod outs;
mod resend;
mod timer;

pub use cycle::{flush, flush_into};
pub use outs::{OutSeg, Outs};
pub use timer::{expire, expire_into};

#[cfg(test)]
mod tests;
