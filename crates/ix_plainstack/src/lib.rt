//! The plain group as the stack of a flow group: the slow program of the definitions, with the buffers of its frames beside it.
#![tactic(auto)]

mod buffers;
mod env;
mod laws;
mod numbers;
mod owning;
mod stack;
#[cfg(test)]
mod tests;

pub use env::StackEnv;
pub use laws::{groups_own_what_is_out, stacks_stand};
pub use stack::{PlainStack, Stepped};
