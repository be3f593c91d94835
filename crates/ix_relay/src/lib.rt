//! A list that goes through a ring from one worker to another: the whole argument on rings and epochs, on two actors.
#![tactic(auto)]

mod party;
mod through;

pub use party::{Party, Receiver, Sender};
pub use through::relay;

#[cfg(test)]
mod tests;
