//! How a play on the plain stacks begins. A law function does nothing: its contract is the law.
#![tactic(auto)]

mod laws;

pub use laws::plays_begin;
