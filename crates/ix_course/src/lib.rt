//! The course of a play on the plain stacks: from settle to settle, whatever the cores did in the epochs between.
#![tactic(auto)]

mod laws;

pub use laws::plays_take_their_course;
