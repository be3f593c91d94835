//! Conversations of one connection: lines that say what happens to it and what it must give then, and the tests that play them through the
//! plain step.
#![tactic(auto)]

mod line;
mod talk;

pub use line::Line;
pub use talk::first_wrong;

#[cfg(test)]
mod tests;
