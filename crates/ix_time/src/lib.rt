//! Deadlines: a finite map from keys to ticks that gives the keys that are due, in order of tick and key. Its body is a hierarchical wheel.
#![tactic(auto)]

mod deadlines;
mod due;
mod places;
mod slots;
mod standings;
#[cfg(test)]
mod tests;
mod wheel;

pub use deadlines::Deadlines;
