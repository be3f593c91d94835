//! A flow group in little, which holds its first buffers and gives the others free, and drills of a card and three cores over it: a crate of
//! tests.
#![tactic(auto)]

mod holder;
mod room;

pub use holder::Holder;
pub use room::Room;

#[cfg(test)]
mod tests;
