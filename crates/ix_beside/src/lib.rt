//! A connection and its numbers, side by side: the same inputs go through the plain step and through the calls on numbers, and what both
//! give is compared after each.
#![tactic(auto)]

mod draw;
mod given;
mod meeting;
mod twins;

pub use meeting::{ALL_STATES, Met, side_by_side};
pub use twins::{Peer, first_apart};

#[cfg(test)]
mod tests;
