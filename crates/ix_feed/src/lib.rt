//! The card's side of a play: the card is given the entries of a wire list, one in each turn, and a line is kept of what became of each.
//!
//! No call but [`Replay::new`] takes memory.
#![tactic(auto)]

mod actor;
mod feeding;
mod laws;
mod replay;
#[cfg(test)]
mod tests;

pub use actor::Feed;
pub use feeding::feed;
pub use laws::{
    buffers_are_filled, cards_stay_fed, counts_follow, entries_are_fed, items_are_told,
    wires_can_be_fed,
};
pub use replay::Replay;
