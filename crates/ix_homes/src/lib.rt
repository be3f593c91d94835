//! Where the buffers of a play are: what the pools, the posting rings and the cores hold, from epoch to epoch and from settle to settle.
#![tactic(auto)]

mod laws;

pub use laws::{buffers_are_held, homes_add_up};
