//! One epoch of a play: the card and the cores make their turns as workers, and the rest is done on the caller's thread.
#![tactic(auto)]

mod crew;
mod laws;
mod running;
mod worker;

pub use laws::{
    epochs_are_played, epochs_are_ready, epochs_conserve, meetings_are_ready, openings_are_ready,
    settles_are_ready,
};
pub use running::run_epoch;
pub use worker::Worker;
