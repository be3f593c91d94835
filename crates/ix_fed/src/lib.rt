//! The course of a card that is fed a wire list, epoch by epoch, as the laws on its lines ask for it.
#![tactic(auto)]

mod laws;

pub use laws::courses_go_on;
