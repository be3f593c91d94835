//! In which buffers the frames of a play lie that were accepted.
#![tactic(auto)]

mod laws;

pub use laws::frames_lie_in_slots;
