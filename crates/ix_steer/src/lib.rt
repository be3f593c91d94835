//! Steering: which flow group a frame is of, told from its bytes alone, before anything else is known of it.
#![tactic(auto)]

mod frame;
mod laws;

pub use frame::frame_group;
pub use laws::segments_have_their_flows_group;
