//! What the flow groups of a play leave can be told in a trace, however their entries are cut into cycles.
#![tactic(auto)]

mod laws;

pub use laws::records_can_be_told;
