//! A run of the card and the cores, with its close, as a whole play. A law function does nothing: its contract is the law.
#![tactic(auto)]

mod laws;

pub use laws::runs_are_whole;
