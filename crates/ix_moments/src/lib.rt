//! The settles of a run of the card and the cores as the moments of a play. A law function does nothing: its contract is the law.
#![tactic(auto)]

mod laws;

pub use laws::runs_are_played;
