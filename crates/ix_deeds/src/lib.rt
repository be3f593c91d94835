//! What was done to the unit of a flow group between two moments at which its desks are at rest. A law function does nothing: its contract
//! is the law.
#![tactic(auto)]

mod laws;

pub use laws::units_go_on;
