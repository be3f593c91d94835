//! A whole play of a configuration on the plain stacks, and its report. A law function does nothing: its contract is the law.
#![tactic(auto)]

mod laws;

pub use laws::plays_fit;
