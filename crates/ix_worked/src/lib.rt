//! A play of a configuration on the plain stacks, from its settles to what its report is held against. A law function does nothing: its
//! contract is the law.
#![tactic(auto)]

mod laws;

pub use laws::plays_are_worked;
