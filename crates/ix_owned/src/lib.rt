//! Where the buffers are at the settles of a play on the plain stacks. A law function does nothing: its contract is the law.
#![tactic(auto)]

mod laws;

pub use laws::settles_tell_owners;
