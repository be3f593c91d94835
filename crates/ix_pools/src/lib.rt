//! What stays of the cores and their pools from settle to settle, in which buffers the frames of an epoch lie, and on which rings they stand. A law
//! function does nothing: its contract is the law.
#![tactic(auto)]

mod laws;

pub use laws::{pools_stay, rings_stay};
