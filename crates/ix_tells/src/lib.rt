//! What the settles of a play tell of its buffers, and how the buffers keep their places from settle to settle.
#![tactic(auto)]

mod laws;

pub use laws::{buffers_are_counted, homes_stay, settles_are_told};
