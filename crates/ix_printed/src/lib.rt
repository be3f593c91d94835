//! What is printed of the buffers whose frames stay out from one settle of a play to the next.
#![tactic(auto)]

mod laws;

pub use laws::{epochs_are_short, uses_are_not_printed};
