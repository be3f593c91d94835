//! What the card makes of a wire list: the lines of its entries and settles are those of a play.
#![tactic(auto)]

mod laws;

pub use laws::{courses_fit, wires_close};
