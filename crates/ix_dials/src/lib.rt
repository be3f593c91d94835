//! The connects that core 0 makes before the first entry of a play.
#![tactic(auto)]

mod laws;
mod line;

pub use laws::dials_are_asked;
pub use line::connect_line;
