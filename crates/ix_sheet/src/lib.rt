//! The whole report of a play on 1 to 8 cores: from what a play leaves, the lines that tell it and the replies in their order, with the law
//! that it fits.
#![tactic(auto)]

mod conns;
mod inputs;
mod laws;
mod outcome;
mod outputs;
mod ranges;
mod report;
mod strays;
#[cfg(test)]
mod tests;

pub use laws::{plays_can_be_reported, reports_fit};
pub use outcome::Outcome;
pub use report::report_of;
