//! The replies of a report, in the order of timers and flushes that its own lines tell: docs/FITS.md, "The places that a trace tells".
#![tactic(auto)]

mod filed;
mod gather;
mod laws;
mod numbers;
mod replies;
mod told;
mod turn;

pub use filed::replies_fit;
pub use laws::{places_are_told, replies_are_sound};
