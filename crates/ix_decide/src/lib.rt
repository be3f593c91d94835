//! A slow and plain program that decides whether a report and a file of replies are those of a play, in the cycles that the report's own
//! lines tell: docs/FITS.md, "The four points".
#![tactic(auto)]

mod groups;
mod lines;
mod owners;
mod play;
mod points;
mod replies;

pub use points::{Point, failing_point};
