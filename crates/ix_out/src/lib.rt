//! Which frames of a flow group are out at a settle, and what a settle's lines tell of them: docs/FITS.md, "The four points", the end of
//! point 1.
#![tactic(auto)]

mod frames_out;
mod settles;

pub use frames_out::{OutFrame, Place, push_out, reach};
pub use settles::{all_stay_out, settle_fits};
