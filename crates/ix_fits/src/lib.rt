//! Whether a report and its replies are those of a play: the relation of a configuration, a capture, a wire list, a report and a file of
//! replies, for 1 to 8 cores.
#![tactic(auto)]

mod behind;
mod card;
mod decided;
mod entries;
mod journals;
mod laws;
mod readings;
mod settles;
mod stepping;
#[cfg(test)]
mod tests;

pub use behind::opening_core;
pub use card::{RING_PLACES, Records};
pub use decided::card_fits;
pub use journals::{are_journals, buffer_of, is_buffer};
pub use laws::{
    cuttings_are_read, one_core_plays, reports_are_sound, wires_can_be_played, worked_plays,
};
pub use readings::readings_fit;
pub use stepping::{steps_are_named, tenures_are_runs};
