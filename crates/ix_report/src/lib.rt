//! The report of a whole play on one core: what it is for a configuration, a capture and a wire list, and its short text.
#![tactic(auto)]

mod laws;
mod lines;
mod playing;
mod report;
mod strays;
mod text;

pub use laws::reports_are_sound;
pub use playing::play;
pub use report::Report;
pub use text::short_text;
