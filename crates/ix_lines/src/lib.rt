//! The lines of a trace: what they say, their text, and the line that a text is.
#![tactic(auto)]

mod laws;
mod line;
mod names;
mod read;
mod types;
mod write;

pub use laws::lines_are_exact;
pub use line::Line;
pub use read::line_read;
pub use types::{
    ConnLine, ConnectLine, EntryLine, Fate, Head, HomeLine, InputKind, InputLine, Opening,
    OutputLine, RetLine, RingLine, SettleLine, StrayLine,
};
pub use write::push_line;

#[cfg(test)]
mod tests;
