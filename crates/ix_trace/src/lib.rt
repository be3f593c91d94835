//! The text of a trace: a report, its one text, and the reader that answers the report of a text or the text's first bad line.
#![tactic(auto)]

mod progress;
mod reader;
mod report;
mod sheet;
mod text;

pub use ix_lines::{
    ConnLine, ConnectLine, EntryLine, Fate, Head, HomeLine, InputKind, InputLine, Line, Opening,
    OutputLine, RetLine, RingLine, SettleLine, StrayLine, push_line,
};
pub use reader::{TraceFault, one_text, read_trace};
pub use report::Report;
pub use sheet::Sheet;
pub use text::trace_text;

#[cfg(test)]
mod tests;
