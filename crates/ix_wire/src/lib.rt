//! The wire list of a play: the entries that the lines of a script give, or its first faulty line.
#![tactic(auto)]

mod command;
mod entry;
mod fault;
mod progress;
mod reading;
mod records;
mod table;
#[cfg(test)]
mod tests;
mod text;
mod wire;

pub use entry::Entry;
pub use fault::{ScriptFault, ScriptKind};
pub use reading::{read_wire, scripts_keep_rules};
