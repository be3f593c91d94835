//! The script of a play: read under a configuration, it gives the list of wire entries, or its first faulty line.
#![tactic(auto)]

mod reading;
#[cfg(test)]
mod tests;

pub use ix_wire::{Entry, ScriptFault, ScriptKind};
pub use reading::read_script;
