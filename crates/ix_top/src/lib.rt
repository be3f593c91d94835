//! The top call: all that the program does.
#![tactic(auto)]

mod checking;
mod command;
mod inputs;
mod outputs;
mod playing;
mod reading;
mod records;
mod status;
mod top;
mod writing;

pub use ix_check::Finding;
pub use status::{CaptureRefusal, ConfRefusal, ScriptRefusal, Status, status_text};
pub use top::ix;

#[cfg(test)]
mod tests;
