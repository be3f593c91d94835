//! The redirection table: the core of each flow group, and how often each was moved.
#![tactic(auto)]

mod log;
mod table;
#[cfg(test)]
mod tests;

pub use log::TurnLog;
pub use table::Reta;
