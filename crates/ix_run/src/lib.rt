//! Workers: each actor of an epoch makes its turns in a thread of its own, and all are joined.
#![tactic(auto)]

mod actors;
mod leaving;
mod workers;

pub use actors::{Actor, Gate, Turn};
pub use workers::epoch;
