//! Where a connection keeps parts of buffers: what is to be sent until it is acknowledged, and what came, under the wire numbers of its segments.
#![tactic(auto)]

mod division;
mod numbered;
mod queue;
#[cfg(test)]
mod tests;

pub use division::{Divided, divide};
pub use numbered::{Numbered, count_at, release_all, tell_all};
pub use queue::SendQueue;
