//! What passes between a connection and libix: calls and their returns, events, and chunks of bytes, some of which are parts of buffers.
#![tactic(auto)]

mod call;
mod chunk;
mod event;
#[cfg(test)]
mod tests;

pub use call::{Call, CallRet};
pub use chunk::{Chunk, join, release};
pub use event::{Event, Outcome, Reason};
