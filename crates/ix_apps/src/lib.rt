//! The applications of the machine: an echo, a key-value store by lines, and one that pushes a text.
#![tactic(auto)]

mod echo;
mod kv;
mod push;
#[cfg(test)]
mod tests;

pub use echo::{Echo, EchoConn};
pub use kv::{Kv, KvConn};
pub use push::{Push, PushConn};
