//! The calls of an application on a connection, over its numbers modulo 2^32, without bytes. No call here takes memory; what is given to be
//! sent and what is told of parts that came is for the caller, as the answer says.
#![tactic(auto)]

mod calls;
mod opening;
mod sending;
#[cfg(test)]
mod tests;

pub use calls::{accept, close, is_live, recv_done};
pub use opening::connect;
pub use sending::sendv;
