//! What becomes of packets that are not TCP: echo requests of ICMP and UDP are answered, without any state.
#![tactic(auto)]

mod icmp;
mod reply;
mod side;
#[cfg(test)]
mod tests;
mod udp;

pub use side::{Side, side_answer};
