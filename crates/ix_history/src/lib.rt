//! Histories: what cores did at their desks, event by event, and how the histories of all cores join.
//!
//! It stands over lists and over the clauses of `ix_desk` and `ix_order` alone, without threads, rings or TCP. A law function does nothing:
//! its contract is the law.
#![tactic(auto)]

mod calls;
mod hands_out;
mod laws;
#[cfg(test)]
mod tests;

pub use calls::{hand_out, land, ship, take, work};
pub use hands_out::HandsOut;
pub use laws::{cores_join, desks_follow, histories_join};
