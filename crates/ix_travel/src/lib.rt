//! Units for the tests that send one from core to core over desks: one that only lists what it steps, and one that holds buffers.
#![tactic(auto)]

mod holder;
mod room;
mod tally;

pub use holder::{Holder, Load};
pub use room::Room;
pub use tally::{Tally, Thing};

#[cfg(test)]
mod tests;
