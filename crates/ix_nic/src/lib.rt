//! The card: it steers the frames of the wire to the receive rings of the cores, by flow group and redirection table, into buffers that the
//! cores posted, and puts the items of the control plane between them, in order. It knows nothing of TCP.
//!
//! No call but [`Nic::new`] and [`Nic::fresh_ends`] takes memory.
#![tactic(auto)]

mod control;
mod laws;
mod nic;
mod offer;
mod port;

pub use ix_stack::Item;
pub use ix_steer::frame_group;
pub use laws::entries_are_carried_out;
pub use nic::Nic;
pub use offer::{Counts, Offer};
pub use port::NicEnd;
