//! What the lines of a report tell of a flow group: its entries, the cycles in which it took them, and what it leaves of those. It is a slow
//! and plain program for the definitions of `ix_fits`: docs/FITS.md, "The entries of a group" and "The cutting that a trace tells".
#![tactic(auto)]

mod batch;
mod connects;
mod cutting;
mod cycle;
mod group_entries;
mod progress;
mod running;

pub use batch::FrameBatch;
pub use connects::{Asked, PlayConnects, connects_of};
pub use cutting::{cutting_read, is_cutting_read};
pub use cycle::ReadCycle;
pub use group_entries::{GroupEntry, entries_of};
pub use progress::is_settle;
pub use running::{group_behind, left_by};
