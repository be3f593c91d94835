//! What a core steps: a flow group, as a unit whose items are frames and times, and the items of the rings between the card and the cores.
#![tactic(auto)]

mod item;
mod stack;
mod work;

pub use item::Item;
pub use stack::GroupStack;
pub use work::{Taken, Work};
