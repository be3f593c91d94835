//! Desks: what waits on a core for flow groups that travel from core to core, and the groups themselves while they are here.
#![tactic(auto)]

mod all_groups;
mod amounts;
mod batches;
mod desk;
mod desks;
mod group;
mod tenures;
mod unit;
mod working;

pub use amounts::Measure;
pub use desks::Desks;
pub use unit::{DeskItem, Shipment, Unit};
