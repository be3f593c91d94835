//! A core: it takes items and messages, has its desks work, and sends away what leaves.
#![tactic(auto)]

mod actor;
mod batch;
mod closing;
mod connecting;
mod counting;
mod dealing;
mod homing;
mod intake;
mod laws;
mod link;
mod meeting;
mod mesh;
mod message;
mod opening;
mod posting;
mod renewing;
mod returning;
mod settling;
mod turning;

pub use batch::Batch;
pub use closing::{Closed, close};
pub use connecting::FIRST_PORT;
pub use counting::Home;
pub use intake::Stop;
pub use laws::{opening_is_in_order, order_stays, turns_conserve};
pub use link::Link;
pub use meeting::meet_all;
pub use message::{CoreEnds, MeshEnd, Message};
pub use opening::open_rings;
pub use settling::{SettleReport, settle};
pub use turning::Core;
