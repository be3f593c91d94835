//! The receive hash: the Toeplitz hash of a flow under the published verification key, and the flow group that it names.
#![tactic(auto)]

mod group;
mod hash;

pub use group::{flow_hash, group_of};
pub use hash::{KEY, toeplitz};
