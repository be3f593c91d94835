//! The control plane's plans: which flow groups move when a core is added or revoked.
#![tactic(auto)]

mod cores;
mod places;
mod plan;
#[cfg(test)]
mod tests;

pub use cores::Cores;
pub use plan::{PlanMove, plan_add, plan_revoke, plans_go_elsewhere};
