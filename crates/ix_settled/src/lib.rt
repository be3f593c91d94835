//! The settles of a play on the plain stacks: what each flow group has stepped then is a cutting of its entries, one for all settles. A law
//! function does nothing: its contract is the law.
#![tactic(auto)]

mod laws;
mod lending;

pub use laws::plays_are_cut;
pub use lending::Lending;
