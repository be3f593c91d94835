//! The checker: whether a trace and a file of replies, anybody's, are those of a play of a configuration, a capture and a wire list, and if not,
//! what is the first thing about them that isn't so.
#![tactic(auto)]

mod checker;
mod verdict;

pub use checker::check;
pub use verdict::{Finding, Verdict};
