//! Whose buffers a settle tells of: the numbers of its line, and each buffer once. A law function does nothing: its contract is the law.
#![tactic(auto)]

mod laws;

pub use laws::settles_own;
