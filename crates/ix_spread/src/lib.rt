//! The card over three rings: tests that offer it drawn entries.
#![tactic(auto)]

#[cfg(test)]
mod tests;
