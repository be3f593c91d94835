//! One whole play, plainly: what it is as a function of its configuration, its capture and its wire list.
#![tactic(auto)]

mod clock;
mod connects;
mod groups;
mod laws;
mod order;
mod own;
mod replies;
mod run;
mod setting;
#[cfg(test)]
mod tests;
mod wire;

pub use clock::clocks_of;
pub use connects::connect_answers;
pub use groups::group_records;
pub use laws::records_are_sound;
pub use order::{Phase, Reply, ReplyKey, in_order, sent_at};
pub use own::{initial_numbers, is_own, local_of};
pub use replies::{end_at, key_at, number_of, replies_of, stray_key};
pub use run::run_given;
pub use setting::env_of;
pub use wire::{Given, entries_by_group};
