//! One flow group, plainly: a machine over whole lists of frames and times, and a slow program that computes it.
#![tactic(auto)]

mod calls;
mod env;
mod group;
mod journal;
mod laws;
mod life;
mod numbers;
mod reading;
mod strays;
mod talk;
#[cfg(test)]
mod tests;
mod types;

pub use calls::close;
pub use env::{Env, Isns, Neighbours, same_flow};
pub use group::{PlainGroup, dialled, opened};
pub use journal::{EntryView, InputView, Journal};
pub use laws::groups_are_sound;
pub use life::PlainLife;
pub use reading::{Reading, read};
pub use strays::{asks_to_open, reply_to_segment, segment_kind};
pub use types::{ConnEnd, GroupRecord, JournalEntry, LIMIT, Stray, Taken, Talk, Turn};
