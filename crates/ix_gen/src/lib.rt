//! A generated play: configuration, capture and script from a number.
#![tactic(auto)]

mod client;
mod draw;
mod made;
mod recording;
mod rounds;
mod telling;
#[cfg(test)]
mod tests;
mod texts;

pub use made::{Made, conf_is_read, frames_are_foreign, generate, script_is_read};
pub use telling::summary;
