//! Words of a text: what a mark parts, numbers, addresses and places, read and written.
#![tactic(auto)]

mod cursor;
mod number;
mod part;
mod push;

pub use cursor::{Parts, dotted_of, place_of};
pub use number::{hex8_of, number_of};
pub use part::split_part;
pub use push::{push_dotted, push_hex8, push_place};

#[cfg(test)]
mod tests;
