//! The configuration of a play, read from TOML.
#![tactic(auto)]

mod address;
mod keys;
mod neighbours;
mod push;
mod reading;
mod sections;
mod settings;
#[cfg(test)]
mod tests;
mod unknown;
mod values;

pub use keys::{ConfFault, ConfKey};
pub use reading::read_conf;
pub use settings::{AppKind, Conf};
