//! A whole play on 1 to 8 cores: it is run and closed, and what it leaves is reported.
#![tactic(auto)]

mod closing;
mod playing;

pub use playing::play;
