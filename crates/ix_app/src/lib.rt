//! An application, as libix drives it: what it is told of a connection, and what it hands on.
#![tactic(auto)]

mod app;
mod event;
mod out;

pub use app::App;
pub use event::AppEvent;
pub use out::{Handed, Out};
