//! The engine of a play on 1 to 8 cores: the card and the cores, epoch by epoch, from the opening to the close.
#![tactic(auto)]

mod beginning;
mod closing;
mod course;
mod dialing;
mod opening;
mod running;
mod settling;

pub use beginning::{Begun, begin};
pub use closing::{Left, close_cores};
pub use course::{Machine, run_epochs};
pub use dialing::dial;
pub use opening::open;
pub use running::{Ran, run};
pub use settling::{meet_cores, settle_cores};
