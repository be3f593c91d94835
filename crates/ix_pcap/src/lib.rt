//! Capture files in the classic pcap format: reading one in either byte order, and writing one.
#![tactic(auto)]

mod reading;
mod records;
#[cfg(test)]
mod tests;
mod writing;

pub use reading::read_capture;
pub use records::{Capture, CaptureFault, Span};
pub use writing::{Sent, write_capture};
