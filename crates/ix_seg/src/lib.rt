//! TCP segments in frames: what a frame is, how a segment is written, and how sequence numbers stand to each other.
#![tactic(auto)]

mod frame;
mod laws;
mod options;
mod segment;
mod sequence;
#[cfg(test)]
mod tests;
mod written;

pub use frame::{SegFrame, read_frame};
pub use laws::{segments_lie_within, segments_name_their_flow};
pub use segment::{SegFault, SegView, TCP};
pub use sequence::offset;
pub use written::write_frame;
