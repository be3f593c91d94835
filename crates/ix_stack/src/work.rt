// The items of a flow group.

use ix_base::WireNo;
use ix_mbuf::Mbuf;

/// A frame that a core took, in its buffer.
#[derive(Drop)]
pub struct Taken {
    /// The frame's place in the wire list.
    pub w: WireNo,
    /// The buffer that holds it.
    pub buf: Mbuf,
}

/// An item that a flow group steps.
#[derive(Drop)]
pub enum Work {
    /// A frame arrives.
    Frame(Taken),
    /// The clock is set.
    Time {
        /// The entry's place in the wire list.
        w: WireNo,
        /// The time in ticks.
        t: u64,
    },
}
