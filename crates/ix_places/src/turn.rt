// The turns of connections, in which they give replies.

use ix_base::{GroupId, WireNo};
use ix_playdef::Phase;

/// A connection in one phase of one cycle of its group.
#[derive(Clone, Copy, Debug, PartialEq, Eq, PartialOrd, Ord)]
pub struct Turn {
    /// The entry of the replies that are given then: the last one of the cycle for timers and flushes.
    pub entry: Option<WireNo>,
    pub group: GroupId,
    pub phase: Phase,
    /// The connection: one more than its place among those of its group, in opening order.
    pub opening: usize,
}
