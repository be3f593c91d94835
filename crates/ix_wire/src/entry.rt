// The entries of a wire list.

use ix_base::{CoreId, GroupId};

/// One thing that happens in a play, in the order in which the card is given them.
#[derive(Clone, Copy, Debug, PartialEq, Eq)]
pub enum Entry {
    /// The frame of a record of the capture arrives; records are counted from 0.
    Frame { rec: u32 },
    /// A flow group is tagged: from here on its frames wait for its next core.
    Tag { group: GroupId },
    /// A tagged flow group goes to another core.
    Move { group: GroupId, to: CoreId },
    /// The clock is set, in ticks.
    Time { t: u32 },
    /// All that came before is done first.
    Settle,
}
