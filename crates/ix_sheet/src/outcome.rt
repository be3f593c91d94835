// What a play leaves, before it is reported.

use ix_base::List;
use ix_groupdef::GroupRecord;
use ix_lines::{ConnectLine, EntryLine, SettleLine};

/// What a play leaves.
#[derive(Drop)]
pub struct Outcome {
    /// The settle before the first entry, and that of each `Settle` among the entries.
    pub settles: List<SettleLine>,
    /// What became of each connect, in the order of the peers.
    pub connects: List<ConnectLine>,
    /// The entries of the wire list, each frame with its fate.
    pub entries: List<EntryLine>,
    /// What each of the 512 flow groups leaves, group by group.
    pub groups: List<GroupRecord>,
    /// How many buffers each core's pool has when all are home, in the order of the cores.
    pub closed: List<u32>,
}
