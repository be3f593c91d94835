// What a play leaves.

use ix_base::{List, Ret};
use ix_groupdef::GroupRecord;
use ix_lines::StrayLine;
use ix_playdef::Reply;

/// What a play on one core leaves.
#[derive(Drop)]
pub struct Report {
    /// What each flow group leaves, group by group.
    pub groups: List<GroupRecord>,
    /// The frames that were sent, in their order.
    pub replies: List<Reply>,
    /// What became of each connect, in the order of the peers.
    pub connects: List<Ret>,
    /// The accepted frames that no connection took, by rising wire number.
    pub strays: List<StrayLine>,
    /// How many frames of the wire list were dropped, each for its length.
    pub drops: u32,
}
