// A report without its facts, and one that is being read.

use ix_base::List;
use ix_lines::{ConnLine, ConnectLine, EntryLine, Head, SettleLine, StrayLine};

/// What a report says, whether or not it keeps a report's facts.
#[derive(Debug, Drop)]
pub struct Sheet {
    pub head: Head,
    pub settles: List<SettleLine>,
    pub connects: List<ConnectLine>,
    pub entries: List<EntryLine>,
    pub strays: List<StrayLine>,
    pub conns: List<ConnLine>,
    pub closed: List<u32>,
    pub replies: u32,
    pub drops: u32,
}

/// What has been read of a report, with what the next lines count from.
#[derive(Drop)]
pub struct Draft {
    pub sheet: Sheet,
    /// The group of the last connection.
    pub group: u16,
    /// The place among all connections of that group's first.
    pub begin: usize,
    /// The least wire number that the next stray may have.
    pub next: u64,
}
