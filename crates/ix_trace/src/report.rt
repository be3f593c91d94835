// A report that keeps its facts.

use crate::sheet::Sheet;
use ix_base::List;
use ix_lines::{ConnLine, ConnectLine, EntryLine, Head, SettleLine, StrayLine};
use std::marker::Model;

/// What a play tells. Its first settle stands before the first entry, and each of the others belongs to a `Settle` among the entries;
/// each settle has a ring and a home per core, and `closed` has a number per core. The wire numbers of strays rise, and the groups of
/// connections never fall. Each number fits its type, also inside the lists, and each group is one of the 512.
#[derive(Debug, Drop)]
pub struct Report {
    pub head: Head,
    pub settles: List<SettleLine>,
    pub connects: List<ConnectLine>,
    pub entries: List<EntryLine>,
    pub strays: List<StrayLine>,
    pub conns: List<ConnLine>,
    /// How many buffers each core's pool has when all are home, in the order of the cores.
    pub closed: List<u32>,
    /// How many frames were sent: as many as the replies file has records.
    pub replies: u32,
    /// How many frames of the wire list the card dropped.
    pub drops: u32,
}

impl Model for Report {
    ghost use Rattle.ix_trace.specs.declared.sheet.Sheet.{Sheet};
    ghost use Rattle.ix_trace.specs.Rule.{IsValue};

    ghost Value = { Sheet };

    ghost view = { λ r. record { head = r.head; settles = r.settles; connects = r.connects; entries = r.entries; strays = r.strays; conns = r.conns; closed = r.closed; replies = r.replies; drops = r.drops } };

    ghost invariant = { λ r. IsValue (record { head = r.head; settles = r.settles; connects = r.connects; entries = r.entries; strays = r.strays; conns = r.conns; closed = r.closed; replies = r.replies; drops = r.drops }) };
}

impl Report {
    ghost use Rattle.std.specs.Prelude.{◌≡◌};
    ghost use Rattle.ix_trace.specs.Rule.{IsValue};

    /// The report with what a sheet says.
    pub fn new(sheet: Sheet) -> Report
        requires { IsValue sheet }
        ensures { result ≡ sheet }
    {
        Report {
            head: sheet.head,
            settles: sheet.settles,
            connects: sheet.connects,
            entries: sheet.entries,
            strays: sheet.strays,
            conns: sheet.conns,
            closed: sheet.closed,
            replies: sheet.replies,
            drops: sheet.drops,
        }
    }

    /// The sizes of its play. A caller learns here the facts that each report keeps.
    pub fn head(&self) -> Head
        ensures is { result ≡ self.now.head }
        ensures facts { IsValue self.now }
    {
        self.head
    }
}
