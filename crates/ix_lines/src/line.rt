// A line of a trace.

use crate::types::{
    ConnectLine, EntryLine, Head, HomeLine, InputKind, Opening, OutputLine, RingLine, StrayLine,
};
use ix_tcpdef::Left;

/// A line of a trace, by itself. Numbers that a report doesn't keep, since they count, stand beside what it keeps.
#[derive(Clone, Copy)]
pub enum Line {
    Head(Head),
    /// What follows is the settle before the first entry.
    Open,
    /// A core's ring at a settle.
    Ring { core: u64, ring: RingLine },
    /// Where a core's buffers are at a settle.
    Home { core: u64, home: HomeLine },
    /// A connect that was made before the first entry, with its place among them.
    Connect { peer: u64, answer: ConnectLine },
    /// An entry with its wire number.
    Entry { wire: u64, entry: EntryLine },
    Stray(StrayLine),
    /// A connection begins: its place among those of its group, in the order of opening.
    Conn { order: u64, opening: Opening },
    Input(InputKind),
    Output(OutputLine),
    /// How a connection was left.
    Left(Left),
    /// How many octets the application wrote, and how many of them TCP took.
    Answer { wrote: u64, taken: u64 },
    /// How many buffers a core's pool has when all are home.
    Closed { core: u64, pool: u32 },
    /// How many frames were sent, and how many of the card's were dropped.
    End { replies: u32, drops: u32 },
}
