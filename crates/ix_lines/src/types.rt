// What the lines of a trace say.

use ix_base::{BufId, CoreId, Disposition, GroupId, List, WireNo};
use ix_tcpdef::Left;

/// The sizes of a play, as its configuration has them.
#[derive(Clone, Copy, Debug, PartialEq, Eq)]
pub struct Head {
    /// How many cores it has.
    pub cores: u8,
    /// How many frames a core steps in one turn, at most.
    pub batch: u16,
    /// How many buffers each core's pool has.
    pub buffers: u32,
}

/// A receive ring at a settle, in numbers of buffers, frames and items.
#[derive(Clone, Copy, Debug, PartialEq, Eq)]
pub struct RingLine {
    /// The buffers that are posted now.
    pub posted: u32,
    /// The frames that were accepted since the last settle.
    pub frames: u32,
    /// The items that were put since the last settle.
    pub items: u32,
}

/// Where the buffers of a core's own pool are at a settle: how many at each place.
#[derive(Clone, Copy, Debug, PartialEq, Eq)]
pub struct HomeLine {
    /// Free in the pool.
    pub pool: u32,
    /// Posted to the card.
    pub posted: u32,
    /// On a desk, behind a tag.
    pub desk: u32,
    /// In a segment that waits for a hole to be filled.
    pub held: u32,
    /// Lent to the application.
    pub app: u32,
    /// In a send queue.
    pub queue: u32,
}

/// What a settle prints: a ring and a home per core, both in the order of the cores.
#[derive(Debug, Drop)]
pub struct SettleLine {
    pub rings: List<RingLine>,
    pub homes: List<HomeLine>,
}

/// What became of a connect that the application made before the first entry.
#[derive(Clone, Copy, Debug, PartialEq, Eq)]
pub enum ConnectLine {
    /// It was sent a SYN.
    Done,
    /// The peer's address has no hardware address in the configuration.
    NoNeighbour,
    /// No local port is free.
    NoPort,
    /// The group has no room for one more connection.
    TableFull,
}

/// What became of a frame that reached the card.
#[derive(Clone, Copy, Debug, PartialEq, Eq)]
pub enum Fate {
    /// It was accepted into this buffer.
    Buf(BufId),
    /// It was dropped, with so many items on its ring.
    RingFull(u32),
    /// It was dropped, with so many frames accepted since the last settle.
    NoBuffer(u32),
    /// It was dropped for its length.
    TooLong(u32),
}

/// An entry of the wire list. Its number is its place in the list.
#[derive(Clone, Copy, Debug, PartialEq, Eq)]
pub enum EntryLine {
    Frame {
        /// The record of the capture, counted from 0.
        rec: u32,
        /// The time, in milliseconds.
        at: u32,
        /// The flow group that the card found.
        group: GroupId,
        /// The core on whose ring it was put, or was to be put.
        ring: CoreId,
        fate: Fate,
    },
    /// The clock stands at so many milliseconds from here on.
    Time {
        t: u32,
    },
    /// A group's later frames wait for its move.
    Tag {
        group: GroupId,
    },
    /// A group goes to a core.
    Move {
        group: GroupId,
        to: CoreId,
    },
    /// All that came before is stepped to its end.
    Settle,
}

/// An accepted frame that no connection took.
#[derive(Clone, Copy, Debug, PartialEq, Eq)]
pub struct StrayLine {
    /// The wire number of its entry.
    pub w: WireNo,
    /// The core that stepped it.
    pub core: CoreId,
    /// What it was, so that no connection took it.
    pub kind: Disposition,
    /// The record of the replies that answers it, counted from 0, where one does.
    pub reply: Option<u32>,
}

/// How a connection was opened.
#[derive(Clone, Copy)]
pub struct Opening {
    /// The flow group of its frames.
    pub group: GroupId,
    /// The peer's IPv4 address.
    pub remote: u32,
    /// The peer's port.
    pub remote_port: u16,
    /// Our port.
    pub local_port: u16,
    /// Our initial send sequence number (RFC 9293, section 3.3.1), modulo 2^32.
    pub iss: u32,
}

/// What happened to a connection.
#[derive(Clone, Copy, Debug, PartialEq, Eq)]
pub enum InputKind {
    /// The application opened it.
    Connect,
    /// A segment came: the wire number of its frame, and the core that stepped it.
    Seg { w: WireNo, core: CoreId },
    /// Its timer expired, at so many milliseconds.
    Timer { t: u64 },
    /// The application accepted it.
    Accept,
    /// The application handed in so many octets to send.
    Sendv { n: u64 },
    /// The application gave so many received octets back.
    RecvDone { n: u32 },
    /// The application closed it.
    Close,
    /// A cycle with an input of it ended, behind the entry with this wire number.
    Flush { w: WireNo },
}

/// What a call of the application answered.
#[derive(Clone, Copy, Debug, PartialEq, Eq)]
pub enum RetLine {
    /// It was done, for so many octets where it counts octets.
    Done(u32),
    /// No live connection has this handle.
    BadHandle,
    /// No knock is pending.
    NotKnocked,
    /// The connection doesn't stand as the call needs it.
    NotOpen,
    /// More octets were given back than are unread.
    TooMuch,
}

/// What an input gave: a record of the replies, the answer of a call, or an event that the application was told.
#[derive(Clone, Copy, Debug, PartialEq, Eq)]
pub enum OutputLine {
    /// The record of the replies that was sent, counted from 0.
    Reply(u32),
    Ret(RetLine),
    /// A peer opened it.
    Knock,
    /// A connect is established.
    ConnectedUp,
    /// The peer refused a connect.
    ConnectedRefused,
    /// No answer came to a connect.
    ConnectedTimeout,
    /// Octets came in order: the buffer, the place in it at which they begin, and their number.
    Recv { buf: BufId, from: u16, len: u16 },
    /// The peer sends no more.
    RecvEnd,
    /// So many octets were acknowledged, and so many more may be handed in.
    Sent { bytes: u32, window: u32 },
    /// The peer reset it.
    DeadReset,
    /// The peer answered no more.
    DeadTimeout,
}

/// An input with what it gave.
#[derive(Debug, Drop)]
pub struct InputLine {
    pub kind: InputKind,
    pub outputs: List<OutputLine>,
}

/// A connection with its journal.
#[derive(Debug, Drop)]
pub struct ConnLine {
    /// The flow group of its frames.
    pub group: GroupId,
    /// The peer's IPv4 address.
    pub remote: u32,
    /// The peer's port.
    pub remote_port: u16,
    /// Our port.
    pub local_port: u16,
    /// Our initial send sequence number (RFC 9293, section 3.3.1), modulo 2^32.
    pub iss: u32,
    /// What happened to it, in order, each with what that gave.
    pub inputs: List<InputLine>,
    /// How it was left: sequence numbers as positions, which count octets from the initial number on.
    pub left: Left,
    /// How many octets the application wrote.
    pub wrote: u64,
    /// How many of them TCP took.
    pub taken: u64,
}
