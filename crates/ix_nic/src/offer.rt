// What the card answers.

use ix_base::{BufId, CoreId, GroupId};

/// What became of a frame that was offered.
#[derive(Clone, Copy, Debug, PartialEq, Eq)]
pub enum Offer {
    /// It has `len` bytes, more than a buffer.
    TooLong {
        len: usize,
    },
    /// Its ring has no room, `items` items after the last settle.
    RingFull {
        ring: CoreId,
        group: GroupId,
        items: u32,
    },
    /// No buffer is posted for its ring, `frames` frames after the last settle.
    NoBuffer {
        ring: CoreId,
        group: GroupId,
        frames: u32,
    },
    /// It stands on its ring, in this buffer.
    Accepted {
        ring: CoreId,
        group: GroupId,
        buf: BufId,
    },
}

/// The counts of a ring. Each stands still at its type's end.
#[derive(Clone, Copy, Debug, PartialEq, Eq)]
pub struct Counts {
    /// The buffers that the card knows to be posted to the ring, one that it keeps among them.
    pub posted: u32,
    /// The frames that were accepted to the ring since the last settle.
    pub frames: u32,
    /// The items that were put on the ring or behind it since the last settle, an end not among them.
    pub items: u32,
}
