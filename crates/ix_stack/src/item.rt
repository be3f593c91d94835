// The items of a receive ring.

use ix_base::{CoreId, GroupId, WireNo};
use ix_mbuf::Mbuf;

/// What the card puts on the receive ring of a core. The items of a flow group stand there in the order of its pieces: a piece starts,
/// is tagged and is cut.
#[derive(Drop)]
pub enum Item {
    /// A frame of a flow group arrives.
    Frame {
        /// The frame's place in the wire list.
        w: WireNo,
        /// The flow group that the frame belongs to.
        group: GroupId,
        /// The buffer that holds it.
        buf: Mbuf,
    },
    /// What follows of the flow group is stepped by its next tenure.
    Tag {
        /// The flow group that is tagged.
        group: GroupId,
    },
    /// The flow group's piece on this ring ends.
    Cut {
        /// The flow group that leaves.
        group: GroupId,
        /// The core of its next tenure.
        to: CoreId,
    },
    /// A piece of the flow group begins on this ring.
    Start {
        /// The flow group that comes.
        group: GroupId,
        /// The number of the tenure, counted from 0 at the opening.
        tenure: u32,
    },
    /// The clock is set, for each flow group with an open piece on this ring.
    Time {
        /// The entry's place in the wire list.
        w: WireNo,
        /// The time in ticks.
        t: u64,
    },
    /// Nothing follows in this epoch.
    End,
}

impl Item {
    ghost use Rattle.std.specs.Prelude.{◌≡◌};
    ghost use Rattle.ix_stack.specs.Items.{is_end, is_frame};

    /// Whether it is a frame, and so no control item.
    pub fn is_frame(&self) -> bool
        ensures { result ≡ is_frame self.now }
    {
        matches!(
            self,
            Item::Frame {
                w: _,
                group: _,
                buf: _
            }
        )
    }

    /// Whether it is the end of an epoch.
    pub fn is_end(&self) -> bool
        ensures { result ≡ is_end self.now }
    {
        matches!(self, Item::End)
    }
}
