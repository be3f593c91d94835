// The control items of an entry, ring by ring.
ghost use Rattle.std.specs.Prelude.{◌≡◌};
ghost use Rattle.ix_nic.specs.Controls.{item_on};

use ix_base::{CoreId, GroupId, WireNo};
use ix_stack::Item;

/// What the control plane has the card put on its rings.
#[derive(Clone, Copy)]
pub(crate) enum Control {
    /// Nothing.
    Nothing,
    /// A tag of a group, on the ring of its core.
    Tag {
        group: GroupId,
        core: CoreId,
    },
    /// A cut on the ring that the group leaves, and a start on the ring that it comes to.
    Turn {
        group: GroupId,
        from: CoreId,
        to: CoreId,
        tenure: u32,
    },
    /// A time, on each ring.
    Time {
        w: WireNo,
        t: u64,
    },
    /// An end, on each ring.
    End,
}

impl Control {
    /// The item for the ring of the core with this number, if there is one.
    pub(crate) fn item_on(self, ring: usize) -> Option<Item>
        ensures { result ≡ item_on self ring }
    {
        match self {
            Control::Tag { group, core } if ring == usize::from(core.0) => Some(Item::Tag {
                group,
            }),
            Control::Turn {
                group,
                from,
                to,
                ..
            } if ring == usize::from(from.0) => Some(Item::Cut { group, to }),
            Control::Turn {
                group,
                to,
                tenure,
                ..
            } if ring == usize::from(to.0) => Some(Item::Start { group, tenure }),
            Control::Time { w, t } => Some(Item::Time { w, t }),
            Control::End => Some(Item::End),
            _ => None,
        }
    }
}
