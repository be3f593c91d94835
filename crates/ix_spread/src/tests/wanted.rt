// What each core is to take, by the wire list alone.

use ix_base::{CoreId, FLOW_GROUPS, GroupId, WireNo};
use std::alloc::Global;
use std::collections::VecDeque;
use std::test::Fail;

// An item by its name.
#[derive(Clone, Copy, Debug, PartialEq, Eq)]
pub(super) enum Name {
    Frame { w: WireNo, group: GroupId },
    Tag { group: GroupId },
    Cut { group: GroupId, to: CoreId },
    Start { group: GroupId, tenure: u32 },
    Time { w: WireNo },
}

// Where a group is.
#[derive(Clone, Copy)]
struct Seat {
    core: CoreId,
    tenure: u32,
}

// What was put on a ring since the opening, and what of it waits to be taken.
#[derive(Drop)]
struct Ring {
    items: u32,
    frames: u32,
    waits: VecDeque<Name>,
}

#[derive(Drop)]
pub(super) struct Wanted {
    seats: Vec<Seat>,
    rings: Vec<Ring>,
}

impl Wanted {
    // Three cores, over which the groups are spread.
    pub(super) fn new(alloc: Global) -> Result<Wanted, Fail> {
        let mut seats = Vec::with_capacity(alloc, FLOW_GROUPS)?;
        for group in 0..512u16 {
            let core = CoreId((group % 128 % 3) as u8);
            seats.push(Seat { core, tenure: 0 })?;
        }
        let mut rings = Vec::with_capacity(alloc, 3)?;
        for _ in 0..3 {
            let waits = VecDeque::new(alloc);
            rings.push(Ring {
                items: 0,
                frames: 0,
                waits,
            })?;
        }
        Ok(Wanted { seats, rings })
    }

    // The core that a group is on.
    pub(super) fn core(&self, group: GroupId) -> Result<CoreId, Fail> {
        let seat = self.seats.get(usize::from(group.0)).ok_or("a group")?;
        Ok(seat.core)
    }

    // How many items were put on a ring.
    pub(super) fn items(&self, core: CoreId) -> Result<u32, Fail> {
        let ring = self.rings.get(usize::from(core.0)).ok_or("a core")?;
        Ok(ring.items)
    }

    // How many frames were put on a ring.
    pub(super) fn frames(&self, core: CoreId) -> Result<u32, Fail> {
        let ring = self.rings.get(usize::from(core.0)).ok_or("a core")?;
        Ok(ring.frames)
    }

    // Puts an item on a ring.
    pub(super) fn put(&mut self, core: CoreId, name: Name) -> Result<(), Fail> {
        let ring = self.rings.get_mut(usize::from(core.0)).ok_or("a core")?;
        ring.items = ring.items.wrapping_add(1);
        if matches!(name, Name::Frame { w: _, group: _ }) {
            ring.frames = ring.frames.wrapping_add(1);
        }
        ring.waits.push_back(name)?;
        Ok(())
    }

    // Puts a time on each ring.
    pub(super) fn time(&mut self, w: WireNo) -> Result<(), Fail> {
        for core in 0..3 {
            self.put(CoreId(core), Name::Time { w })?;
        }
        Ok(())
    }

    // Moves a group: a cut on the ring of its core, a start on the other's.
    pub(super) fn turn(&mut self, group: GroupId, to: CoreId) -> Result<(), Fail> {
        let seat = self.seats.get_mut(usize::from(group.0)).ok_or("a group")?;
        let from = seat.core;
        let tenure = seat.tenure.wrapping_add(1);
        *seat = Seat { core: to, tenure };
        self.put(from, Name::Cut { group, to })?;
        self.put(to, Name::Start { group, tenure })
    }

    // The item that is to be taken next from a ring.
    pub(super) fn take(&mut self, core: CoreId) -> Result<Option<Name>, Fail> {
        let ring = self.rings.get_mut(usize::from(core.0)).ok_or("a core")?;
        Ok(ring.waits.pop_front())
    }
}
