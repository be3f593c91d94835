// A card of three cores to which no end is put, and the other ends of its rings.
ghost use Rattle.std.specs.Prelude.{◌≡◌, ◌≤◌, ◌<◌, [], All, true, length, IfOk};
ghost use Rattle.ix_ring.specs.Ends.{IsRing, taken};
ghost use Rattle.ix_nic.specs.Cards.{AreOpen, HaveRoom, IsUnused};

use super::side::Side;
use ix_base::{CoreId, GroupId, NoMemory, WireNo};
use ix_mbuf::{Mbuf, Pool};
use ix_nic::{Counts, Nic, NicEnd, Offer};
use ix_reta::Reta;
use ix_ring::ring;
use std::alloc::Global;

// The buffers of a core, more than a posting ring has places.
const BUFFERS: u32 = 600;

// The turns for which the table has room.
const TURNS: usize = 1_000;

// The card, with the number of turns that are left at least.
#[derive(Drop)]
pub(super) struct Card {
    nic: Nic,
    turns: usize,
    ghost three: { length nic.ports ≡ 3 },
    ghost unended: { AreOpen nic.ports },
    ghost room: { turns ≤ nic.table.room },
}

impl Card {
    pub(super) fn offer(&mut self, w: WireNo, frame: &[u8]) -> Offer {
        self.nic.offer(w, frame)
    }

    // Whether there is room for one more item behind each ring.
    fn has_room(&mut self) -> bool
        ensures { result ≡ true → HaveRoom self.new.nic.ports }
    {
        self.nic.retry() < 1024
    }

    // Tells whether there was room for it, and so do the others.
    pub(super) fn tag(&mut self, group: GroupId) -> bool
        requires { group.0 < 512 }
    {
        if !self.has_room() {
            return false;
        }
        self.nic.tag(group);
        true
    }

    pub(super) fn turn(&mut self, group: GroupId, to: CoreId) -> bool
        requires group { group.0 < 512 }
        requires core { to.0 < 3 }
    {
        if !self.has_room() || self.turns == 0 {
            return false;
        }
        if self.nic.core(group).0 == to.0 {
            return false;
        }
        self.nic.turn(group, to);
        self.turns -= 1;
        true
    }

    pub(super) fn time(&mut self, w: WireNo, t: u64) -> bool {
        if !self.has_room() {
            return false;
        }
        self.nic.time(w, t);
        true
    }

    pub(super) fn retry(&mut self) -> usize {
        self.nic.retry()
    }

    pub(super) fn counts(&self, core: CoreId) -> Counts
        requires { core.0 < 3 }
    {
        self.nic.counts(core)
    }

    // A buffer that was posted and is in no frame.
    pub(super) fn take_back(&mut self, core: CoreId) -> Option<Mbuf>
        requires { core.0 < 3 }
    {
        match self.nic.take_kept(core) {
            Some(buf) => Some(buf),
            None => self.nic.take_posted(core),
        }
    }
}

// One core, and the card's ends of its rings.
pub(super) fn new_side(alloc: Global, core: CoreId) -> Result<(NicEnd, Side), NoMemory>
    ensures unused { IfOk result (λ r. IsUnused r.0 × (taken r.1.items ≡ [])) }
    ensures rings { IfOk result (λ r. IsRing r.0.items r.1.items × IsRing r.1.posted r.0.posted) }
{
    let (items, take_items) = ring(alloc, 512)?;
    let (post, posted) = ring(alloc, 512)?;
    let pool = Pool::new(alloc, core, BUFFERS)?;
    let side = Side {
        core,
        items: take_items,
        posted: post,
        pool,
    };
    Ok((NicEnd { items, posted }, side))
}

// The card's ends of the rings of three cores, and the cores.
fn three_sides(alloc: Global) -> Result<(Vec<NicEnd>, Vec<Side>), NoMemory>
    ensures { IfOk result (λ r. (length r.0.items ≡ 3) × All IsUnused r.0.items) }
{
    let mut ends = Vec::with_capacity(alloc, 3)?;
    let mut sides = Vec::with_capacity(alloc, 3)?;
    for core in 0..3u8 {
        let (end, side) = new_side(alloc, CoreId(core))?;
        ends.push(end)?;
        sides.push(side)?;
    }
    Ok((ends, sides))
}

// The card over three cores, none of which posted a buffer yet.
pub(super) fn opened(alloc: Global) -> Result<(Card, Vec<Side>), NoMemory> {
    let table = Reta::new(alloc, 3, TURNS)?;
    let (ends, sides) = three_sides(alloc)?;
    let nic = Nic::new(alloc, table, ends)?;
    Ok((Card { nic, turns: TURNS }, sides))
}
