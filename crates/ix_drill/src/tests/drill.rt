// A card and three cores, between turns.
ghost use Rattle.std.specs.Prelude.{◌≡◌, ◌≤◌, ◌<◌, true, length};
ghost use Rattle.ix_nic.specs.Cards.{AreOpen, HaveRoom};
ghost use Rattle.ix_core.specs.Meeting.{AreInOrder};
ghost use Rattle.ix_core.specs.Order.{SameCores};
ghost use Rattle.ix_drill.specs.Quiet.{ArePlaced};

use super::opening::open_cores;
use super::quiet::{close_quiet, settle_quiet};
use crate::{Holder, Room};
use ix_base::{CoreId, GroupId, NoMemory, WireNo};
use ix_core::{Closed, Core, SettleReport, meet_all, open_rings, opening_is_in_order, order_stays};
use ix_nic::{Nic, Offer};
use ix_reta::Reta;
use ix_run::{Gate, epoch};
use std::alloc::Global;
use std::thread::Threads;

// So many cores.
pub(super) const CORES: u8 = 3;

// Each ring between two cores has so many places: few, so that messages wait.
const MESH_PLACES: usize = 2;

// The moves for which the card has room.
const MOVES: usize = 10_000;

// A card and three cores, in order, and the number of moves for which there is room.
#[derive(Drop)]
pub(super) struct Drill {
    nic: Nic,
    cores: Vec<Core<Holder>>,
    moves: usize,
    ghost order: { AreInOrder nic cores.items },
    ghost placed: { ArePlaced nic cores.items },
    ghost three: { length cores.items ≡ 3 },
    ghost unended: { AreOpen nic.ports },
    ghost room: { moves ≤ nic.table.room },
}

impl Drill {
    // The cores at the opening, of which one has this group; no buffer is posted.
    pub(super) fn new(alloc: Global, group: GroupId) -> Result<Drill, NoMemory>
        requires { group.0 < 512 }
    {
        let table = Reta::new(alloc, CORES, MOVES)?;
        let home = table.core(group);
        let (card, ends) = open_rings(alloc, CORES, MESH_PLACES)?;
        let cores = open_cores(alloc, group, home, ends)?;
        let nic = Nic::new(alloc, table, card)?;
        opening_is_in_order::<Holder>();
        Ok(Drill {
            nic,
            cores,
            moves: MOVES,
        })
    }

    // The core of a group.
    pub(super) fn core_of(&self, group: GroupId) -> CoreId
        requires { group.0 < 512 }
        ensures { result.0 < 3 }
    {
        self.nic.core(group)
    }

    // Offers a frame to the card.
    pub(super) fn offer(&mut self, w: WireNo, frame: &[u8]) -> Offer {
        order_stays::<Holder>();
        self.nic.offer(w, frame)
    }

    // Whether there is room for one more item behind each ring.
    fn has_room(&mut self) -> bool
        ensures { result ≡ true → HaveRoom self.new.nic.ports }
    {
        order_stays::<Holder>();
        self.nic.retry() < 1024
    }

    // Tags a group; answers whether there was room for it, as the two below do.
    pub(super) fn tag(&mut self, group: GroupId) -> bool
        requires { group.0 < 512 }
    {
        if !self.has_room() {
            return false;
        }
        order_stays::<Holder>();
        self.nic.tag(group);
        true
    }

    // Moves a group to another core.
    pub(super) fn turn(&mut self, group: GroupId, to: CoreId) -> bool
        requires group { group.0 < 512 }
        requires core { to.0 < 3 }
    {
        if !self.has_room() || self.moves == 0 {
            return false;
        }
        if self.nic.core(group).0 == to.0 {
            return false;
        }
        order_stays::<Holder>();
        self.nic.turn(group, to);
        self.moves -= 1;
        true
    }

    // Puts a time on each ring.
    pub(super) fn time(&mut self, w: WireNo, t: u64) -> bool {
        if !self.has_room() {
            return false;
        }
        order_stays::<Holder>();
        self.nic.time(w, t);
        true
    }

    // A turn of one core.
    pub(super) fn step(&mut self, core: u8, room: &Room) -> Result<(), NoMemory>
        requires { core < 3 }
    {
        order_stays::<Holder>();
        let core = &mut self.cores[usize::from(core)];
        let _turn = core.turn(room)?;
        Ok(())
    }

    // The cores make turns in threads, as far as a gate lets them.
    pub(super) fn epoch<R: Threads + Sync, G: Gate + Sync>(
        &mut self,
        rt: &R,
        room: &Room,
        gate: &G,
    ) -> Result<(), NoMemory> {
        order_stays::<Holder>();
        run(rt, room, self.cores.as_mut_slice(), gate)
    }

    // Tells all ends what stands in their rings.
    pub(super) fn meet(&mut self) {
        meet_all(&mut self.nic, self.cores.as_mut_slice());
    }

    // A settle, or none where something is under way.
    pub(super) fn settle(self, alloc: Global) -> Result<Option<(Drill, SettleReport)>, NoMemory> {
        let Drill {
            mut nic,
            mut cores,
            moves,
        } = self;
        match settle_quiet(alloc, &mut nic, cores.as_mut_slice())? {
            Some(report) => Ok(Some((Drill { nic, cores, moves }, report))),
            None => Ok(None),
        }
    }

    // The close, or none where something is under way.
    pub(super) fn close(self, alloc: Global) -> Result<Option<Closed<Holder>>, NoMemory> {
        let Drill {
            mut nic,
            mut cores,
            moves: _,
        } = self;
        close_quiet(alloc, &mut nic, cores.as_mut_slice())
    }
}

// The cores make turns in threads.
fn run<R: Threads + Sync, G: Gate + Sync>(
    rt: &R,
    room: &Room,
    cores: &mut [Core<Holder>],
    gate: &G,
) -> Result<(), NoMemory>
    requires { 1 ≤ length cores.old }
    ensures { SameCores cores.old cores.new }
{
    epoch(rt, room, cores, gate)
}
