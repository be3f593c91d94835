// Drawn entries, and the steps that are due.
ghost use Rattle.std.specs.Prelude.{◌<◌};

use super::drill::{CORES, Drill};
use super::opening::BUFFERS;
use crate::Room;
use ix_base::{CoreId, GroupId, NoMemory, WireNo};
use ix_nic::{Offer, frame_group};
use std::alloc::Global;
use std::process::Abort;
use std::test::Fail;

// A frame of TCP: the headers of Ethernet and IPv4, and the ports.
const FRAME: [u8; 38] = [
    2, 0, 0, 0, 0, 1, 2, 0, 0, 0, 0, 2, 8, 0, 0x45, 0, 0, 24, 0, 0, 0x40, 0, 0x40, 6, 0x26, 0xde,
    10, 0, 0, 1, 10, 0, 0, 2, 4, 5, 0, 80,
];

// A play: its card and cores, the core to which the group is tagged to move, the number of entries so far, those that are to be stepped, each
// with its core, and a generator of drawn numbers.
#[derive(Drop)]
pub(super) struct Play {
    pub(super) drill: Drill,
    pub(super) room: Room,
    alloc: Global,
    tagged: Option<CoreId>,
    moves: u32,
    entries: u32,
    due: Vec<(u32, u8)>,
    seed: u64,
}

fn group() -> GroupId
    ensures { result.0 < 512 }
{
    frame_group(&FRAME)
}

impl Play {
    pub(super) fn new(alloc: Global, seed: u64) -> Result<Play, NoMemory> {
        Ok(Play {
            drill: Drill::new(alloc, group())?,
            room: Room::new(3),
            alloc,
            tagged: None,
            moves: 0,
            entries: 0,
            due: Vec::new(alloc),
            seed,
        })
    }

    // A drawn number below 3.
    fn core(&mut self) -> u8
        ensures { result < 3 }
    {
        (self.draw() % 3) as u8
    }

    fn draw(&mut self) -> u64 {
        self.seed = self
            .seed
            .wrapping_mul(6_364_136_223_846_793_005)
            .wrapping_add(1_442_695_040_888_963_407);
        self.seed >> 33
    }

    // The entry is to be stepped by the core to which the group is tagged, or else by the core of the group.
    fn is_due(&mut self) -> Result<(), NoMemory> {
        let core = match self.tagged {
            Some(core) => core,
            None => self.drill.core_of(group()),
        };
        self.due.push((self.entries, core.0))?;
        Ok(())
    }

    fn frame(&mut self) -> Result<(), NoMemory> {
        let offer = self.drill.offer(WireNo(self.entries), &FRAME);
        if matches!(offer, Offer::Accepted { .. }) {
            self.is_due()?;
        }
        Ok(())
    }

    fn time(&mut self) -> Result<(), NoMemory> {
        if self.drill.time(WireNo(self.entries), 1) {
            self.is_due()?;
        }
        Ok(())
    }

    // The group is tagged to move to a drawn core, or where it is tagged it moves there.
    fn tag_or_move(&mut self) {
        let to = CoreId(self.core());
        match self.tagged {
            Some(core) => self.turn(core),
            None => {
                if to.0 != self.drill.core_of(group()).0 && self.drill.tag(group()) {
                    self.tagged = Some(to);
                }
            }
        }
    }

    fn turn(&mut self, to: CoreId) {
        if to.0 < 3 && self.drill.turn(group(), to) {
            self.moves = self.moves.wrapping_add(1);
            self.tagged = None;
        }
    }

    // Mostly a frame.
    pub(super) fn entry(&mut self) -> Result<(), NoMemory> {
        match self.draw() % 9 {
            0 => self.time()?,
            1 => self.tag_or_move(),
            _ => self.frame()?,
        }
        self.entries = self.entries.wrapping_add(1);
        Ok(())
    }

    pub(super) fn entry_or_turn(&mut self) -> Result<(), NoMemory> {
        if self.draw() % 2 == 0 {
            self.entry()
        } else {
            let core = self.core();
            self.drill.step(core, &self.room)
        }
    }

    // Turns of all cores, until nothing is under way.
    fn finish(&mut self) -> Result<(), NoMemory> {
        for _round in 0..30 {
            self.drill.meet();
            for core in 0..CORES {
                self.drill.step(core, &self.room)?;
            }
        }
        Ok(())
    }

    // At the settle each buffer has one place.
    pub(super) fn settle<R: Abort>(self, rt: &R) -> Result<Play, Fail> {
        let mut play = self;
        play.finish()?;
        let Play {
            drill,
            room,
            alloc,
            tagged,
            moves,
            entries,
            due,
            seed,
        } = play;
        let (drill, report) = drill.settle(alloc)?.ok_or("something is under way")?;
        assert_eq!(rt; report.homes.len(), usize::from(CORES));
        for home in report.homes.iter() {
            let places = [
                home.pool,
                home.posted,
                home.desk,
                home.held,
                home.app,
                home.queue,
            ];
            let count = places
                .iter()
                .fold(0u32, |sum, count| sum.wrapping_add(*count));
            assert_eq!(rt; count, BUFFERS, "{home:?}");
        }
        Ok(Play {
            drill,
            room,
            alloc,
            tagged,
            moves,
            entries,
            due,
            seed,
        })
    }

    // At the close each pool has all its buffers, and the group has stepped what was due, in order.
    pub(super) fn close<R: Abort>(self, rt: &R) -> Result<(), Fail> {
        let mut play = self;
        if play.tagged.is_some() {
            play.tag_or_move();
        }
        let play = play.settle(rt)?;
        assert!(rt; play.moves > 20, "{} moves", play.moves);
        assert!(rt; play.due.len() > 500, "{} steps", play.due.len());
        let closed = play
            .drill
            .close(play.alloc)?
            .ok_or("something is under way")?;
        for pool in closed.pools.iter() {
            assert_eq!(rt; *pool, BUFFERS);
        }
        assert_eq!(rt; closed.groups.len(), 1);
        for (_group, unit) in closed.groups.iter() {
            assert_eq!(rt; unit.seen.as_slice(), play.due.as_slice());
        }
        Ok(())
    }
}
