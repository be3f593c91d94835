// What no clause says: that memory is enough, and that each core takes what a wire list of ten thousand drawn entries has for it.
ghost use Rattle.std.specs.Prelude.{◌<◌};

mod card;
mod side;
mod wanted;

use card::{Card, new_side, opened};
use ix_base::{CoreId, GroupId, WireNo};
use ix_nic::{Counts, Item, Nic, Offer, frame_group};
use ix_reta::Reta;
use side::Side;
use std::process::Abort;
use std::test::Fail;
use wanted::{Name, Wanted};

// How many entries are drawn, and how many of them are played in one way before the next.
const ENTRIES: u32 = 10_000;

const STRETCH: u32 = 2_500;

// A generator whose steps are a multiplication and a sum.
#[derive(Drop)]
struct Draw(u64);

impl Draw {
    // A number below a bound.
    fn below(&mut self, bound: u64) -> u64
        requires { 0 < bound }
        ensures { result < bound }
    {
        self.0 = self
            .0
            .wrapping_mul(6_364_136_223_846_793_005)
            .wrapping_add(1_442_695_040_888_963_407);
        (self.0 >> 33) % bound
    }

    // A flow group.
    fn group(&mut self) -> GroupId
        ensures { result.0 < 512 }
    {
        GroupId(self.below(512) as u16)
    }
}

// How often each answer to a frame came.
#[derive(Clone, Copy, Debug, PartialEq, Eq)]
struct Answers {
    accepted: u32,
    ring_full: u32,
    no_buffer: u32,
    too_long: u32,
}

// A frame of TCP from this port: the headers of Ethernet and IPv4, and the ports.
fn frame_from(port: u16) -> [u8; 38] {
    let [high, low] = port.to_be_bytes();
    [
        2, 0, 0, 0, 0, 1, 2, 0, 0, 0, 0, 2, 8, 0, 0x45, 0, 0, 24, 0, 0, 0x40, 0, 0x40, 6, 0x26,
        0xde, 10, 0, 0, 1, 10, 0, 0, 2, high, low, 0, 80,
    ]
}

// Offers a frame, and compares the answer.
fn offer<R: Abort>(
    rt: &R,
    w: WireNo,
    frame: &[u8],
    card: &mut Card,
    wanted: &mut Wanted,
    answers: &mut Answers,
) -> Result<(), Fail> {
    let at = frame_group(frame);
    let core = wanted.core(at)?;
    match card.offer(w, frame) {
        Offer::TooLong { len } => {
            answers.too_long = answers.too_long.wrapping_add(1);
            assert!(rt; len == frame.len() && len > 2048, "entry {w:?}");
        }
        Offer::RingFull { ring, group, items } => {
            answers.ring_full = answers.ring_full.wrapping_add(1);
            assert_eq!(rt;
                (ring, group, items),
                (core, at, wanted.items(core)?),
                "entry {w:?}"
            );
            assert!(rt; items >= 512, "entry {w:?}");
        }
        Offer::NoBuffer {
            ring,
            group,
            frames,
        } => {
            answers.no_buffer = answers.no_buffer.wrapping_add(1);
            assert_eq!(rt;
                (ring, group, frames),
                (core, at, wanted.frames(core)?),
                "entry {w:?}"
            );
        }
        Offer::Accepted { ring, group, buf } => {
            answers.accepted = answers.accepted.wrapping_add(1);
            assert_eq!(rt; (ring, group, buf.home), (core, at, core), "entry {w:?}");
            wanted.put(core, Name::Frame { w, group })?;
        }
    }
    Ok(())
}

// Carries out a drawn entry: mostly a frame, one in a hundred too long, else a tag, a move or a time.
fn carry_out<R: Abort>(
    rt: &R,
    w: WireNo,
    draw: &mut Draw,
    card: &mut Card,
    wanted: &mut Wanted,
    answers: &mut Answers,
) -> Result<(), Fail> {
    match draw.below(100) {
        0 => {
            let group = draw.group();
            assert!(rt; card.tag(group), "room for a tag at {w:?}");
            wanted.put(wanted.core(group)?, Name::Tag { group })?;
        }
        1..=5 => {
            let group = draw.group();
            let to = CoreId(draw.below(3) as u8);
            if to != wanted.core(group)? {
                assert!(rt; card.turn(group, to), "room for a move at {w:?}");
                wanted.turn(group, to)?;
            }
        }
        6..=7 => {
            assert!(rt; card.time(w, u64::from(w.0)), "room for a time at {w:?}");
            wanted.time(w)?;
        }
        8 => offer(rt, w, &[8; 2049], card, wanted, answers)?,
        _ => {
            let port = draw.below(4_096) as u16;
            offer(rt, w, &frame_from(port), card, wanted, answers)?;
        }
    }
    Ok(())
}

// Takes all that stands on and behind the rings, then the buffers that are posted or kept: all are home, each once.
fn finish<R: Abort>(
    rt: &R,
    card: &mut Card,
    sides: &mut [Side],
    wanted: &mut Wanted,
) -> Result<(), Fail> {
    for _ in 0..4 {
        card.retry();
        for side in sides.iter_mut() {
            side.take_some(rt, wanted, 512)?;
        }
    }
    assert_eq!(rt; card.retry(), 0);
    for side in sides.iter_mut() {
        let core = side.core;
        assert!(rt; core.0 < 3);
        assert_eq!(rt; wanted.take(core)?, None, "all was taken");
        let counts = card.counts(core);
        assert_eq!(rt;
            (counts.items, counts.frames),
            (wanted.items(core)?, wanted.frames(core)?)
        );
        for _ in 0..600 {
            if let Some(buf) = card.take_back(core) {
                side.give(rt, buf);
            }
        }
        assert_eq!(rt; side.pool.free(), 600);
    }
    Ok(())
}

#[test]
fn ten_thousand_drawn_entries(rt: HostRuntime) -> Result<(), Fail> {
    let alloc = rt.alloc();
    let (mut card, mut sides) = opened(alloc)?;
    let mut wanted = Wanted::new(alloc)?;
    let mut draw = Draw(1);
    let mut answers = Answers {
        accepted: 0,
        ring_full: 0,
        no_buffer: 0,
        too_long: 0,
    };
    for entry in 0..ENTRIES {
        carry_out(
            &rt,
            WireNo(entry),
            &mut draw,
            &mut card,
            &mut wanted,
            &mut answers,
        )?;
        let stretch = entry / STRETCH % 4;
        for side in &mut sides {
            if stretch != 1 {
                side.take_some(&rt, &mut wanted, draw.below(3))?;
            }
            if stretch != 2 {
                side.post_some(&rt, draw.below(3));
            }
        }
    }
    let Answers {
        accepted,
        ring_full,
        no_buffer,
        too_long,
    } = answers;
    assert!(rt;
        accepted > 0 && ring_full > 0 && no_buffer > 0 && too_long > 0,
        "{answers:?}"
    );
    finish(&rt, &mut card, &mut sides, &mut wanted)
}

#[test]
fn rings_at_rest(rt: HostRuntime) -> Result<(), Fail> {
    let alloc = rt.alloc();
    let (ends, mut side) = new_side(alloc, CoreId(0))?;
    let table = Reta::new(alloc, 1, 0)?;
    let ends = Vec::from_array(alloc, [ends])?;
    let mut nic = Nic::new(alloc, table, ends)?;
    let buf = side.pool.take().ok_or("a buffer")?;
    assert!(rt; side.posted.put(buf).is_ok());
    nic.meet_ends(CoreId(0), &mut side.items, &mut side.posted);
    nic.settled();
    nic.fresh_ends(alloc, CoreId(0), &mut side.items, &mut side.posted)?;
    let posted = Counts {
        posted: 1,
        frames: 0,
        items: 0,
    };
    assert_eq!(rt; nic.counts(CoreId(0)), posted);
    assert!(rt; nic.take_kept(CoreId(0)).is_none());
    assert!(rt; nic.take_posted(CoreId(0)).is_some());
    if nic.retry() == 0 {
        nic.end();
    }
    assert!(rt; matches!(side.items.take(), Some(Item::End)));
    Ok(())
}
