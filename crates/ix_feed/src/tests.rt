// A handful of entries over two cores, of which the first has posted one buffer: what no clause says, that memory is enough.
ghost use Rattle.std.specs.Prelude.{◌≡◌, ◌<◌, ◌∷◌, [], false, length, IfOk};
ghost use Rattle.ix_feed.specs.Told.{CardIsClear};
ghost use Rattle.ix_nic.specs.Cards.{IsUnused};
ghost use Rattle.ix_wire.specs.Entries.{IsWire, terms_of};

use crate::{Feed, Replay, wires_can_be_fed};
use ix_base::{BufId, Bytes, CoreId};
use ix_lines::{EntryLine, Fate};
use ix_mbuf::Pool;
use ix_nic::{Nic, NicEnd};
use ix_pcap::read_capture;
use ix_reta::Reta;
use ix_ring::{meet, ring};
use ix_run::Turn;
use ix_wire::read_wire;
use std::alloc::Global;
use std::test::Fail;

// One record, of the four bytes 1 to 4.
const CAPTURE: [u8; 44] = [
    0xd4, 0xc3, 0xb2, 0xa1, 2, 0, 4, 0, 0, 0, 0, 0, 0, 0, 0, 0, 0, 0, 1, 0, 1, 0, 0, 0, 0, 0, 0, 0,
    0, 0, 0, 0, 4, 0, 0, 0, 4, 0, 0, 0, 1, 2, 3, 4,
];

const SCRIPT: &[u8] = b"version 2\nframes 0 0\ntag 0\nframes 0 0\nmove 0 1\nframes 0 0\ntime 7\n";

// The card's ends of a core's rings, on which nothing was put; one buffer is posted, where the core has one.
fn port(alloc: Global, core: CoreId, buffers: u32) -> Result<NicEnd, Fail>
    ensures { IfOk result IsUnused }
{
    let (items, _taken) = ring(alloc, 512)?;
    let (mut puts, mut posted) = ring(alloc, 512)?;
    let mut pool = Pool::new(alloc, core, buffers)?;
    if let Some(buf) = pool.take() {
        let _full = puts.put(buf);
    }
    meet(&mut puts, &mut posted);
    Ok(NicEnd { items, posted })
}

// A card of two cores.
fn card(alloc: Global, turns: usize) -> Result<Nic, Fail>
    requires { turns < 4294967295 }
    ensures table { IfOk result (λ card. card.table ≡ record { live = 2; turns = []; room = turns }) }
    ensures count { IfOk result (λ card. length card.ports ≡ 2) }
    ensures clear { IfOk result CardIsClear }
{
    wires_can_be_fed();
    let table = Reta::new(alloc, 2, turns)?;
    let first = port(alloc, CoreId(0), 1)?;
    let second = port(alloc, CoreId(1), 0)?;
    let ends = Vec::from_array(alloc, [first, second])?;
    Ok(Nic::new(alloc, table, ends)?)
}

// What is fed, from the opening on.
fn replay(alloc: Global) -> Result<Replay, Fail>
    ensures wire { IfOk result (λ r. IsWire (terms_of 0 2 2 (false ∷ [])) r.entries) }
    ensures frames { IfOk result (λ r. length r.frames ≡ 1) }
    ensures lines { IfOk result (λ r. r.lines ≡ []) }
{
    let Ok(entries) = read_wire(alloc, SCRIPT, 0, 2, 2, &[false]) else {
        return Err("a script".into());
    };
    let bytes = Bytes::from_slice(alloc, &CAPTURE)?;
    let capture = read_capture(alloc, bytes.as_slice())?;
    if capture.spans().len() != 1 {
        return Err("one record".into());
    }
    Ok(Replay::new(alloc, entries, bytes, capture)?)
}

// A card of two cores with what it is fed, in the first epoch.
fn opened(alloc: Global) -> Result<Feed, Fail> {
    let mut replay = replay(alloc)?;
    wires_can_be_fed();
    let nic = card(alloc, replay.moves())?;
    replay.begin();
    Ok(Feed::new(nic, replay))
}

#[test]
fn an_entry_a_turn(rt: HostRuntime) -> Result<(), Fail> {
    let mut feed = opened(rt.alloc())?;
    for frames in [1, 0, 1, 0, 1, 0] {
        assert!(rt; feed.feed() == Turn::Worked { frames });
    }
    assert!(rt; feed.feed() == Turn::Ended { frames: 0 });
    assert!(rt; feed.feed() == Turn::Ended { frames: 0 });
    Ok(())
}

#[test]
fn a_line_for_each_entry(rt: HostRuntime) -> Result<(), Fail> {
    let mut feed = opened(rt.alloc())?;
    for _ in 0..7 {
        feed.feed();
    }
    let (_nic, replay) = feed.apart();
    let lines = replay.into_lines();
    assert!(rt; lines.len() == 7 && replay_is_told(lines.as_slice()));
    Ok(())
}

// Whether the first frame is told to be in a buffer of the first core, and the second to have found none.
fn replay_is_told(lines: &[EntryLine]) -> bool {
    matches!(
        lines.first(),
        Some(EntryLine::Frame {
            ring: CoreId(0),
            fate: Fate::Buf(BufId {
                home: CoreId(0),
                ..
            }),
            ..
        })
    ) && matches!(
        lines.get(2),
        Some(EntryLine::Frame {
            ring: CoreId(0),
            fate: Fate::NoBuffer(1),
            ..
        })
    )
}
