// A small play whose report is known.
ghost use Rattle.std.specs.Prelude.{◌≡◌, ◌∷◌, [], All, IfOk, length, replicate};
ghost use Rattle.std.specs.List.{AllByRecursion};
ghost use Rattle.ix_playdef.specs.Replies.{IsShortlyAnswered};
ghost use Rattle.ix_trace.specs.Sheet.{IsFull};
ghost use Rattle.ix_sheet.specs.Outcome.{CanBeReported};

use crate::{Outcome, report_of};
use ix_base::{BufId, Bytes, CoreId, Disposition, FLOW_GROUPS, GroupId, List, NoMemory, WireNo};
use ix_conf::read_conf;
use ix_groupdef::{GroupRecord, Stray};
use ix_lines::{EntryLine, Fate, HomeLine, RingLine, SettleLine};
use ix_trace::trace_text;
use std::alloc::Global;
use std::test::Fail;

const CONF: &[u8] =
    b"[local]\nmac = \"02:00:00:00:00:01\"\nip = \"161.142.100.80\"\nport = 1766\napp = \"echo\"\n";

// The answer to an ARP request for the address of the local side.
const ANSWER: [u8; 42] = [
    0x02, 0x00, 0x00, 0x00, 0x00, 0x02, 0x02, 0x00, 0x00, 0x00, 0x00, 0x01, 0x08, 0x06, 0x00, 0x01,
    0x08, 0x00, 0x06, 0x04, 0x00, 0x02, 0x02, 0x00, 0x00, 0x00, 0x00, 0x01, 0xa1, 0x8e, 0x64, 0x50,
    0x02, 0x00, 0x00, 0x00, 0x00, 0x02, 0x42, 0x09, 0x95, 0xbb,
];

// The request is the first entry, and two settles follow.
const ENTRIES: [EntryLine; 3] = [
    EntryLine::Frame {
        rec: 0,
        at: 0,
        group: GroupId(0),
        ring: CoreId(0),
        fate: Fate::Buf(BufId {
            home: CoreId(0),
            slot: 0,
        }),
    },
    EntryLine::Settle,
    EntryLine::Settle,
];

const TRACE: &[u8] = b"head 2 cores 1 groups 512 batch 64 buffers 1024
settle open
ring 0 posted 512 frames 0 items 0
home 0 pool 512 posted 512 desk 0 held 0 app 0 queue 0
frame 0 rec 0 at 0 group 0 ring 0 buf 0.0
settle 1
ring 0 posted 512 frames 1 items 1
home 0 pool 512 posted 512 desk 0 held 0 app 0 queue 0
settle 2
ring 0 posted 512 frames 0 items 0
home 0 pool 512 posted 512 desk 0 held 0 app 0 queue 0
stray 0 core 0 arp reply 0
closed 0 pool 1024
end replies 1 drops 0
";

fn settle_of(alloc: Global, frames: u32) -> Result<SettleLine, NoMemory>
    ensures { IfOk result (λ s. (length s.rings ≡ 1) × (length s.homes ≡ 1)) }
{
    let ring = RingLine {
        posted: 512,
        frames,
        items: frames,
    };
    let home = HomeLine {
        pool: 512,
        posted: 512,
        desk: 0,
        held: 0,
        app: 0,
        queue: 0,
    };
    Ok(SettleLine {
        rings: List::from_slice(alloc, &[ring])?,
        homes: List::from_slice(alloc, &[home])?,
    })
}

// The settle before the first entry, and one behind each of the first two entries.
fn settles_of(alloc: Global) -> Result<List<SettleLine>, NoMemory>
    ensures { IfOk result (λ ss. (length ss ≡ 3) × AllByRecursion (IsFull 1) ss) }
{
    let mut settles = Vec::new(alloc);
    settles.push(settle_of(alloc, 0)?)?;
    settles.push(settle_of(alloc, 1)?)?;
    settles.push(settle_of(alloc, 0)?)?;
    Ok(List::from_vec(settles))
}

// What the first group leaves, and nothing of the others.
#[tactic(auto, using(std::proofs::lemmas::List::replicate_more))]
fn groups_of(alloc: Global, first: GroupRecord) -> Result<List<GroupRecord>, NoMemory>
    ensures { IfOk result (λ groups. groups ≡ first ∷ replicate 511 (record { strays = []; conns = [] })) }
{
    let mut groups = Vec::new(alloc);
    groups.push(first)?;
    for _ in 0..FLOW_GROUPS - 1 {
        let nothing = GroupRecord {
            strays: List::new(alloc),
            conns: List::new(alloc),
        };
        groups.push(nothing)?;
    }
    Ok(List::from_vec(groups))
}

// The stray of the first entry alone.
fn answered(alloc: Global) -> Result<GroupRecord, NoMemory>
    ensures { IfOk result (λ r. (length r.strays ≡ 1) × All IsShortlyAnswered r.strays × (r.conns ≡ [])) }
{
    let mut strays = List::new(alloc);
    strays.push(Stray {
        w: WireNo(0),
        core: CoreId(0),
        kind: Disposition::Arp,
        reply: Some(Bytes::from_slice(alloc, &ANSWER)?),
    })?;
    Ok(GroupRecord {
        strays,
        conns: List::new(alloc),
    })
}

// What the play leaves.
fn outcome_of(alloc: Global) -> Result<Outcome, NoMemory>
    ensures { IfOk result (CanBeReported 1) }
{
    let first = answered(alloc)?;
    let settles = settles_of(alloc)?;
    let entries = List::from_slice(alloc, &ENTRIES)?;
    let groups = groups_of(alloc, first)?;
    let closed = List::from_slice(alloc, &[1024])?;
    Ok(Outcome {
        settles,
        connects: List::new(alloc),
        entries,
        groups,
        closed,
    })
}

#[test]
fn arp_answer(rt: HostRuntime) -> Result<(), Fail> {
    let alloc = rt.alloc();
    let conf = read_conf(alloc, CONF).map_err(|_| "a configuration")?;
    if conf.cores != 1 {
        return Err("one core")?;
    }
    let outcome = outcome_of(alloc)?;
    let (report, replies) = report_of(alloc, &conf, outcome)?;
    let text = trace_text(alloc, &report)?;
    assert!(rt; replies.len() == 1);
    assert!(rt; text.as_slice() == TRACE);
    Ok(())
}
