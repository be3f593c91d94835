use crate::{
    Records, are_journals, buffer_of, card_fits, cuttings_are_read, is_buffer, one_core_plays,
    opening_core, readings_fit, reports_are_sound, tenures_are_runs, wires_can_be_played,
    worked_plays,
};
use ix_base::{BufId, CoreId, GroupId, WireNo};
use ix_conf::read_conf;
use ix_pcap::read_capture;
use ix_trace::read_trace;
use ix_wire::Entry;
use std::alloc::Global;
use std::test::Fail;

// Two cores, and a connection whose group moves from core 0 to core 1 while its second frame waits behind the tag.
const CONF: &[u8] =
    b"[local]\nmac = \"02:00:00:00:00:01\"\nip = \"161.142.100.80\"\nport = 1766\napp = \"echo\"\n[core]\ncores = 2\n";

// The four groups of a class of flow groups are tagged and moved together.
const WIRE: [Entry; 12] = [
    Entry::Frame { rec: 0 },
    Entry::Tag {
        group: GroupId(120),
    },
    Entry::Tag {
        group: GroupId(248),
    },
    Entry::Tag {
        group: GroupId(376),
    },
    Entry::Tag {
        group: GroupId(504),
    },
    Entry::Frame { rec: 1 },
    Entry::Move {
        group: GroupId(120),
        to: CoreId(1),
    },
    Entry::Move {
        group: GroupId(248),
        to: CoreId(1),
    },
    Entry::Move {
        group: GroupId(376),
        to: CoreId(1),
    },
    Entry::Move {
        group: GroupId(504),
        to: CoreId(1),
    },
    Entry::Frame { rec: 2 },
    Entry::Settle,
];

const CAPTURE: [u8; 243] = [
    0xd4, 0xc3, 0xb2, 0xa1, 2, 0, 4, 0, 0, 0, 0, 0, 0, 0, 0, 0, 0xff, 0xff, 0, 0, 1, 0, 0, 0, 0, 0,
    0, 0, 0, 0, 0, 0, 0x3a, 0, 0, 0, 0x3a, 0, 0, 0, 2, 0, 0, 0, 0, 1, 2, 0, 0, 0, 0, 2, 8, 0, 0x45,
    0, 0, 0x2c, 0, 0, 0x40, 0, 0x40, 6, 0x5d, 0x29, 0x42, 9, 0x95, 0xbb, 0xa1, 0x8e, 0x64, 0x50,
    0x0a, 0xea, 6, 0xe6, 0, 0, 0x10, 0, 0, 0, 0, 0, 0x60, 2, 0xfa, 0xf0, 0x9d, 0xc2, 0, 0, 2, 4, 5,
    0xb4, 1, 0, 0, 0, 7, 0, 0, 0, 0x36, 0, 0, 0, 0x36, 0, 0, 0, 2, 0, 0, 0, 0, 1, 2, 0, 0, 0, 0, 2,
    8, 0, 0x45, 0, 0, 0x28, 0, 0, 0x40, 0, 0x40, 6, 0x5d, 0x2d, 0x42, 9, 0x95, 0xbb, 0xa1, 0x8e,
    0x64, 0x50, 0x0a, 0xea, 6, 0xe6, 0, 0, 0x10, 1, 0x51, 0xcc, 0xc1, 0x79, 0x50, 0x10, 0xfa, 0xf0,
    0xa2, 0x29, 0, 0, 2, 0, 0, 0, 0x0e, 0, 0, 0, 0x3b, 0, 0, 0, 0x3b, 0, 0, 0, 2, 0, 0, 0, 0, 1, 2,
    0, 0, 0, 0, 2, 8, 0, 0x45, 0, 0, 0x2d, 0, 0, 0x40, 0, 0x40, 6, 0x5d, 0x28, 0x42, 9, 0x95, 0xbb,
    0xa1, 0x8e, 0x64, 0x50, 0x0a, 0xea, 6, 0xe6, 0, 0, 0x10, 1, 0x51, 0xcc, 0xc1, 0x79, 0x50, 0x18,
    0xfa, 0xf0, 0x5e, 0x4a, 0, 0, 0x68, 0x65, 0x6c, 0x6c, 0x6f,
];

const TRACE: &str = "head 2 cores 2 groups 512 batch 64 buffers 1024
settle open
ring 0 posted 512 frames 0 items 0
ring 1 posted 512 frames 0 items 0
home 0 pool 512 posted 512 desk 0 held 0 app 0 queue 0
home 1 pool 512 posted 512 desk 0 held 0 app 0 queue 0
frame 0 rec 0 at 0 group 376 ring 0 buf 0.0
tag 1 120
tag 2 248
tag 3 376
tag 4 504
frame 5 rec 1 at 0 group 376 ring 0 buf 0.1
move 6 120 1
move 7 248 1
move 8 376 1
move 9 504 1
frame 10 rec 2 at 0 group 376 ring 1 buf 1.0
settle 11
ring 0 posted 512 frames 2 items 10
ring 1 posted 512 frames 1 items 5
home 0 pool 512 posted 512 desk 0 held 0 app 0 queue 0
home 1 pool 511 posted 512 desk 0 held 0 app 0 queue 1
conn 376 0 remote 66.9.149.187 2794 local 1766 iss 51ccc178
seg 0 core 0
reply 0
flush 0
seg 5 core 1
event knock
call accept
ret done 0
flush 5
seg 10 core 1
event recv 1.0 54 5
call recv_done 5
ret done 5
call sendv 5
ret done 5
flush 10
reply 1
left ESTABLISHED una 1 nxt 6 rcv 6 cwnd 4380 ssthresh 65535
answer wrote 5 taken 5
closed 0 pool 1024
closed 1 pool 1024
end replies 2 drops 0
";

// What is changed in the trace, so that its card does not fit any more: a ring, a buffer of another core, a slot that is not there, a drop
// without its count, a group, a record, a clock, the counts of a settle, the buffers that are posted, a number of a home, the
// head, what is home in the end, and the number of drops.
const CHANGES: [(&str, &str); 15] = [
    ("ring 1 buf 1.0", "ring 0 buf 0.2"),
    ("ring 1 buf 1.0", "ring 1 buf 0.2"),
    ("ring 1 buf 1.0", "ring 1 buf 1.1024"),
    ("buf 0.1", "drop no-buffer 1"),
    ("buf 0.1", "drop ring-full 5"),
    ("rec 1 at 0 group 376", "rec 1 at 0 group 375"),
    ("frame 5 rec 1", "frame 5 rec 0"),
    ("rec 1 at 0", "rec 1 at 1"),
    ("frames 2 items 10", "frames 2 items 9"),
    ("frames 1 items 5", "frames 2 items 5"),
    ("ring 0 posted 512 frames 2", "ring 0 posted 511 frames 2"),
    ("pool 511 posted 512", "pool 512 posted 512"),
    ("batch 64", "batch 65"),
    ("closed 1 pool 1024", "closed 1 pool 1023"),
    ("drops 0", "drops 1"),
];

// Whether the card of the play's trace fits, after a change.
fn fits(alloc: Global, old: &str, new: &str) -> Result<bool, Fail> {
    let conf = read_conf(alloc, CONF).map_err(|_| "a configuration")?;
    let capture = read_capture(alloc, &CAPTURE)?;
    let (before, after) = TRACE.split_once(old).ok_or("a place in the trace")?;
    let text = format!(in alloc; "{before}{new}{after}")?;
    let report = read_trace(alloc, text.as_bytes()).map_err(|_| "a trace")?;
    let records = Records::new(&CAPTURE, &capture);
    Ok(card_fits(&conf, &records, &WIRE, &report))
}

#[test]
fn cards(rt: HostRuntime) -> Result<(), Fail> {
    let alloc = rt.alloc();
    assert!(rt; fits(alloc, "head 2", "head 2")?);
    for (old, new) in CHANGES {
        assert!(rt; !fits(alloc, old, new)?, "{new}");
    }
    Ok(())
}

#[test]
fn journals_and_laws(rt: HostRuntime) {
    let buffer = BufId {
        home: CoreId(0),
        slot: 0,
    };
    assert!(rt; are_journals(&[], GroupId(0), &[], &[]));
    assert!(rt; is_buffer(buffer, Some(buffer)));
    assert!(rt; !is_buffer(buffer, buffer_of(&[], WireNo(0))));
    assert_eq!(rt; opening_core(2, GroupId(121)).0, 1);
    reports_are_sound();
    cuttings_are_read();
    readings_fit();
    wires_can_be_played();
    tenures_are_runs();
    one_core_plays();
    worked_plays();
}
