// The worked runs of the top call over hosts in memory.
mod checks;
mod gates;
mod short;

use crate::{Status, ix, status_text};
use ix_base::{Bytes, MemHost, NoMemory, Role};
use ix_run::Gate;
use std::alloc::{AllocError, Global};
use std::sync::Wait;
use std::test::Fail;
use std::thread::Threads;

// The capture's header, then four records, each of a header and a frame: a handshake in two frames, a segment of five bytes, and the first frame
// of another flow, whose flow group is on the second of two cores.
const CAPTURE: &[u8] = &[
    0xd4, 0xc3, 0xb2, 0xa1, 0x02, 0x00, 0x04, 0x00, 0x00, 0x00, 0x00, 0x00, 0x00, 0x00, 0x00, 0x00,
    0xff, 0xff, 0x00, 0x00, 0x01, 0x00, 0x00, 0x00, 0x00, 0x00, 0x00, 0x00, 0x00, 0x00, 0x00, 0x00,
    0x3a, 0x00, 0x00, 0x00, 0x3a, 0x00, 0x00, 0x00, 0x02, 0x00, 0x00, 0x00, 0x00, 0x01, 0x02, 0x00,
    0x00, 0x00, 0x00, 0x02, 0x08, 0x00, 0x45, 0x00, 0x00, 0x2c, 0x00, 0x00, 0x40, 0x00, 0x40, 0x06,
    0x5d, 0x29, 0x42, 0x09, 0x95, 0xbb, 0xa1, 0x8e, 0x64, 0x50, 0x0a, 0xea, 0x06, 0xe6, 0x00, 0x00,
    0x10, 0x00, 0x00, 0x00, 0x00, 0x00, 0x60, 0x02, 0xfa, 0xf0, 0x9d, 0xc2, 0x00, 0x00, 0x02, 0x04,
    0x05, 0xb4, 0x01, 0x00, 0x00, 0x00, 0x07, 0x00, 0x00, 0x00, 0x36, 0x00, 0x00, 0x00, 0x36, 0x00,
    0x00, 0x00, 0x02, 0x00, 0x00, 0x00, 0x00, 0x01, 0x02, 0x00, 0x00, 0x00, 0x00, 0x02, 0x08, 0x00,
    0x45, 0x00, 0x00, 0x28, 0x00, 0x00, 0x40, 0x00, 0x40, 0x06, 0x5d, 0x2d, 0x42, 0x09, 0x95, 0xbb,
    0xa1, 0x8e, 0x64, 0x50, 0x0a, 0xea, 0x06, 0xe6, 0x00, 0x00, 0x10, 0x01, 0x51, 0xcc, 0xc1, 0x79,
    0x50, 0x10, 0xfa, 0xf0, 0xa2, 0x29, 0x00, 0x00, 0x02, 0x00, 0x00, 0x00, 0x0e, 0x00, 0x00, 0x00,
    0x3b, 0x00, 0x00, 0x00, 0x3b, 0x00, 0x00, 0x00, 0x02, 0x00, 0x00, 0x00, 0x00, 0x01, 0x02, 0x00,
    0x00, 0x00, 0x00, 0x02, 0x08, 0x00, 0x45, 0x00, 0x00, 0x2d, 0x00, 0x00, 0x40, 0x00, 0x40, 0x06,
    0x5d, 0x28, 0x42, 0x09, 0x95, 0xbb, 0xa1, 0x8e, 0x64, 0x50, 0x0a, 0xea, 0x06, 0xe6, 0x00, 0x00,
    0x10, 0x01, 0x51, 0xcc, 0xc1, 0x79, 0x50, 0x18, 0xfa, 0xf0, 0x5e, 0x4a, 0x00, 0x00, 0x68, 0x65,
    0x6c, 0x6c, 0x6f, 0x03, 0x00, 0x00, 0x00, 0x15, 0x00, 0x00, 0x00, 0x3a, 0x00, 0x00, 0x00, 0x3a,
    0x00, 0x00, 0x00, 0x02, 0x00, 0x00, 0x00, 0x00, 0x01, 0x02, 0x00, 0x00, 0x00, 0x00, 0x02, 0x08,
    0x00, 0x45, 0x00, 0x00, 0x2c, 0x00, 0x00, 0x40, 0x00, 0x40, 0x06, 0x5d, 0x29, 0x42, 0x09, 0x95,
    0xbb, 0xa1, 0x8e, 0x64, 0x50, 0x0a, 0xeb, 0x06, 0xe6, 0x00, 0x00, 0x10, 0x00, 0x00, 0x00, 0x00,
    0x00, 0x60, 0x02, 0xfa, 0xf0, 0x9d, 0xc1, 0x00, 0x00, 0x02, 0x04, 0x05, 0xb4,
];

// The capture's header, and the answer to the first frame at tick 0.
const REPLIES: &[u8] = &[
    0xd4, 0xc3, 0xb2, 0xa1, 0x02, 0x00, 0x04, 0x00, 0x00, 0x00, 0x00, 0x00, 0x00, 0x00, 0x00, 0x00,
    0xff, 0xff, 0x00, 0x00, 0x01, 0x00, 0x00, 0x00, 0x00, 0x00, 0x00, 0x00, 0x00, 0x00, 0x00, 0x00,
    0x3a, 0x00, 0x00, 0x00, 0x3a, 0x00, 0x00, 0x00, 0x02, 0x00, 0x00, 0x00, 0x00, 0x02, 0x02, 0x00,
    0x00, 0x00, 0x00, 0x01, 0x08, 0x00, 0x45, 0x00, 0x00, 0x2c, 0x00, 0x00, 0x40, 0x00, 0x40, 0x06,
    0x5d, 0x29, 0xa1, 0x8e, 0x64, 0x50, 0x42, 0x09, 0x95, 0xbb, 0x06, 0xe6, 0x0a, 0xea, 0x51, 0xcc,
    0xc1, 0x78, 0x00, 0x00, 0x10, 0x01, 0x60, 0x12, 0x80, 0x00, 0x05, 0x5d, 0x00, 0x00, 0x02, 0x04,
    0x05, 0xb4,
];

// The trace of a play on one core from its last settle on, behind the lines that name buffers.
const TRACE_END: &[u8] = b"settle 4
ring 0 posted 512 frames 0 items 0
home 0 pool 512 posted 512 desk 0 held 0 app 0 queue 0
conn 376 0 remote 66.9.149.187 2794 local 1766 iss 51ccc178
seg 0 core 0
reply 0
flush 0
seg 2 core 0
event knock
call accept
ret done 0
flush 2
left ESTABLISHED una 1 nxt 1 rcv 1 cwnd 4380 ssthresh 65535
answer wrote 0 taken 0
closed 0 pool 1024
end replies 1 drops 0
";

const CONF: &[u8] =
    b"[local]\nmac = \"02:00:00:00:00:01\"\nip = \"161.142.100.80\"\nport = 1766\napp = \"echo\"\n";

const SCRIPT: &[u8] = b"each 0 1\n";

const PLAY: [&str; 6] = ["play", "conf", "script", "capture", "replies", "trace"];

const ROOM: usize = 1_048_576;

// A gate that is open to all.
#[derive(Drop)]
struct Open;

impl Gate for Open {
    fn enter(&self, _actor: u32, _turn: u64) -> bool {
        true
    }
}

fn words(alloc: Global, words: &[&str]) -> Result<Vec<String>, AllocError> {
    let mut all = Vec::new(alloc);
    for word in words {
        all.push(String::from_str(alloc, word)?)?;
    }
    Ok(all)
}

fn host(
    alloc: Global,
    conf: &[u8],
    capture: &[u8],
    script: &[u8],
    room: usize,
    fail: &[u64],
) -> Result<MemHost, NoMemory> {
    let mut files = Vec::new(alloc);
    files.push((Role::Conf, Bytes::from_slice(alloc, conf)?))?;
    files.push((Role::Capture, Bytes::from_slice(alloc, capture)?))?;
    files.push((Role::Script, Bytes::from_slice(alloc, script)?))?;
    MemHost::new(alloc, files, room, fail.to_vec(alloc)?)
}

// Plays a script over the capture, with these lines behind those of the configuration.
fn played<R: Threads + Wait + Sync, G: Gate + Sync>(
    rt: &R,
    alloc: Global,
    lines: &[u8],
    script: &[u8],
    gate: &G,
) -> Result<(Status, MemHost), NoMemory> {
    let mut conf = CONF.to_vec(alloc)?;
    conf.extend_from_slice(lines)?;
    let mut memory = host(alloc, &conf, CAPTURE, script, ROOM, &[])?;
    let words = words(alloc, &PLAY)?;
    let status = ix(rt, alloc, &words, &mut memory, gate);
    Ok((status, memory))
}

#[test]
fn a_handshake_is_played(rt: HostRuntime) -> Result<(), Fail> {
    let alloc = rt.alloc();
    let (status, memory) = played(&rt, alloc, b"", SCRIPT, &Open)?;
    assert_eq!(rt; status, Status::Done);
    assert_eq!(rt; memory.written(Role::Replies), REPLIES);
    assert!(rt; memory.written(Role::Trace).ends_with(TRACE_END));
    Ok(())
}

// The calls of a handshake's play in which the host may fail, from one to another, counted from 0: the status, the replies, and the end of
// the trace, where it was written.
const FAILS: [(u64, u64, Status, &[u8], &[u8]); 4] = [
    // each of the three inputs is prepared, read, and read to its end
    (0, 8, Status::ReadFault, b"", b""),
    // the replies are prepared and written
    (9, 10, Status::WriteFault, b"", b""),
    // the trace is prepared and written
    (11, 12, Status::WriteFault, REPLIES, b""),
    // there is no such call
    (13, 13, Status::Done, REPLIES, TRACE_END),
];

#[test]
fn each_failing_call_has_its_status_and_files(rt: HostRuntime) -> Result<(), Fail> {
    let alloc = rt.alloc();
    let words = words(alloc, &PLAY)?;
    for (first, last, want, replies, trace) in FAILS {
        for number in first..=last {
            let mut memory = host(alloc, CONF, CAPTURE, SCRIPT, ROOM, &[number])?;
            let status = ix(&rt, alloc, &words, &mut memory, &Open);
            assert!(rt; status == want, "at {number}");
            assert!(rt; memory.written(Role::Replies) == replies, "at {number}");
            let written = memory.written(Role::Trace);
            assert!(rt; written.ends_with(trace), "at {number}");
            assert!(rt; written.is_empty() == trace.is_empty(), "at {number}");
        }
    }
    Ok(())
}

#[test]
fn other_words_are_refused(rt: HostRuntime) -> Result<(), Fail> {
    let alloc = rt.alloc();
    let mut memory = host(alloc, CONF, CAPTURE, SCRIPT, ROOM, &[])?;
    let none = ix(&rt, alloc, &[], &mut memory, &Open);
    assert_eq!(rt; none, Status::Usage);
    let short = ix(
        &rt,
        alloc,
        words(alloc, &["play", "a", "b"])?.as_slice(),
        &mut memory,
        &Open,
    );
    assert_eq!(rt; short, Status::Usage);
    assert_eq!(rt; short.number(), 1);
    let text = status_text(alloc, &short)?;
    assert_eq!(rt;
        text.as_slice(),
        b"ix: usage: ix play CONF SCRIPT CAPTURE REPLIES TRACE | ix check CONF SCRIPT CAPTURE REPLIES TRACE".as_slice()
    );
    Ok(())
}

// Scripts that can't be played, with the number of their status and its text.
const SCRIPTS: [(&[u8], u8, &str); 5] = [
    (b"revoke 0", 3, "ix: script: line 1: last-core"),
    (b"move 5 0\n", 3, "ix: script: line 1: not-tagged"),
    (b"tag 5\n", 3, "ix: script: line 1: left-tagged"),
    (b"time 5\n# a note\ntime 4\n", 3, "ix: script: line 3: back"),
    (b"each 0 4\n", 3, "ix: script: line 1: no-record"),
];

#[test]
fn a_script_is_refused(rt: HostRuntime) -> Result<(), Fail> {
    let alloc = rt.alloc();
    let words = words(alloc, &PLAY)?;
    for (script, number, text) in &SCRIPTS {
        let mut memory = host(alloc, CONF, CAPTURE, script, ROOM, &[])?;
        let status = ix(&rt, alloc, &words, &mut memory, &Open);
        assert_eq!(rt; status.number(), *number, "{text}");
        assert_eq!(rt; status_text(alloc, &status)?.as_slice(), text.as_bytes());
        assert_eq!(rt; memory.written(Role::Replies).len(), 0, "{text}");
        assert_eq!(rt; memory.written(Role::Trace).len(), 0, "{text}");
    }
    Ok(())
}
