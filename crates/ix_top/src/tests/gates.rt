// Plays whose gates hold threads back.
use super::*;
use std::sync::atomic::{AtomicBool, Ordering};

// The record of an ARP request.
const REQUEST: &[u8] = &[
    0x00, 0x00, 0x00, 0x00, 0x00, 0x00, 0x00, 0x00, 0x2a, 0x00, 0x00, 0x00, 0x2a, 0x00, 0x00, 0x00,
    0xff, 0xff, 0xff, 0xff, 0xff, 0xff, 0x02, 0x00, 0x00, 0x00, 0x00, 0x02, 0x08, 0x06, 0x00, 0x01,
    0x08, 0x00, 0x06, 0x04, 0x00, 0x01, 0x02, 0x00, 0x00, 0x00, 0x00, 0x02, 0x42, 0x09, 0x95, 0xbb,
    0x00, 0x00, 0x00, 0x00, 0x00, 0x00, 0xa1, 0x8e, 0x64, 0x50,
];

// The record of the answer to the segment.
const ECHO: &[u8] = &[
    0x00, 0x00, 0x00, 0x00, 0x00, 0x00, 0x00, 0x00, 0x3b, 0x00, 0x00, 0x00, 0x3b, 0x00, 0x00, 0x00,
    0x02, 0x00, 0x00, 0x00, 0x00, 0x02, 0x02, 0x00, 0x00, 0x00, 0x00, 0x01, 0x08, 0x00, 0x45, 0x00,
    0x00, 0x2d, 0x00, 0x00, 0x40, 0x00, 0x40, 0x06, 0x5d, 0x28, 0xa1, 0x8e, 0x64, 0x50, 0x42, 0x09,
    0x95, 0xbb, 0x06, 0xe6, 0x0a, 0xea, 0x51, 0xcc, 0xc1, 0x79, 0x00, 0x00, 0x10, 0x06, 0x50, 0x18,
    0x80, 0x00, 0xd9, 0x35, 0x00, 0x00, 0x68, 0x65, 0x6c, 0x6c, 0x6f,
];

// A gate that lets the card alone make its turns in a thread.
#[derive(Drop)]
struct CardAlone;

impl Gate for CardAlone {
    fn enter(&self, actor: u32, _turn: u64) -> bool {
        actor == 0
    }
}

// A gate that holds the first turn of each of two cores until that of the other was asked for, for a bounded number of looks.
#[derive(Drop)]
struct Meeting {
    first: AtomicBool,
    second: AtomicBool,
    missed: AtomicBool,
}

impl Gate for Meeting {
    fn enter(&self, actor: u32, turn: u64) -> bool {
        if actor == 0 || turn > 0 {
            return true;
        }
        let (own, other) = if actor == 1 {
            (&self.first, &self.second)
        } else {
            (&self.second, &self.first)
        };
        own.store(true, Ordering::SeqCst);
        for _ in 0..200_000_000u32 {
            if other.load(Ordering::SeqCst) {
                return true;
            }
        }
        self.missed.store(true, Ordering::SeqCst);
        false
    }
}

const TWO_CORES: &[u8] = b"[core]\ncores = 2\n";

#[test]
fn two_cores_meet_in_their_threads(rt: HostRuntime) -> Result<(), Fail> {
    let gate = Meeting {
        first: AtomicBool::new(false),
        second: AtomicBool::new(false),
        missed: AtomicBool::new(false),
    };
    let script = b"frames 0 0\nframes 3 3\n";
    let (status, memory) = played(&rt, rt.alloc(), TWO_CORES, script, &gate)?;
    assert_eq!(rt; status, Status::Done);
    assert!(rt; gate.first.load(Ordering::SeqCst));
    assert!(rt; gate.second.load(Ordering::SeqCst));
    assert!(rt; !gate.missed.load(Ordering::SeqCst));
    let trace = str::from_utf8(memory.written(Role::Trace))?;
    assert!(rt; trace.contains("\nseg 0 core 0\n"));
    assert!(rt; trace.contains("\nseg 1 core 1\n"));
    assert!(rt; trace.ends_with("\nend replies 2 drops 0\n"));
    Ok(())
}

#[test]
fn replies_are_the_same_on_two_cores(rt: HostRuntime) -> Result<(), Fail> {
    let alloc = rt.alloc();
    let (status, memory) = played(&rt, alloc, TWO_CORES, SCRIPT, &Open)?;
    assert_eq!(rt; status, Status::Done);
    assert_eq!(rt; memory.written(Role::Replies), REPLIES);
    let (status, memory) = played(&rt, alloc, TWO_CORES, SCRIPT, &CardAlone)?;
    assert_eq!(rt; status, Status::Done);
    assert_eq!(rt; memory.written(Role::Replies), REPLIES);
    Ok(())
}

// A handshake and a segment that the core takes when all are on its ring: the line of the greatest batch, and the journal up to the part's
// buffer.
const CYCLES: [(&[u8], &str); 4] = [
    (
        b"[core]\nbatch = 1\n",
        "\nseg 0 core 0\nreply 0\nflush 0\nseg 1 core 0\nevent knock\ncall accept\nret done 0\nflush 1\nseg 2 core 0\nevent recv ",
    ),
    (
        b"[core]\nbatch = 2\n",
        "\nseg 0 core 0\nreply 0\nseg 1 core 0\nevent knock\ncall accept\nret done 0\nflush 1\nseg 2 core 0\nevent recv ",
    ),
    (
        b"",
        "\nseg 0 core 0\nreply 0\nseg 1 core 0\nevent knock\nseg 2 core 0\ncall accept\nret done 0\nevent recv ",
    ),
    (
        b"[core]\nbatch = 256\n",
        "\nseg 0 core 0\nreply 0\nseg 1 core 0\nevent knock\nseg 2 core 0\ncall accept\nret done 0\nevent recv ",
    ),
];

// The trace of these plays behind the part's buffer.
const CYCLES_END: &str = " 54 5
call recv_done 5
ret done 5
call sendv 5
ret done 5
flush 2
reply 1
left ESTABLISHED una 1 nxt 6 rcv 6 cwnd 4380 ssthresh 65535
answer wrote 5 taken 5
closed 0 pool 1024
end replies 2 drops 0
";

#[test]
fn a_cycle_takes_as_many_frames_as_a_batch_may_have(rt: HostRuntime) -> Result<(), Fail> {
    for (lines, journal) in &CYCLES {
        let (status, memory) = played(&rt, rt.alloc(), lines, b"frames 0 2\n", &CardAlone)?;
        assert!(rt; status == Status::Done, "{journal}");
        let replies = memory.written(Role::Replies);
        assert!(rt; replies.starts_with(REPLIES), "{journal}");
        assert!(rt; replies.ends_with(ECHO), "{journal}");
        assert!(rt; replies.len() == REPLIES.len() + ECHO.len(), "{journal}");
        let trace = str::from_utf8(memory.written(Role::Trace))?;
        assert!(rt; trace.contains(journal), "{journal}");
        assert!(rt; trace.ends_with(CYCLES_END), "{journal}");
    }
    Ok(())
}

// A ring has room for 512 frames: of 513 that come before the core takes one, the last is dropped.
#[test]
fn a_ring_that_is_full_drops(rt: HostRuntime) -> Result<(), Fail> {
    let alloc = rt.alloc();
    let mut conf = CONF.to_vec(alloc)?;
    conf.extend_from_slice(b"[core]\npace = 0\n")?;
    let mut capture = REPLIES[..24].to_vec(alloc)?;
    for _ in 0..513 {
        capture.extend_from_slice(REQUEST)?;
    }
    let mut memory = host(alloc, &conf, &capture, b"frames 0 512\n", ROOM, &[])?;
    let words = words(alloc, &PLAY)?;
    let status = ix(&rt, alloc, &words, &mut memory, &CardAlone);
    assert_eq!(rt; status, Status::Done);
    let trace = str::from_utf8(memory.written(Role::Trace))?;
    assert!(rt; trace.contains("\nframe 512 rec 512 at 0 group 0 ring 0 drop "));
    assert!(rt; trace.ends_with("\nclosed 0 pool 1024\nend replies 512 drops 1\n"));
    Ok(())
}
