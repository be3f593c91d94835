// A host that takes few bytes at a time.
ghost use Rattle.std.specs.Prelude.{◌≡◌, ◌<◌, ◌≤◌, length, IsTrue, IfOk, OnOk, OnErr};
ghost use Rattle.std.specs.Io.KnownBytes.{IsAtEnd};
ghost use Rattle.ix_base.specs.declared.role.Kind.TheVariants.{Reading, Writing};
ghost use Rattle.ix_base.specs.Role.{kind_of, IsRead, IsWritten};
ghost use Rattle.ix_base.specs.Host.{Rose, Attaches, Reads, Writes, front};

use super::*;
use crate::outputs::{Output, deliver};
use ix_base::{Failed, Host};

// A host in memory that takes at most seven bytes in one call.
#[derive(Drop)]
struct ShortHost {
    memory: MemHost,
}

impl Host for ShortHost {
    ghost use Rattle.ix_base.specs.Mem.{mem_state};

    ghost state = { λ h. mem_state h.memory };

    fn attach(&mut self, role: Role, name: &str) -> Result<(), Failed> {
        self.memory.attach(role, name)
    }

    fn read(&mut self, role: Role, buf: &mut [u8]) -> Result<usize, Failed> {
        self.memory.read(role, buf)
    }

    fn write(&mut self, role: Role, bytes: &[u8]) -> Result<usize, Failed> {
        self.memory.write(role, &bytes[..bytes.len().min(7)])
    }
}

// A play's files for this test.
const WHOLE: (&[u8], &[u8]) = (b"one and twenty bytes.", b"thirty bytes of a trace, or so");

// How many bytes of the two files are written where the call with this number fails. Each file is prepared by one call; the replies are written
// by three, the trace by five. There is no call 10.
const FRONTS: [(usize, usize); 11] = [
    (0, 0),
    (0, 0),
    (7, 0),
    (14, 0),
    (21, 0),
    (21, 0),
    (21, 7),
    (21, 14),
    (21, 21),
    (21, 28),
    (21, 30),
];

#[test]
fn short_writes_leave_fronts(rt: HostRuntime) -> Result<(), Fail> {
    let alloc = rt.alloc();
    for (number, (replies, trace)) in FRONTS.iter().enumerate() {
        let memory = host(alloc, b"", b"", b"", ROOM, &[number as u64])?;
        let mut short = ShortHost { memory };
        let output = Output {
            replies: Bytes::from_slice(alloc, WHOLE.0)?,
            trace: Bytes::from_slice(alloc, WHOLE.1)?,
        };
        let delivered = deliver(&mut short, "replies", "trace", &output);
        assert!(rt; delivered.is_ok() == (number == 10), "at {number}");
        let written = short.memory.written(Role::Replies);
        assert!(rt; WHOLE.0.starts_with(written), "at {number}");
        assert!(rt; written.len() == *replies, "at {number}");
        let written = short.memory.written(Role::Trace);
        assert!(rt; WHOLE.1.starts_with(written), "at {number}");
        assert!(rt; written.len() == *trace, "at {number}");
    }
    Ok(())
}

#[test]
fn short_writes_make_whole_files(rt: HostRuntime) -> Result<(), Fail> {
    let alloc = rt.alloc();
    let memory = host(alloc, CONF, CAPTURE, SCRIPT, ROOM, &[])?;
    let mut short = ShortHost { memory };
    let status = ix(&rt, alloc, &words(alloc, &PLAY)?, &mut short, &Open);
    assert_eq!(rt; status, Status::Done);
    assert_eq!(rt; short.memory.written(Role::Replies), REPLIES);
    assert!(rt; short.memory.written(Role::Trace).ends_with(TRACE_END));
    Ok(())
}
