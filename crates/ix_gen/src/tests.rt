// What no clause says: that memory is enough.

use crate::{generate, summary};
use ix_trace::read_trace;
use std::test::Fail;

// A number, a count of clients, and the lengths of the three files: 2,207 and 1,021,108 bytes of data are drawn.
const FILES: [(u32, u16, [usize; 3]); 2] = [
    (0, 1, [114, 2725, 192]),
    (7, 512, [114, 1_274_060, 229]),
];

#[test]
fn files_are_made(rt: HostRuntime) -> Result<(), Fail> {
    let alloc = rt.alloc();
    for (number, conns, lens) in &FILES {
        let made = generate(alloc, *number, *conns)?;
        assert_eq!(rt;
            [made.conf.len(), made.capture.len(), made.script.len()],
            *lens
        );
    }
    Ok(())
}

// The trace of a play of no frame.
const EMPTY: &str = "head 2 cores 1 groups 512 batch 64 buffers 1024
settle open
ring 0 posted 512 frames 0 items 0
home 0 pool 512 posted 512 desk 0 held 0 app 0 queue 0
settle 0
ring 0 posted 512 frames 0 items 0
home 0 pool 512 posted 512 desk 0 held 0 app 0 queue 0
closed 0 pool 1024
end replies 0 drops 0
";

#[test]
fn a_line_is_written(rt: HostRuntime) -> Result<(), Fail> {
    let alloc = rt.alloc();
    let report = read_trace(alloc, EMPTY.as_bytes())?;
    let line = summary(alloc, 7, 2, &report)?;
    let want = "gen 7 conns 2 frames 0 accepted 0 delivered 0 answered 0\n";
    assert_eq!(rt; line.as_slice(), want.as_bytes());
    Ok(())
}
