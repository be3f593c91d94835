// The files of a play, checked.
use super::*;
use crate::Finding;

// The status of a check of these files.
fn checked<R: Threads + Wait + Sync>(
    rt: &R,
    alloc: Global,
    replies: &[u8],
    trace: &[u8],
) -> Result<Status, NoMemory> {
    let mut files = Vec::new(alloc);
    files.push((Role::Conf, Bytes::from_slice(alloc, CONF)?))?;
    files.push((Role::Capture, Bytes::from_slice(alloc, CAPTURE)?))?;
    files.push((Role::Script, Bytes::from_slice(alloc, SCRIPT)?))?;
    files.push((Role::GivenReplies, Bytes::from_slice(alloc, replies)?))?;
    files.push((Role::GivenTrace, Bytes::from_slice(alloc, trace)?))?;
    let mut memory = MemHost::new(alloc, files, 0, Vec::new(alloc))?;
    let words = words(alloc, &CHECK)?;
    Ok(ix(rt, alloc, &words, &mut memory, &Open))
}

const CHECK: [&str; 6] = ["check", "conf", "script", "capture", "replies", "trace"];

#[test]
fn what_was_played_is_accepted(rt: HostRuntime) -> Result<(), Fail> {
    let alloc = rt.alloc();
    let (_, memory) = played(&rt, alloc, b"", SCRIPT, &Open)?;
    let trace = memory.written(Role::Trace);
    assert_eq!(rt; checked(&rt, alloc, REPLIES, trace)?, Status::Done);

    let refused = checked(&rt, alloc, &REPLIES[1..], trace)?;
    assert_eq!(rt; refused, Status::Refused(Finding::Point { number: 4 }));
    assert_eq!(rt; refused.number(), 8);
    assert_eq!(rt;
        status_text(alloc, &refused)?.as_slice(),
        b"ix: refused: point 4".as_slice()
    );

    let refused = checked(&rt, alloc, REPLIES, b"head 2\n")?;
    assert_eq!(rt; refused, Status::Refused(Finding::Text { line: 1 }));
    assert_eq!(rt;
        status_text(alloc, &refused)?.as_slice(),
        b"ix: refused: text 1".as_slice()
    );
    Ok(())
}
