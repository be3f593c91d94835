// What no clause says: that memory is enough, and each public call once.
use crate::{Call, CallRet, Chunk, Event, Outcome, join, release};
use ix_base::{CoreId, GroupId, Handle, List, Ret};
use ix_mbuf::{Part, Pool};
use std::alloc::Global;
use std::test::Fail;

const HANDLE: Handle = Handle {
    group: GroupId(376),
    key: 2,
    generation: 5,
};

// The bytes from the third on, in a buffer of core 4.
fn part(alloc: Global) -> Result<Part, Fail> {
    let mut pool = Pool::new(alloc, CoreId(4), 1)?;
    let mut buf = pool.take().ok_or("a buffer")?;
    buf.fill(b"--hello");
    let len = buf.bytes().len();
    let to = if len == 7 {
        7
    } else {
        return Err("seven bytes".into())
    };
    Ok(Part::new(buf, 2, to))
}

// Whether a value can be moved into another thread.
fn sendable<T: Send>(value: T) -> T {
    value
}

#[test]
fn chunks_are_joined_and_let_go(rt: HostRuntime) -> Result<(), Fail> {
    let alloc = rt.alloc();
    let mut chunks = Vec::new(alloc);
    chunks.push(Chunk::Own(List::from_slice(alloc, b"well, ")?))?;
    chunks.push(Chunk::Part(part(alloc)?))?;
    let lens: Vec<usize> = chunks.iter().map(|c| c.len()).collect(alloc)?;
    assert_eq!(rt; lens.as_slice(), [6, 5].as_slice());
    let whole = join(alloc, chunks.as_slice())?;
    assert_eq!(rt; whole.as_slice(), b"well, hello".as_slice());
    let homes: Vec<bool> = chunks.iter().map(|c| c.is_of(CoreId(4))).collect(alloc)?;
    assert_eq!(rt; homes.as_slice(), [false, true].as_slice());
    assert!(rt; chunks.iter().all(|c| !c.is_of(CoreId(3))));
    assert!(rt; chunks.len() == 2);
    let mut freed = Vec::with_capacity(alloc, 2)?;
    release(List::from_vec(chunks), &mut freed);
    assert_eq!(rt; freed.len(), 1);
    assert_eq!(rt; freed[0].bytes(), b"--hello".as_slice());
    Ok(())
}

#[test]
fn a_call_names_its_connection_and_carries_its_chunks(rt: HostRuntime) -> Result<(), Fail> {
    let alloc = rt.alloc();
    let mut chunks = Vec::new(alloc);
    chunks.push(Chunk::Part(part(alloc)?))?;
    let chunks = List::from_vec(chunks);
    let call = Call::Sendv {
        handle: HANDLE,
        chunks,
    };
    let call = sendable(call);
    assert_eq!(rt; call.handle(), Some(HANDLE));
    assert_eq!(rt; call.chunks().len(), 1);
    assert!(rt; call.chunks()[0].id().is_some());
    let open = Call::Connect {
        cookie: 1,
        ip: 2,
        port: 3,
    };
    assert_eq!(rt; (open.handle(), open.chunks().len()), (None, 0));
    let closing = Call::Close { handle: HANDLE };
    assert_eq!(rt; closing.handle(), Some(HANDLE));
    let returned = CallRet {
        handle: HANDLE,
        ret: Ret::Done(5),
        back: List::new(alloc),
    };
    assert!(rt; returned.ret == Ret::Done(5) && returned.back.is_empty());
    Ok(())
}

#[test]
fn only_told_bytes_hold_a_buffer(rt: HostRuntime) -> Result<(), Fail> {
    let told = Event::Recv {
        cookie: 7,
        part: Some(part(rt.alloc())?),
    };
    let part = sendable(told).into_part().ok_or("a part")?;
    assert_eq!(rt; part.bytes(), b"hello".as_slice());
    let ended = Event::Recv {
        cookie: 7,
        part: None,
    };
    assert!(rt; ended.into_part().is_none());
    let up = Event::Connected {
        cookie: 7,
        outcome: Outcome::Up(HANDLE),
    };
    assert!(rt; up.into_part().is_none());
    Ok(())
}
