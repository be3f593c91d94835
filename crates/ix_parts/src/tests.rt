// What no clause says: that memory is enough, and each public call once.
use crate::{Numbered, SendQueue, count_at, divide, release_all, tell_all};
use ix_base::{CoreId, List, WireNo};
use ix_call::{Chunk, Event};
use ix_mbuf::{Mbuf, Part, Pool};
use std::alloc::Global;
use std::test::Fail;

const HOME: CoreId = CoreId(4);

// These bytes, behind two others in a buffer of core 4.
fn part(alloc: Global, text: &[u8; 5]) -> Result<Part, Fail> {
    let mut pool = Pool::new(alloc, HOME, 1)?;
    let mut buf = pool.take().ok_or("a buffer")?;
    buf.fill(&[b'-', b'-', text[0], text[1], text[2], text[3], text[4]]);
    let len = buf.bytes().len();
    if len != 7 {
        return Err("seven bytes".into());
    }
    Ok(Part::new(buf, 2, 7))
}

fn own(alloc: Global, text: &[u8]) -> Result<Chunk, Fail> {
    Ok(Chunk::Own(List::from_slice(alloc, text)?))
}

// "ab", "hello", "", "world" as bytes of its own and a part, and again so.
fn chunks(alloc: Global) -> Result<List<Chunk>, Fail> {
    let mut chunks = Vec::new(alloc);
    chunks.push(own(alloc, b"ab")?)?;
    chunks.push(Chunk::Part(part(alloc, b"hello")?))?;
    chunks.push(own(alloc, b"")?)?;
    chunks.push(Chunk::Part(part(alloc, b"world")?))?;
    Ok(List::from_vec(chunks))
}

#[test]
fn a_part_that_is_cut_keeps_its_buffer(rt: HostRuntime) -> Result<(), Fail> {
    let alloc = rt.alloc();
    let Ok(divided) = divide(alloc, chunks(alloc)?, 4) else {
        return Err("memory".into());
    };
    let front = ix_call::join(alloc, divided.front.as_slice())?;
    let rest = ix_call::join(alloc, divided.rest.as_slice())?;
    assert_eq!(rt; front.as_slice(), b"abhe".as_slice());
    assert_eq!(rt; rest.as_slice(), b"lloworld".as_slice());
    assert!(rt; divided.front.as_slice().iter().all(|c| c.id().is_none()));
    let parts = divided
        .rest
        .as_slice()
        .iter()
        .filter(|c| c.is_of(HOME))
        .count();
    assert_eq!(rt; parts, 2);
    Ok(())
}

#[test]
fn acknowledged_parts_go_home(rt: HostRuntime) -> Result<(), Fail> {
    let alloc = rt.alloc();
    let more = chunks(alloc)?;
    let mut freed: Vec<Mbuf> = Vec::with_capacity(alloc, 8)?;
    let mut queue = SendQueue::new(alloc);
    assert!(rt; more.len() <= 8);
    queue.reserve(more.len())?;
    queue.append(more, &mut freed);
    assert_eq!(rt; (queue.len(), freed.len(), queue.count_at(HOME)), (3, 0, 2));
    let middle = queue.copy(alloc, 1, 9)?;
    assert_eq!(rt; middle.as_slice(), b"bhellowo".as_slice());
    assert!(rt; freed.len() + queue.len() <= 8);
    queue.acknowledge(3, &mut freed);
    assert_eq!(rt; (queue.len(), freed.len(), queue.count_at(HOME)), (2, 0, 2));
    let all = queue.copy(alloc, 0, 100)?;
    assert_eq!(rt; all.as_slice(), b"elloworld".as_slice());
    assert!(rt; freed.len() + queue.len() <= 8);
    queue.acknowledge(4, &mut freed);
    assert_eq!(rt; (queue.len(), freed.len(), queue.count_at(HOME)), (1, 1, 1));
    assert!(rt; freed.len() + queue.len() <= 8);
    queue.release(&mut freed);
    assert_eq!(rt; (queue.len(), freed.len(), queue.count_at(HOME)), (0, 2, 0));
    Ok(())
}

#[test]
fn parts_are_told_as_they_are(rt: HostRuntime) -> Result<(), Fail> {
    let alloc = rt.alloc();
    let mut parts = Vec::new(alloc);
    parts.push(Numbered {
        w: WireNo(7),
        part: part(alloc, b"hello")?,
    })?;
    assert_eq!(rt;
        (
            count_at(parts.as_slice(), HOME),
            count_at(parts.as_slice(), CoreId(3))
        ),
        (1, 0)
    );
    let mut events = Vec::with_capacity(alloc, 1)?;
    tell_all(parts, 9, &mut events);
    let told = events
        .pop()
        .and_then(|e: Event| e.into_part())
        .ok_or("a part")?;
    assert_eq!(rt; told.bytes(), b"hello".as_slice());
    let mut others = Vec::new(alloc);
    others.push(Numbered {
        w: WireNo(8),
        part: told,
    })?;
    let mut freed = Vec::with_capacity(alloc, 1)?;
    release_all(&mut others, &mut freed);
    assert_eq!(rt; (others.len(), freed.len()), (0, 1));
    Ok(())
}
