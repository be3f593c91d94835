// What no clause says: that memory is enough. Each application over every cutting of a stream into parts of one length.
ghost use Rattle.std.specs.Prelude.{◌<◌};

use crate::{Echo, Kv, Push};
use ix_app::{App, AppEvent, Out};
use ix_base::{Bytes, CoreId};
use ix_call::join;
use ix_mbuf::{Part, Pool};
use std::alloc::Global;
use std::test::Fail;

const TOLD: [u8; 43] = *b"set a 1\nget a\r\nget b\nfoo\ndel a\ndel a\nset a ";

const ANSWER: [u8; 28] = *b"ok\nvalue 1\nnone\nbad\nok\nnone\n";

// The bytes in a part of a buffer.
fn part_of(pool: &mut Pool, bytes: &[u8]) -> Result<Part, Fail> {
    let mut buf = pool.take().ok_or("a buffer")?;
    if bytes.len() > 64 {
        return Err("at most 64 bytes".into());
    }
    buf.fill(bytes);
    Ok(Part::new(buf, 0, bytes.len() as u16))
}

// What an application writes where it is told a stream in parts of this length.
fn answer_to<A: App>(alloc: Global, app: &A, told: &[u8], cut: usize) -> Result<Bytes, Fail>
    requires { 0 < cut }
{
    let mut pool = Pool::new(alloc, CoreId(0), 64)?;
    let mut conn = app.begin(alloc)?;
    let mut out = Out::new(alloc);
    app.event(alloc, &mut conn, AppEvent::Up, &mut out)?;
    for piece in told.chunks(cut) {
        let part = part_of(&mut pool, piece)?;
        app.event(alloc, &mut conn, AppEvent::Recv(part), &mut out)?;
    }
    app.event(alloc, &mut conn, AppEvent::PeerEnd, &mut out)?;
    let handed = out.into_handed();
    Ok(join(alloc, handed.chunks.as_slice())?)
}

#[test]
fn applications_answer_every_cutting(rt: HostRuntime) -> Result<(), Fail> {
    let alloc = rt.alloc();
    let push = Push::new(Bytes::from_slice(alloc, &ANSWER)?);
    for cut in 1..=TOLD.len() {
        let echo = answer_to(alloc, &Echo, &TOLD, cut)?;
        assert_eq!(rt; echo.as_slice(), TOLD.as_slice());
        let kv = answer_to(alloc, &Kv, &TOLD, cut)?;
        assert_eq!(rt; kv.as_slice(), ANSWER.as_slice());
        let pushed = answer_to(alloc, &push, &TOLD, cut)?;
        assert_eq!(rt; pushed.as_slice(), ANSWER.as_slice());
    }
    Ok(())
}
