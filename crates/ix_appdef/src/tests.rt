// Lines of the key-value protocol at their limits, and one answer of each application.

use crate::{Application, Request, kv_answer, request_of};
use ix_base::{Bytes, NoMemory};
use std::alloc::Global;
use std::test::Fail;

const TOLD: [u8; 43] = *b"set a 1\nget a\r\nget b\nfoo\ndel a\ndel a\nset a ";

const ANSWER: [u8; 28] = *b"ok\nvalue 1\nnone\nbad\nok\nnone\n";

#[test]
fn answers(rt: HostRuntime) -> Result<(), Fail> {
    let alloc = rt.alloc();
    let kv = Application::Kv.answer(alloc, false, &TOLD)?;
    assert_eq!(rt; kv.as_slice(), ANSWER.as_slice());
    let echo = Application::Echo.answer(alloc, false, &ANSWER)?;
    assert_eq!(rt; echo.as_slice(), ANSWER.as_slice());
    let text = Bytes::from_slice(alloc, &ANSWER)?;
    let push = Application::Push { text };
    let before = push.answer(alloc, false, &TOLD)?;
    assert_eq!(rt; before.len(), 0);
    let after = push.answer(alloc, true, &TOLD)?;
    assert_eq!(rt; after.as_slice(), ANSWER.as_slice());
    Ok(())
}

fn with_key(alloc: Global, len: usize) -> Result<Bytes, NoMemory> {
    let mut line = Bytes::from_slice(alloc, b"get ")?;
    for _ in 0..len {
        line.push(b'~')?;
    }
    Ok(line)
}

fn with_value(alloc: Global, len: usize) -> Result<Bytes, NoMemory> {
    let mut line = Bytes::from_slice(alloc, b"set k ")?;
    for _ in 0..len {
        line.push(b'!')?;
    }
    Ok(line)
}

fn is_bad(alloc: Global, line: &[u8]) -> Result<bool, NoMemory> {
    let request = request_of(alloc, line)?;
    Ok(matches!(request, Request::Bad))
}

#[test]
fn limits(rt: HostRuntime) -> Result<(), Fail> {
    let alloc = rt.alloc();
    assert!(rt; is_bad(alloc, with_key(alloc, 0)?.as_slice())?);
    assert!(rt; !is_bad(alloc, with_key(alloc, 64)?.as_slice())?);
    assert!(rt; is_bad(alloc, with_key(alloc, 65)?.as_slice())?);
    assert!(rt; !is_bad(alloc, with_value(alloc, 512)?.as_slice())?);
    assert!(rt; is_bad(alloc, with_value(alloc, 513)?.as_slice())?);
    assert!(rt; is_bad(alloc, with_value(alloc, 1025)?.as_slice())?);
    Ok(())
}

// Keys of two visible characters, one after another.
fn with_keys(alloc: Global, count: u8) -> Result<Bytes, NoMemory> {
    let mut told = Bytes::new(alloc);
    for high in 0..count {
        for low in 0..16 {
            told.extend_from_slice(b"set ")?;
            told.extend_from_slice(&[b'A' + high % 32, b'A' + low])?;
            told.extend_from_slice(b" 1\n")?;
        }
    }
    Ok(told)
}

#[test]
fn full(rt: HostRuntime) -> Result<(), Fail> {
    let alloc = rt.alloc();
    let mut told = with_keys(alloc, 16)?;
    told.extend_from_slice(b"set z 1\nset AA 2\ndel AA\nset z 1\n")?;
    let answer = kv_answer(alloc, told.as_slice())?;
    let last = b"ok\nfull\nok\nok\nok\n";
    assert_eq!(rt; answer.len(), 255 * 3 + last.len());
    assert!(rt; answer.as_slice().ends_with(last));
    Ok(())
}
