// What no clause says: outside captures, each fault, and that memory is enough.
ghost use Rattle.std.specs.Prelude.{◌<◌};

use crate::{Capture, CaptureFault, Sent, read_capture, write_capture};
use ix_base::{Bytes, NoMemory};
use std::alloc::Global;
use std::test::Fail;

// A handshake, a segment of five bytes and its acknowledgement, low bytes first.
const ECHO: [&str; 9] = [
    "d4c3b2a1020004000000000000000000ffff000001000000",
    "00000000000000003a0000003a000000",
    "02000000000102000000000208004500002c0000400040065d29420995bba18e64500aea06e600001000000000006002faf09dc20000020405b4",
    "01000000070000003600000036000000",
    "0200000000010200000000020800450000280000400040065d2d420995bba18e64500aea06e60000100151ccc1795010faf0a2290000",
    "020000000e0000003b0000003b000000",
    "02000000000102000000000208004500002d0000400040065d28420995bba18e64500aea06e60000100151ccc1795018faf05e4a000068656c6c6f",
    "03000000150000003600000036000000",
    "0200000000010200000000020800450000280000400040065d2d420995bba18e64500aea06e60000100651ccc17e5010faf0a21f0000",
];

// The same four frames, high bytes first.
const ECHO_BIG: [&str; 9] = [
    "a1b2c3d40002000400000000000000000000ffff00000001",
    "00000000000000000000003a0000003a",
    "02000000000102000000000208004500002c0000400040065d29420995bba18e64500aea06e600001000000000006002faf09dc20000020405b4",
    "00000001000000070000003600000036",
    "0200000000010200000000020800450000280000400040065d2d420995bba18e64500aea06e60000100151ccc1795010faf0a2290000",
    "000000020000000e0000003b0000003b",
    "02000000000102000000000208004500002d0000400040065d28420995bba18e64500aea06e60000100151ccc1795018faf05e4a000068656c6c6f",
    "00000003000000150000003600000036",
    "0200000000010200000000020800450000280000400040065d2d420995bba18e64500aea06e60000100651ccc17e5010faf0a21f0000",
];

// Two frames at tick 0, as they are to be written.
const REPLIES: [&str; 5] = [
    "d4c3b2a1020004000000000000000000ffff000001000000",
    "00000000000000003a0000003a000000",
    "02000000000202000000000108004500002c0000400040065d29a18e6450420995bb06e60aea51ccc1780000100160128000055d0000020405b4",
    "00000000000000003b0000003b000000",
    "02000000000202000000000108004500002d0000400040065d28a18e6450420995bb06e60aea51ccc1790000100650188000d935000068656c6c6f",
];

fn digit(letter: u8) -> u8
    ensures { result < 16 }
{
    match letter {
        b'0'..=b'9' => letter - b'0',
        b'a'..=b'f' => letter - b'a' + 10,
        _ => 0,
    }
}

fn append_hex(bytes: &mut Bytes, text: &str) -> Result<(), NoMemory> {
    let digits = text.as_bytes();
    for i in 0..digits.len() / 2 {
        bytes.push(16 * digit(digits[2 * i]) + digit(digits[2 * i + 1]))?;
    }
    Ok(())
}

fn from_hex(alloc: Global, pieces: &[&str]) -> Result<Bytes, NoMemory> {
    let mut bytes = Bytes::new(alloc);
    for piece in pieces {
        append_hex(&mut bytes, piece)?;
    }
    Ok(bytes)
}

// The number of records.
fn count(capture: Result<Capture, CaptureFault>) -> Result<usize, CaptureFault> {
    match capture {
        Ok(capture) => Ok(capture.spans().len()),
        Err(fault) => Err(fault),
    }
}

#[test]
fn every_prefix(rt: HostRuntime) -> Result<(), Fail> {
    let bytes = from_hex(rt.alloc(), &ECHO)?;
    let bytes = bytes.as_slice();
    assert_eq!(rt; bytes.len(), 313);
    for len in 0..314 {
        let want = match len {
            0..=23 => Err(CaptureFault::CutHeader { at: len }),
            24 => Ok(0),
            25..=97 => Err(CaptureFault::CutRecord { at: 24 }),
            98 => Ok(1),
            99..=167 => Err(CaptureFault::CutRecord { at: 98 }),
            168 => Ok(2),
            169..=242 => Err(CaptureFault::CutRecord { at: 168 }),
            243 => Ok(3),
            244..=312 => Err(CaptureFault::CutRecord { at: 243 }),
            _ => Ok(4),
        };
        assert_eq!(rt;
            count(read_capture(rt.alloc(), &bytes[..len])),
            want,
            "at {len} bytes"
        );
    }
    Ok(())
}

#[test]
fn both_orders_and_magics(rt: HostRuntime) -> Result<(), Fail> {
    let little = from_hex(rt.alloc(), &ECHO)?;
    let big = from_hex(rt.alloc(), &ECHO_BIG)?;
    let files = [
        (&little, [0xd4, 0xc3, 0xb2, 0xa1]),
        (&little, [0x4d, 0x3c, 0xb2, 0xa1]),
        (&big, [0xa1, 0xb2, 0xc3, 0xd4]),
        (&big, [0xa1, 0xb2, 0x3c, 0x4d]),
    ];
    for (file, magic) in files {
        let mut bytes = Bytes::from_slice(rt.alloc(), &magic)?;
        let file = file.as_slice();
        assert!(rt; file.len() == 313);
        bytes.extend_from_slice(&file[4..])?;
        let bytes = bytes.as_slice();
        let capture = read_capture(rt.alloc(), bytes)?;
        assert_eq!(rt; capture.spans().len(), 4);
        for (span, want) in capture
            .spans()
            .iter()
            .zip([ECHO[2], ECHO[4], ECHO[6], ECHO[8]])
        {
            let want = from_hex(rt.alloc(), &[want])?;
            assert_eq!(rt; &bytes[span.from..span.to], want.as_slice());
        }
    }
    Ok(())
}

#[test]
fn each_fault(rt: HostRuntime) -> Result<(), Fail> {
    let big_header = "a1b2c3d40002000400000000000000000000ffff00000001";
    let faults = [
        ("", CaptureFault::CutHeader { at: 0 }),
        ("0a0d0d", CaptureFault::CutHeader { at: 3 }),
        ("0a0d0d0a", CaptureFault::Pcapng),
        ("0a0d0d0a1c000000", CaptureFault::Pcapng),
        ("0d0a0a0d", CaptureFault::BadMagic),
        ("d4c3b2a0", CaptureFault::BadMagic),
        ("a1b2cd34", CaptureFault::BadMagic),
        ("d4c3b2a1", CaptureFault::CutHeader { at: 4 }),
        (
            "a1b23c4d00020004000000000000000000000000000000",
            CaptureFault::CutHeader { at: 23 },
        ),
        (
            "d4c3b2a1020003000000000000000000ffff000001000000",
            CaptureFault::BadVersion,
        ),
        (
            "d4c3b2a1030004000000000000000000ffff000001000000",
            CaptureFault::BadVersion,
        ),
        (
            "d4c3b2a1000200040000000000000000ffff000001000000",
            CaptureFault::BadVersion,
        ),
        (
            "d4c3b2a1020005000000000000000000ffff000002000000",
            CaptureFault::BadVersion,
        ),
        (
            "d4c3b2a1020004000000000000000000ffff000071000000",
            CaptureFault::BadLink,
        ),
        (
            "d4c3b2a1020004000000000000000000ffff000001000004",
            CaptureFault::BadLink,
        ),
        (
            "d4c3b2a1020004000000000000000000ffff00000000000100",
            CaptureFault::BadLink,
        ),
        (
            "d4c3b2a1020004000000000000000000ffff00000100000000",
            CaptureFault::CutRecord { at: 24 },
        ),
    ];
    for (text, want) in faults {
        let bytes = from_hex(rt.alloc(), &[text])?;
        assert_eq!(rt;
            count(read_capture(rt.alloc(), bytes.as_slice())),
            Err(want),
            "{text}"
        );
    }
    // The captured length counts, not the length on the wire; ffffffff bytes are never there.
    let records = [
        ("00000000000000000000000000000000", Ok(1)),
        ("00000000000000000000000000000003", Ok(1)),
        ("000000000000000000000002000000000102", Ok(1)),
        (
            "00000000000000000000000200000000010203",
            Err(CaptureFault::CutRecord { at: 42 }),
        ),
        (
            "0000000000000000ffffffff000000000102",
            Err(CaptureFault::CutRecord { at: 24 }),
        ),
    ];
    for (record, want) in records {
        let bytes = from_hex(rt.alloc(), &[big_header, record])?;
        assert_eq!(rt;
            count(read_capture(rt.alloc(), bytes.as_slice())),
            want,
            "{record}"
        );
    }
    Ok(())
}

// So many records of no bytes.
fn empty_records(alloc: Global, records: usize) -> Result<Bytes, NoMemory> {
    let mut bytes = from_hex(alloc, &[ECHO[0]])?;
    for _ in 0..records {
        bytes.extend_from_slice(&[0; 16])?;
    }
    Ok(bytes)
}

#[test]
fn most_records(rt: HostRuntime) -> Result<(), Fail> {
    let mut bytes = empty_records(rt.alloc(), 262_144)?;
    assert_eq!(rt;
        count(read_capture(rt.alloc(), bytes.as_slice())),
        Ok(262_144)
    );
    bytes.push(0)?;
    assert_eq!(rt;
        count(read_capture(rt.alloc(), bytes.as_slice())),
        Err(CaptureFault::TooManyRecords)
    );
    Ok(())
}

fn sent_at(alloc: Global, at: u64, frame: &str) -> Result<Sent, NoMemory> {
    Ok(Sent {
        at,
        frame: from_hex(alloc, &[frame])?,
    })
}

fn written(alloc: Global, sent: &[Sent]) -> Result<Bytes, NoMemory> {
    if sent.iter().all(|one| one.at < 0x1_0000_0000 && one.frame.len() < 0x1_0000_0000) {
        write_capture(alloc, sent)
    } else {
        Err(NoMemory)
    }
}

#[test]
fn writes_the_format(rt: HostRuntime) -> Result<(), Fail> {
    let alloc = rt.alloc();
    let none = from_hex(alloc, &[REPLIES[0]])?;
    assert_eq!(rt; written(alloc, &[])?.as_slice(), none.as_slice());
    let replies = [
        sent_at(alloc, 0, REPLIES[2])?,
        sent_at(alloc, 0, REPLIES[4])?,
    ];
    let want = from_hex(alloc, &REPLIES)?;
    assert_eq!(rt; written(alloc, &replies)?.as_slice(), want.as_slice());
    let late = [
        sent_at(alloc, 3007, "abcdef")?,
        sent_at(alloc, 4_294_967_295, "")?,
    ];
    let want = from_hex(
        alloc,
        &[
            REPLIES[0],
            "03000000581b00000300000003000000abcdef",
            "37894100588004000000000000000000",
        ],
    )?;
    assert_eq!(rt; written(alloc, &late)?.as_slice(), want.as_slice());
    Ok(())
}

// The next of a fixed run of pseudo-random numbers.
fn next(x: u32) -> u32 {
    x.wrapping_mul(1_664_525).wrapping_add(1_013_904_223)
}

#[test]
fn changed_bytes(rt: HostRuntime) -> Result<(), Fail> {
    let file = from_hex(rt.alloc(), &ECHO)?;
    let mut x = 1;
    for _ in 0..500 {
        x = next(x);
        let place = (x >> 16) as usize % 313;
        x = next(x);
        let mut bytes = Bytes::from_slice(rt.alloc(), file.as_slice())?;
        assert!(rt; place < bytes.len());
        bytes.set(place, (x >> 24) as u8);
        let bytes = bytes.as_slice();
        if let Ok(capture) = read_capture(rt.alloc(), bytes) {
            let mut end = 24;
            for span in capture.spans() {
                assert!(rt; end < span.from);
                assert!(rt; bytes[span.from..span.to].len() <= 289);
                end = span.to;
            }
            assert_eq!(rt; end, 313);
        }
    }
    Ok(())
}
