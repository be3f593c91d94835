// Worked frames: one connection's first frames in both directions.

use crate::options::mss_of;
use crate::{offset, read_frame, write_frame};
use ix_base::{Disposition, Flow, Local, SegHead};
use std::test::Fail;

const SERVER: Local = Local {
    mac: [2, 0, 0, 0, 0, 1],
    ip: 0xa18e_6450,
    port: 1766,
};

const CLIENT: Local = Local {
    mac: [2, 0, 0, 0, 0, 2],
    ip: 0x4209_95bb,
    port: 2794,
};

#[derive(Clone, Copy)]
struct Worked {
    sender: Local,
    receiver: Local,
    seq: u32,
    ack: u32,
    flags: u8,
    window: u16,
    mss: Option<u16>,
    body: &'static [u8],
    frame: &'static [u8],
}

const CLIENT_SYN: Worked = Worked {
    sender: CLIENT,
    receiver: SERVER,
    seq: 0x1000,
    ack: 0,
    flags: 0x02,
    window: 64240,
    mss: Some(1460),
    body: &[],
    frame: &[
        2, 0, 0, 0, 0, 1, 2, 0, 0, 0, 0, 2, 8, 0, 0x45, 0, 0, 0x2c, 0, 0, 0x40, 0, 0x40, 0x06,
        0x5d, 0x29, 0x42, 0x09, 0x95, 0xbb, 0xa1, 0x8e, 0x64, 0x50, 0x0a, 0xea, 0x06, 0xe6, 0, 0,
        0x10, 0, 0, 0, 0, 0, 0x60, 0x02, 0xfa, 0xf0, 0x9d, 0xc2, 0, 0, 2, 4, 5, 0xb4,
    ],
};

const SERVER_SYN_ACK: Worked = Worked {
    sender: SERVER,
    receiver: CLIENT,
    seq: 0x51cc_c178,
    ack: 0x1001,
    flags: 0x12,
    window: 32768,
    mss: Some(1460),
    body: &[],
    frame: &[
        2, 0, 0, 0, 0, 2, 2, 0, 0, 0, 0, 1, 8, 0, 0x45, 0, 0, 0x2c, 0, 0, 0x40, 0, 0x40, 0x06,
        0x5d, 0x29, 0xa1, 0x8e, 0x64, 0x50, 0x42, 0x09, 0x95, 0xbb, 0x06, 0xe6, 0x0a, 0xea, 0x51,
        0xcc, 0xc1, 0x78, 0, 0, 0x10, 0x01, 0x60, 0x12, 0x80, 0, 0x05, 0x5d, 0, 0, 2, 4, 5, 0xb4,
    ],
};

const CLIENT_ACK: Worked = Worked {
    sender: CLIENT,
    receiver: SERVER,
    seq: 0x1001,
    ack: 0x51cc_c179,
    flags: 0x10,
    window: 64240,
    mss: None,
    body: &[],
    frame: &[
        2, 0, 0, 0, 0, 1, 2, 0, 0, 0, 0, 2, 8, 0, 0x45, 0, 0, 0x28, 0, 0, 0x40, 0, 0x40, 0x06,
        0x5d, 0x2d, 0x42, 0x09, 0x95, 0xbb, 0xa1, 0x8e, 0x64, 0x50, 0x0a, 0xea, 0x06, 0xe6, 0, 0,
        0x10, 0x01, 0x51, 0xcc, 0xc1, 0x79, 0x50, 0x10, 0xfa, 0xf0, 0xa2, 0x29, 0, 0,
    ],
};

const CLIENT_HELLO: Worked = Worked {
    sender: CLIENT,
    receiver: SERVER,
    seq: 0x1001,
    ack: 0x51cc_c179,
    flags: 0x18,
    window: 64240,
    mss: None,
    body: b"hello",
    frame: &HELLO,
};

const HELLO: [u8; 59] = [
    2, 0, 0, 0, 0, 1, 2, 0, 0, 0, 0, 2, 8, 0, 0x45, 0, 0, 0x2d, 0, 0, 0x40, 0, 0x40, 0x06, 0x5d,
    0x28, 0x42, 0x09, 0x95, 0xbb, 0xa1, 0x8e, 0x64, 0x50, 0x0a, 0xea, 0x06, 0xe6, 0, 0, 0x10, 0x01,
    0x51, 0xcc, 0xc1, 0x79, 0x50, 0x18, 0xfa, 0xf0, 0x5e, 0x4a, 0, 0, 0x68, 0x65, 0x6c, 0x6c, 0x6f,
];

const SERVER_HELLO: Worked = Worked {
    sender: SERVER,
    receiver: CLIENT,
    seq: 0x51cc_c179,
    ack: 0x1006,
    flags: 0x18,
    window: 32768,
    mss: None,
    body: b"hello",
    frame: &[
        2, 0, 0, 0, 0, 2, 2, 0, 0, 0, 0, 1, 8, 0, 0x45, 0, 0, 0x2d, 0, 0, 0x40, 0, 0x40, 0x06,
        0x5d, 0x28, 0xa1, 0x8e, 0x64, 0x50, 0x42, 0x09, 0x95, 0xbb, 0x06, 0xe6, 0x0a, 0xea, 0x51,
        0xcc, 0xc1, 0x79, 0, 0, 0x10, 0x06, 0x50, 0x18, 0x80, 0, 0xd9, 0x35, 0, 0, 0x68, 0x65,
        0x6c, 0x6c, 0x6f,
    ],
};

const CLIENT_LAST_ACK: Worked = Worked {
    sender: CLIENT,
    receiver: SERVER,
    seq: 0x1006,
    ack: 0x51cc_c17e,
    flags: 0x10,
    window: 64240,
    mss: None,
    body: &[],
    frame: &[
        2, 0, 0, 0, 0, 1, 2, 0, 0, 0, 0, 2, 8, 0, 0x45, 0, 0, 0x28, 0, 0, 0x40, 0, 0x40, 0x06,
        0x5d, 0x2d, 0x42, 0x09, 0x95, 0xbb, 0xa1, 0x8e, 0x64, 0x50, 0x0a, 0xea, 0x06, 0xe6, 0, 0,
        0x10, 0x06, 0x51, 0xcc, 0xc1, 0x7e, 0x50, 0x10, 0xfa, 0xf0, 0xa2, 0x1f, 0, 0,
    ],
};

const SERVER_LAST_ACK: Worked = Worked {
    sender: SERVER,
    receiver: CLIENT,
    seq: 0x51cc_c17e,
    ack: 0x1006,
    flags: 0x10,
    window: 32768,
    mss: None,
    body: &[],
    frame: &[
        2, 0, 0, 0, 0, 2, 2, 0, 0, 0, 0, 1, 8, 0, 0x45, 0, 0, 0x28, 0, 0, 0x40, 0, 0x40, 0x06,
        0x5d, 0x2d, 0xa1, 0x8e, 0x64, 0x50, 0x42, 0x09, 0x95, 0xbb, 0x06, 0xe6, 0x0a, 0xea, 0x51,
        0xcc, 0xc1, 0x7e, 0, 0, 0x10, 0x06, 0x50, 0x10, 0x80, 0, 0x1d, 0x10, 0, 0,
    ],
};

/// The head of a segment between two machines, as one of them has it.
fn head_at(here: &Local, there: &Local, case: &Worked) -> SegHead {
    SegHead {
        flow: Flow {
            remote: there.ip,
            local: here.ip,
            remote_port: there.port,
            local_port: here.port,
        },
        peer_mac: there.mac,
        seq: case.seq,
        ack: case.ack,
        flags: case.flags,
        window: case.window,
        mss: case.mss,
        len: 0,
        at: if case.mss.is_some() { 58 } else { 54 },
    }
}

// Each frame is written byte for byte, and its receiver reads the same segment.
#[test]
fn worked_frames(rt: HostRuntime) -> Result<(), Fail> {
    let cases = [
        CLIENT_SYN,
        SERVER_SYN_ACK,
        CLIENT_ACK,
        CLIENT_HELLO,
        SERVER_HELLO,
        CLIENT_LAST_ACK,
        SERVER_LAST_ACK,
    ];
    for case in &cases {
        let body = case.body;
        assert!(rt; body.len() <= 5);
        let mut sent = head_at(&case.sender, &case.receiver, case);
        sent.len = body.len() as u16;
        let mut out = [0; 100];
        let len = write_frame(&sent, body, &case.sender, &mut out);
        assert!(rt; out.get(..len) == Some(case.frame));
        let mut expected = head_at(&case.receiver, &case.sender, case);
        expected.len = body.len() as u16;
        match read_frame(case.frame, &case.receiver, true) {
            Ok(segment) => {
                assert!(rt; segment.head() == expected);
                assert!(rt; segment.body() == body);
            }
            Err(_) => return Err("a segment".into()),
        }
    }
    Ok(())
}

// The frame with the body "hello", cut to a length and with some bytes changed: its disposition.
const DISPOSITIONS: [(usize, [(usize, u8); 3], Disposition); 17] = [
    (13, [(0, 2); 3], Disposition::NotIp),
    (59, [(5, 2); 3], Disposition::NotOurs),
    (59, [(12, 8), (13, 6), (14, 0)], Disposition::Arp),
    (59, [(12, 0x86), (13, 0xdd), (14, 0)], Disposition::NotIp),
    (33, [(14, 0x65); 3], Disposition::BadIpShort),
    (59, [(14, 0x65); 3], Disposition::BadIpVersion),
    (59, [(14, 0x44); 3], Disposition::BadIpLength),
    (58, [(24, 0); 3], Disposition::BadIpLength),
    (59, [(24, 0x5e); 3], Disposition::BadIpSum),
    (
        59,
        [(20, 0x60), (24, 0x3d), (33, 0x50)],
        Disposition::BadIpFragment,
    ),
    (59, [(33, 0x51), (25, 0x27), (46, 0)], Disposition::NotOurs),
    (59, [(23, 17), (25, 0x1d), (46, 0)], Disposition::NotTcp),
    (
        59,
        [(17, 39), (25, 0x2e), (46, 0)],
        Disposition::BadTcpShort,
    ),
    (59, [(46, 0x40); 3], Disposition::BadTcpOffset),
    (59, [(46, 0x70); 3], Disposition::BadTcpOffset),
    (59, [(46, 0x60); 3], Disposition::BadTcpSum),
    (59, [(58, 0x6e); 3], Disposition::BadTcpSum),
];

#[test]
fn dispositions(rt: HostRuntime) -> Result<(), Fail> {
    for (len, changes, expected) in DISPOSITIONS {
        let mut frame = HELLO;
        for (at, byte) in changes {
            assert!(rt; at < 59);
            frame[at] = byte;
        }
        assert!(rt; len <= 59);
        assert!(rt; read_frame(&frame[..len], &SERVER, true).err() == Some(expected));
        if expected == Disposition::BadTcpSum {
            assert!(rt; read_frame(&frame[..len], &SERVER, false).is_ok());
        }
    }
    Ok(())
}

// What one changed bit of the headers of the frame with the body "hello" makes of it, from the lowest bit of each byte on, as a
// program of its own tells it: another segment (s) with the checksum untested, and otherwise what `named` says.
const CHANGED_BITS: [(usize, usize, &[u8; 8]); 11] = [
    (0, 6, b"oooooooo"),
    (6, 12, b"ssssssss"),
    (12, 14, b"nnnnnnnn"),
    (14, 15, b"lhllvvvv"),
    (15, 16, b"hhhhhhhh"),
    (16, 17, b"llllllll"),
    (17, 18, b"hlhhllll"),
    (18, 34, b"hhhhhhhh"),
    (34, 46, b"cccccccc"),
    (46, 47, b"ccccdddd"),
    (47, 54, b"cccccccc"),
];

fn named(letter: u8) -> Option<Disposition> {
    match letter {
        b'o' => Some(Disposition::NotOurs),
        b'n' => Some(Disposition::NotIp),
        b'v' => Some(Disposition::BadIpVersion),
        b'l' => Some(Disposition::BadIpLength),
        b'h' => Some(Disposition::BadIpSum),
        b'd' => Some(Disposition::BadTcpOffset),
        b'c' => Some(Disposition::BadTcpSum),
        _ => None,
    }
}

#[test]
fn changed_bits(rt: HostRuntime) -> Result<(), Fail> {
    for (from, to, letters) in CHANGED_BITS {
        assert!(rt; to <= 54);
        for at in from..to {
            for (bit, letter) in letters.iter().enumerate() {
                let mut frame = HELLO;
                frame[at] ^= 1 << bit;
                assert!(rt; read_frame(&frame, &SERVER, true).err() == named(*letter));
                let unchecked = if *letter == b'c' {
                    None
                } else {
                    named(*letter)
                };
                assert!(rt; read_frame(&frame, &SERVER, false).err() == unchecked);
            }
        }
    }
    Ok(())
}

#[test]
fn options_and_offsets(rt: HostRuntime) -> Result<(), Fail> {
    let options: [(&[u8], Option<u16>); 12] = [
        (&[], None),
        (&[2, 4, 5, 0xb4], Some(1460)),
        (&[1, 1, 2, 4, 5, 0xb4, 0, 0], Some(1460)),
        (&[2, 4, 5, 0xb4, 2, 4, 2, 0], Some(1460)),
        (&[0, 2, 4, 5, 0xb4, 0, 0, 0], None),
        (&[3, 3, 7, 2, 4, 5, 0xb4, 0], Some(1460)),
        (&[8, 1, 2, 4, 5, 0xb4, 0, 0], None),
        (&[8, 0, 2, 4, 5, 0xb4, 0, 0], None),
        (&[8, 9, 2, 4, 5, 0xb4, 0, 0], None),
        (&[2, 3, 9, 2, 4, 5, 0xb4, 0], Some(1460)),
        (&[1, 1, 1, 2], None),
        (&[2, 4, 5], None),
    ];
    for (bytes, mss) in options {
        assert!(rt; mss_of(bytes) == mss);
    }
    let offsets: [(u32, u32, i64); 8] = [
        (0, 0, 0),
        (5, 3, -2),
        (0xffff_ffff, 0, 1),
        (0, 0xffff_ffff, -1),
        (0, 0x7fff_ffff, 0x7fff_ffff),
        (0, 0x8000_0000, -0x8000_0000),
        (0x8000_0000, 0, -0x8000_0000),
        (0x51cc_c178, 0x51cc_c17e, 6),
    ];
    for (base, x, expected) in offsets {
        assert_eq!(rt; offset(base, x), expected);
    }
    Ok(())
}
