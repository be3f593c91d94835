// Echo requests and their answers, and packets that are neither.
ghost use Rattle.std.specs.Prelude.{◌≤◌, length};

use crate::{Side, side_answer};
use ix_base::Local;
use ix_eth::EthView;
use ix_ip::IpView;
use std::test::Fail;

const LOCAL: Local = Local {
    mac: [2, 0, 0, 0, 0, 1],
    ip: 0xa18e_6450,
    port: 1766,
};

const ICMP: [u8; 46] = [
    2, 0, 0, 0, 0, 1, 2, 0, 0, 0, 0, 2, 8, 0, 0x45, 0, 0, 0x20, 0, 0, 0x40, 0, 0x40, 0x01, 0x2a,
    0xfd, 10, 0, 0, 2, 0xa1, 0x8e, 0x64, 0x50, 8, 0, 0x33, 0x37, 0, 1, 0, 1, 0x61, 0x62, 0x63,
    0x64,
];

const ICMP_ANSWER: [u8; 46] = [
    2, 0, 0, 0, 0, 2, 2, 0, 0, 0, 0, 1, 8, 0, 0x45, 0, 0, 0x20, 0, 0, 0x40, 0, 0x40, 0x01, 0x2a,
    0xfd, 0xa1, 0x8e, 0x64, 0x50, 10, 0, 0, 2, 0, 0, 0x3b, 0x37, 0, 1, 0, 1, 0x61, 0x62, 0x63,
    0x64,
];

// Two bytes of padding stand behind the datagram.
const UDP: [u8; 46] = [
    2, 0, 0, 0, 0, 1, 2, 0, 0, 0, 0, 2, 8, 0, 0x45, 0, 0, 0x1e, 0, 0, 0x40, 0, 0x40, 0x11, 0x2a,
    0xef, 10, 0, 0, 2, 0xa1, 0x8e, 0x64, 0x50, 0x0f, 0xa0, 0, 7, 0, 10, 0, 0, 0x68, 0x69, 0, 0,
];

const UDP_ANSWER: [u8; 46] = [
    2, 0, 0, 0, 0, 2, 2, 0, 0, 0, 0, 1, 8, 0, 0x45, 0, 0, 0x1e, 0, 0, 0x40, 0, 0x40, 0x11, 0x2a,
    0xef, 0xa1, 0x8e, 0x64, 0x50, 10, 0, 0, 2, 0, 7, 0x0f, 0xa0, 0, 10, 0x77, 0xe9, 0x68, 0x69, 0,
    0,
];

type Changes = [(usize, u8); 5];

// Bytes of a request changed: the length of its answer and the bytes of the answer that change with them. Each sum was computed by
// another program.
const ANSWERED: [([u8; 46], Changes, usize, [u8; 46], Changes); 8] = [
    (ICMP, [(0, 2); 5], 46, ICMP_ANSWER, [(0, 2); 5]),
    // An odd length.
    (
        ICMP,
        [(17, 31), (24, 0x2a), (25, 0xfe), (36, 0x33), (37, 0x9b)],
        45,
        ICMP_ANSWER,
        [(17, 31), (24, 0x2a), (25, 0xfe), (36, 0x3b), (37, 0x9b)],
    ),
    // From another hardware address.
    (ICMP, [(11, 9); 5], 46, ICMP_ANSWER, [(5, 9); 5]),
    (UDP, [(0, 2); 5], 44, UDP_ANSWER, [(0, 2); 5]),
    // With a right checksum.
    (
        UDP,
        [(40, 0x77), (41, 0xe9), (0, 2), (0, 2), (0, 2)],
        44,
        UDP_ANSWER,
        [(0, 2); 5],
    ),
    // A packet longer than its datagram.
    (
        UDP,
        [(17, 32), (25, 0xed), (0, 2), (0, 2), (0, 2)],
        44,
        UDP_ANSWER,
        [(0, 2); 5],
    ),
    // A checksum of zero is shown as all ones, in the answer and in a request.
    (
        UDP,
        [(42, 0xe0), (43, 0x52), (0, 2), (0, 2), (0, 2)],
        44,
        UDP_ANSWER,
        [(40, 0xff), (41, 0xff), (42, 0xe0), (43, 0x52), (0, 2)],
    ),
    (
        UDP,
        [(40, 0xff), (41, 0xff), (42, 0xe0), (43, 0x52), (0, 2)],
        44,
        UDP_ANSWER,
        [(40, 0xff), (41, 0xff), (42, 0xe0), (43, 0x52), (0, 2)],
    ),
];

// Bytes of a request changed, so that it is none.
const NOT_ANSWERED: [([u8; 46], Changes); 13] = [
    // A wrong sum, another code and another type with right sums, seven bytes, another protocol.
    (ICMP, [(45, 0x65); 5]),
    (ICMP, [(35, 1), (36, 0x33), (37, 0x36), (0, 2), (0, 2)]),
    (ICMP, [(34, 0), (36, 0x3b), (37, 0x37), (0, 2), (0, 2)]),
    (ICMP, [(17, 27), (24, 0x2b), (25, 0x02), (0, 2), (0, 2)]),
    (ICMP, [(23, 2), (25, 0xfc), (0, 2), (0, 2), (0, 2)]),
    // Another port, a length below eight and one past the packet, seven bytes, a wrong checksum.
    (UDP, [(37, 8); 5]),
    (UDP, [(36, 1); 5]),
    (UDP, [(39, 7); 5]),
    (UDP, [(39, 11); 5]),
    (UDP, [(38, 1); 5]),
    (UDP, [(17, 27), (25, 0xf2), (0, 2), (0, 2), (0, 2)]),
    (UDP, [(40, 0x77), (41, 0xe8), (0, 2), (0, 2), (0, 2)]),
    // TCP.
    (UDP, [(23, 6), (25, 0xfa), (0, 2), (0, 2), (0, 2)]),
];

fn changed(frame: [u8; 46], changes: Changes) -> [u8; 46] {
    let mut frame = frame;
    for (at, byte) in changes {
        if at < 46 {
            frame[at] = byte;
        }
    }
    frame
}

/// What the packet of a frame is, with its answer in `out`.
fn answered(frame: &[u8], out: &mut [u8]) -> Option<Side>
    requires { 2048 ≤ length out.old }
{
    let view = EthView::of(frame)?;
    if view.rest().len() > 2034 {
        return None;
    }
    match IpView::of(view.rest()) {
        Ok(ip) => Some(side_answer(&view, &ip, &LOCAL, out)),
        Err(_) => None,
    }
}

#[test]
fn echoes(rt: HostRuntime) -> Result<(), Fail> {
    for (request, changes, len, answer, answer_changes) in ANSWERED {
        let mut out = [0xaa; 2048];
        let side = answered(&changed(request, changes), &mut out);
        let expected = if request == ICMP {
            Side::IcmpEcho { len }
        } else {
            Side::UdpEcho { len }
        };
        assert!(rt; side == Some(expected), "to {changes:?}");
        assert!(rt; len <= 46);
        assert!(rt;
            out[..len] == changed(answer, answer_changes)[..len],
            "to {changes:?}"
        );
        assert!(rt; out[len..].iter().all(|byte| *byte == 0xaa));
    }
    for (frame, changes) in NOT_ANSWERED {
        let mut out = [0xaa; 2048];
        let side = answered(&changed(frame, changes), &mut out);
        assert!(rt; side == Some(Side::NotTcp), "to {changes:?}");
        assert!(rt; out.iter().all(|byte| *byte == 0xaa));
    }
    Ok(())
}
