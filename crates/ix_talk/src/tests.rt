// Whole conversations, with numbers that were worked out by hand.
ghost use Rattle.ix_tcpdef.specs.Sound.{IsInRange};

use crate::{Line, first_wrong};
use ix_base::{ACK, FIN, List, NoMemory, PSH, RST, Ret, SYN, WireNo};
use ix_tcpdef::{Cfg, State, Told};
use std::alloc::Global;
use std::process::Abort;

const ISS: u32 = 0x51cc_c178;

const PEER: u16 = 64_240;

const OWN: u16 = 32_768;

fn usual() -> Cfg
    ensures { IsInRange result }
{
    Cfg {
        window: OWN,
        mss: 1460,
        rto: 200,
        retries: 5,
        time_wait: 60_000,
    }
}

/// Plays a conversation, all of which has to hold.
fn play(
    rt: &impl Abort,
    alloc: Global,
    name: &str,
    cfg: &Cfg,
    iss: u32,
    lines: &[Line],
) -> Result<(), NoMemory>
    requires { IsInRange cfg.now }
{
    let wrong = first_wrong(alloc, cfg, iss, lines)?;
    assert_eq!(rt; wrong, None, "{name}");
    Ok(())
}

const SYN_ACK: u8 = SYN + ACK;

const FIN_ACK: u8 = FIN + ACK;

const PSH_ACK: u8 = PSH + ACK;

/// The passive handshake with the usual numbers, accepted.
const HANDSHAKE: [Line; 9] = [
    Line::Syn(Some(1460)),
    Line::Frame(SYN_ACK, ISS, 0x1001, OWN, b""),
    Line::Flush,
    Line::Left(State::SynReceived, 0, 1, 1, 4380, 65_535),
    Line::Seg(ACK, 0x1001, 0x51cc_c179, PEER, b""),
    Line::Told(Told::Knock),
    Line::Accept,
    Line::Ret(Ret::Done(0)),
    Line::Flush,
];

/// The handshake, and then these lines.
fn after_handshake(
    rt: &impl Abort,
    alloc: Global,
    name: &str,
    cfg: &Cfg,
    lines: &[Line],
) -> Result<(), NoMemory>
    requires { IsInRange cfg.now }
{
    let mut all = HANDSHAKE.to_vec(alloc)?;
    all.extend_from_slice(lines)?;
    play(rt, alloc, name, cfg, ISS, all.as_slice())
}

const IN_ORDER_DATA_AND_A_REPEAT_LINES: [Line; 17] = [
    Line::Seg(PSH_ACK, 0x1001, 0x51cc_c179, PEER, b"hello"),
    Line::Told(Told::Recv {
        w: WireNo(2),
        from: 54,
        len: 5,
    }),
    Line::RecvDone(5),
    Line::Ret(Ret::Done(5)),
    Line::Sendv(b"hello"),
    Line::Ret(Ret::Done(5)),
    Line::Flush,
    Line::Frame(PSH_ACK, 0x51cc_c179, 0x1006, OWN, b"hello"),
    Line::Deadline(Some(200)),
    // the same again: it isn't acceptable, and is acknowledged at once
    Line::Seg(PSH_ACK, 0x1001, 0x51cc_c179, PEER, b"hello"),
    Line::Frame(ACK, 0x51cc_c17e, 0x1006, OWN, b""),
    Line::Flush,
    Line::Seg(ACK, 0x1006, 0x51cc_c17e, PEER, b""),
    Line::Told(Told::Sent {
        bytes: 5,
        window: 64_240,
    }),
    Line::Flush,
    Line::Deadline(None),
    Line::Left(State::Established, 6, 6, 6, 4385, 65_535),
];

#[test]
fn in_order_data_and_a_repeat(rt: HostRuntime) -> Result<(), NoMemory> {
    let alloc = rt.alloc();
    after_handshake(
        &rt,
        alloc,
        "echo",
        &usual(),
        &IN_ORDER_DATA_AND_A_REPEAT_LINES,
    )
}

const NUMBERS_THAT_WRAP_LINES: [Line; 17] = [
    Line::Seg(SYN, 0xffff_ffff, 0, PEER, b"ab"),
    Line::Frame(SYN_ACK, ISS, 0, OWN, b""),
    Line::Flush,
    Line::Seg(ACK, 0, 0x51cc_c179, PEER, b""),
    Line::Told(Told::Knock),
    Line::Accept,
    Line::Ret(Ret::Done(0)),
    Line::Flush,
    Line::Seg(PSH_ACK, 0, 0x51cc_c179, PEER, b"ab"),
    Line::Told(Told::Recv {
        w: WireNo(2),
        from: 54,
        len: 2,
    }),
    Line::RecvDone(2),
    Line::Ret(Ret::Done(2)),
    Line::Sendv(b"ab"),
    Line::Ret(Ret::Done(2)),
    Line::Flush,
    Line::Frame(PSH_ACK, 0x51cc_c179, 2, OWN, b"ab"),
    Line::Left(State::Established, 1, 3, 3, 2144, 65_535),
];

const NUMBERS_THAT_WRAP_LINES_2: [Line; 19] = [
    Line::Syn(Some(1460)),
    Line::Frame(SYN_ACK, 0xffff_ffff, 0x1001, OWN, b""),
    Line::Seg(ACK, 0x1001, 0, PEER, b""),
    Line::Told(Told::Knock),
    Line::Accept,
    Line::Ret(Ret::Done(0)),
    Line::Sendv(b"ab"),
    Line::Ret(Ret::Done(2)),
    Line::Flush,
    Line::Frame(PSH_ACK, 0, 0x1001, OWN, b"ab"),
    // one byte is acknowledged, and what is left is sent again
    Line::Seg(ACK, 0x1001, 1, PEER, b""),
    Line::Told(Told::Sent {
        bytes: 1,
        window: 64_239,
    }),
    Line::Flush,
    Line::At(200),
    Line::Timer,
    Line::Frame(PSH_ACK, 1, 0x1001, OWN, b"b"),
    Line::Seg(ACK, 0x1001, 2, PEER, b""),
    Line::Told(Told::Sent {
        bytes: 1,
        window: 64_240,
    }),
    Line::Left(State::Established, 3, 3, 1, 1461, 2920),
];

#[test]
fn numbers_that_wrap(rt: HostRuntime) -> Result<(), NoMemory> {
    let alloc = rt.alloc();
    play(
        &rt,
        alloc,
        "peer's numbers wrap",
        &usual(),
        ISS,
        &NUMBERS_THAT_WRAP_LINES,
    )?;
    play(
        &rt,
        alloc,
        "own numbers wrap",
        &usual(),
        0xffff_ffff,
        &NUMBERS_THAT_WRAP_LINES_2,
    )
}

const OCTETS_OUT_OF_ORDER_LINES: [Line; 21] = [
    Line::Seg(PSH_ACK, 0x1002, 0x51cc_c179, PEER, b"b"),
    Line::Frame(ACK, 0x51cc_c179, 0x1001, OWN, b""),
    Line::Flush,
    Line::Seg(PSH_ACK, 0x1003, 0x51cc_c179, PEER, b"c"),
    Line::Frame(ACK, 0x51cc_c179, 0x1001, OWN, b""),
    Line::Held(0, Some(WireNo(2))),
    Line::Held(1, Some(WireNo(3))),
    Line::Held(2, None),
    Line::Flush,
    Line::Seg(PSH_ACK, 0x1001, 0x51cc_c179, PEER, b"a"),
    Line::Told(Told::Recv {
        w: WireNo(4),
        from: 54,
        len: 1,
    }),
    Line::Told(Told::Recv {
        w: WireNo(2),
        from: 54,
        len: 1,
    }),
    Line::Told(Told::Recv {
        w: WireNo(3),
        from: 54,
        len: 1,
    }),
    Line::Held(0, None),
    Line::RecvDone(3),
    Line::Ret(Ret::Done(3)),
    Line::Sendv(b"abc"),
    Line::Ret(Ret::Done(3)),
    Line::Flush,
    Line::Frame(PSH_ACK, 0x51cc_c179, 0x1004, OWN, b"abc"),
    Line::Left(State::Established, 1, 4, 4, 4380, 65_535),
];

const OCTETS_OUT_OF_ORDER_LINES_2: [Line; 14] = [
    Line::Seg(ACK, 0x1003, 0x51cc_c179, PEER, b"cd"),
    Line::Frame(ACK, 0x51cc_c179, 0x1001, OWN, b""),
    Line::Seg(FIN_ACK, 0x1006, 0x51cc_c179, PEER, b"fgh"),
    Line::Frame(ACK, 0x51cc_c179, 0x1001, OWN, b""),
    // it overlaps what is held
    Line::Seg(ACK, 0x1004, 0x51cc_c179, PEER, b"def"),
    Line::Frame(ACK, 0x51cc_c179, 0x1001, OWN, b""),
    Line::Held(2, None),
    Line::Seg(ACK, 0x1001, 0x51cc_c179, PEER, b"abcdef"),
    Line::Told(Told::Recv {
        w: WireNo(5),
        from: 54,
        len: 6,
    }),
    Line::Told(Told::Recv {
        w: WireNo(3),
        from: 55,
        len: 2,
    }),
    Line::Told(Told::RecvEnd),
    Line::Flush,
    Line::Frame(ACK, 0x51cc_c179, 0x100a, 32_760, b""),
    Line::Left(State::CloseWait, 1, 1, 10, 4380, 65_535),
];

#[test]
fn octets_out_of_order(rt: HostRuntime) -> Result<(), NoMemory> {
    let alloc = rt.alloc();
    after_handshake(&rt, alloc, "hole", &usual(), &OCTETS_OUT_OF_ORDER_LINES)?;
    // a held segment is overtaken in part and another whole; the FIN behind the last counts
    after_handshake(
        &rt,
        alloc,
        "overtaken",
        &usual(),
        &OCTETS_OUT_OF_ORDER_LINES_2,
    )
}

#[test]
fn the_ninth_is_not_kept(rt: HostRuntime) -> Result<(), NoMemory> {
    let alloc = rt.alloc();
    let mut all = HANDSHAKE.to_vec(alloc)?;
    for i in 0..9 {
        all.push(Line::Seg(ACK, 0x1002 + 2 * i, 0x51cc_c179, PEER, b"x"))?;
        all.push(Line::Frame(ACK, 0x51cc_c179, 0x1001, OWN, b""))?;
    }
    all.push(Line::Held(7, Some(WireNo(9))))?;
    all.push(Line::Held(8, None))?;
    play(&rt, alloc, "ninth", &usual(), ISS, all.as_slice())
}

const RESETS_AND_A_SYN_RESET: [Line; 8] = [
    Line::Seg(RST, 0x1001, 0, 0, b""),
    Line::Told(Told::DeadReset),
    Line::Left(State::Closed, 1, 1, 1, 4380, 65_535),
    Line::Seg(ACK, 0x1001, 0x51cc_c179, PEER, b"late"),
    Line::Flush,
    Line::Close,
    Line::Ret(Ret::BadHandle),
    Line::Connect,
];

const RESETS_AND_A_SYN_OTHERS: [Line; 9] = [
    Line::Seg(RST, 0x1002, 0, 0, b""),
    Line::Frame(ACK, 0x51cc_c179, 0x1001, OWN, b""),
    Line::Seg(RST, 0x0fff, 0, 0, b""),
    Line::Seg(SYN, 0x1001, 0, PEER, b""),
    Line::Frame(ACK, 0x51cc_c179, 0x1001, OWN, b""),
    // no acknowledgement at all; one of what was not sent
    Line::Seg(0, 0x1001, 0, PEER, b"x"),
    Line::Seg(ACK, 0x1001, 0x51cc_c17a, PEER, b"x"),
    Line::Frame(ACK, 0x51cc_c179, 0x1001, OWN, b""),
    Line::Left(State::Established, 1, 1, 1, 4380, 65_535),
];

const RESETS_AND_A_SYN_REPEATED: [Line; 8] = [
    Line::Syn(Some(1460)),
    Line::Frame(SYN_ACK, ISS, 0x1001, OWN, b""),
    // bare, it isn't acceptable
    Line::Syn(Some(1460)),
    Line::Frame(ACK, 0x51cc_c179, 0x1001, OWN, b""),
    // a wrong acknowledgement
    Line::Seg(ACK, 0x1001, 0x51cc_c178, PEER, b""),
    Line::Frame(RST, 0x51cc_c178, 0, 0, b""),
    // with data, its last octet lies in the window
    Line::Seg(SYN, 0x1000, 0, PEER, b"x"),
    Line::Left(State::Closed, 0, 1, 1, 4380, 65_535),
];

#[test]
fn resets_and_a_syn(rt: HostRuntime) -> Result<(), NoMemory> {
    let alloc = rt.alloc();
    after_handshake(&rt, alloc, "reset", &usual(), &RESETS_AND_A_SYN_RESET)?;
    after_handshake(&rt, alloc, "challenges", &usual(), &RESETS_AND_A_SYN_OTHERS)?;
    play(
        &rt,
        alloc,
        "repeated SYN",
        &usual(),
        ISS,
        &RESETS_AND_A_SYN_REPEATED,
    )
}

const THE_RIGHT_EDGE_OF_THE_WINDOW_OPEN: [Line; 6] = [
    Line::Syn(Some(1460)),
    Line::Frame(SYN_ACK, ISS, 0x1001, 64, b""),
    Line::Seg(ACK, 0x1001, 0x51cc_c179, PEER, b""),
    Line::Told(Told::Knock),
    Line::Accept,
    Line::Ret(Ret::Done(0)),
];

const THE_RIGHT_EDGE_OF_THE_WINDOW_MORE: [Line; 11] = [
    // six octets and the FIN are cut off
    Line::Seg(FIN_ACK, 0x1001, 0x51cc_c179, PEER, &[b'x'; 70]),
    Line::Told(Told::Recv {
        w: WireNo(2),
        from: 54,
        len: 64,
    }),
    Line::Flush,
    Line::Frame(ACK, 0x51cc_c179, 0x1041, 0, b""),
    Line::Seg(ACK, 0x1041, 0x51cc_c179, PEER, b"x"),
    Line::Frame(ACK, 0x51cc_c179, 0x1041, 0, b""),
    Line::RecvDone(64),
    Line::Ret(Ret::Done(64)),
    Line::Flush,
    Line::Frame(ACK, 0x51cc_c179, 0x1041, 64, b""),
    Line::Left(State::Established, 1, 1, 65, 4380, 65_535),
];

const THE_RIGHT_EDGE_OF_THE_WINDOW_MORE_2: [Line; 6] = [
    // nothing but the FIN stands behind the window: it counts
    Line::Seg(FIN_ACK, 0x1001, 0x51cc_c179, PEER, &[b'x'; 64]),
    Line::Told(Told::Recv {
        w: WireNo(2),
        from: 54,
        len: 64,
    }),
    Line::Told(Told::RecvEnd),
    Line::Flush,
    Line::Frame(ACK, 0x51cc_c179, 0x1042, 0, b""),
    Line::Left(State::CloseWait, 1, 1, 66, 4380, 65_535),
];

#[test]
fn the_right_edge_of_the_window(rt: HostRuntime) -> Result<(), NoMemory> {
    let alloc = rt.alloc();
    let small = Cfg {
        window: 64,
        ..usual()
    };
    let mut cut = THE_RIGHT_EDGE_OF_THE_WINDOW_OPEN.to_vec(alloc)?;
    cut.extend_from_slice(&THE_RIGHT_EDGE_OF_THE_WINDOW_MORE)?;
    play(&rt, alloc, "cut", &small, ISS, cut.as_slice())?;
    let mut full = THE_RIGHT_EDGE_OF_THE_WINDOW_OPEN.to_vec(alloc)?;
    full.extend_from_slice(&THE_RIGHT_EDGE_OF_THE_WINDOW_MORE_2)?;
    play(&rt, alloc, "full", &small, ISS, full.as_slice())
}

const A_CLOSED_WINDOW_LINES: [Line; 28] = [
    Line::Seg(PSH_ACK, 0x1001, 0x51cc_c179, 0, b"twenty bytes of data"),
    Line::Told(Told::Recv {
        w: WireNo(2),
        from: 54,
        len: 20,
    }),
    Line::RecvDone(20),
    Line::Ret(Ret::Done(20)),
    Line::Sendv(b"twenty bytes of data"),
    Line::Ret(Ret::Done(0)),
    Line::Flush,
    Line::Frame(ACK, 0x51cc_c179, 0x1015, OWN, b""),
    Line::At(199),
    Line::Timer,
    Line::At(200),
    Line::Timer,
    Line::Frame(ACK, 0x51cc_c178, 0x1015, OWN, b""),
    Line::Flush,
    Line::Deadline(Some(600)),
    Line::Seg(ACK, 0x1015, 0x51cc_c179, 10, b""),
    Line::Told(Told::Sent {
        bytes: 0,
        window: 10,
    }),
    Line::Sendv(b"twenty bytes of data"),
    Line::Ret(Ret::Done(10)),
    Line::Flush,
    Line::Frame(PSH_ACK, 0x51cc_c179, 0x1015, OWN, b"twenty byt"),
    Line::Left(State::Established, 1, 11, 21, 4380, 65_535),
    // all is acknowledged without room for more: this is told, and no window is waited for any more
    Line::Seg(ACK, 0x1015, 0x51cc_c183, 0, b""),
    Line::Told(Told::Sent {
        bytes: 10,
        window: 0,
    }),
    Line::Flush,
    Line::Deadline(None),
    Line::Seg(ACK, 0x1015, 0x51cc_c183, PEER, b""),
    Line::Flush,
];

const A_CLOSED_WINDOW_MORE: [Line; 4] = [
    Line::Seg(ACK, 0x1001, 0x51cc_c179, 0, b""),
    Line::Sendv(b"x"),
    Line::Ret(Ret::Done(0)),
    Line::Flush,
];

#[test]
fn a_closed_window(rt: HostRuntime) -> Result<(), NoMemory> {
    let alloc = rt.alloc();
    after_handshake(&rt, alloc, "probe", &usual(), &A_CLOSED_WINDOW_LINES)?;
    // a ninth probe and more leave the connection open, and the wait stands at its end
    let mut all = HANDSHAKE.to_vec(alloc)?;
    all.extend_from_slice(&A_CLOSED_WINDOW_MORE)?;
    for i in 1..12 {
        all.push(Line::At(60_000 * i))?;
        all.push(Line::Timer)?;
        all.push(Line::Frame(ACK, 0x51cc_c178, 0x1001, OWN, b""))?;
    }
    all.push(Line::Deadline(Some(711_200)))?;
    all.push(Line::Close)?;
    all.push(Line::Ret(Ret::Done(0)))?;
    all.push(Line::Deadline(None))?;
    play(&rt, alloc, "probes", &usual(), ISS, all.as_slice())
}

const RETRANSMISSION_MORE: [Line; 8] = [
    Line::Seg(PSH_ACK, 0x1001, 0x51cc_c179, PEER, b"hello"),
    Line::Told(Told::Recv {
        w: WireNo(2),
        from: 54,
        len: 5,
    }),
    Line::RecvDone(5),
    Line::Ret(Ret::Done(5)),
    Line::Sendv(b"hello"),
    Line::Ret(Ret::Done(5)),
    Line::Flush,
    Line::Frame(PSH_ACK, 0x51cc_c179, 0x1006, OWN, b"hello"),
];

const RETRANSMISSION_MORE_2: [Line; 6] = [
    Line::At(6199),
    Line::Timer,
    Line::At(6200),
    Line::Timer,
    Line::Told(Told::DeadTimeout),
    Line::Left(State::Closed, 1, 6, 6, 1460, 2920),
];

#[test]
fn retransmission(rt: HostRuntime) -> Result<(), NoMemory> {
    let alloc = rt.alloc();
    let mut all = HANDSHAKE.to_vec(alloc)?;
    all.extend_from_slice(&RETRANSMISSION_MORE)?;
    for tick in [200, 600, 1400, 3000] {
        all.push(Line::At(tick))?;
        all.push(Line::Timer)?;
        all.push(Line::Frame(PSH_ACK, 0x51cc_c179, 0x1006, OWN, b"hello"))?;
        all.push(Line::Flush)?;
    }
    all.extend_from_slice(&RETRANSMISSION_MORE_2)?;
    play(&rt, alloc, "until timeout", &usual(), ISS, all.as_slice())?;
    // a SYN-ACK that nobody answers
    let mut all = List::new(alloc);
    all.push(Line::Syn(None))?;
    all.push(Line::Frame(SYN_ACK, ISS, 0x1001, OWN, b""))?;
    for tick in [200, 600, 1400, 3000] {
        all.push(Line::At(tick))?;
        all.push(Line::Timer)?;
        all.push(Line::Frame(SYN_ACK, ISS, 0x1001, OWN, b""))?;
    }
    all.push(Line::Left(State::SynReceived, 0, 1, 1, 536, 65_535))?;
    all.push(Line::At(6200))?;
    all.push(Line::Timer)?;
    all.push(Line::Left(State::Closed, 0, 1, 1, 536, 65_535))?;
    play(&rt, alloc, "SYN-ACK", &usual(), ISS, all.as_slice())
}

const FAST_RETRANSMIT_LINES: [Line; 34] = [
    Line::Syn(Some(1460)),
    Line::Frame(SYN_ACK, ISS, 0x1001, OWN, b""),
    Line::Seg(ACK, 0x1001, 0x51cc_c179, PEER, b""),
    Line::Told(Told::Knock),
    Line::Accept,
    Line::Ret(Ret::Done(0)),
    Line::Seg(PSH_ACK, 0x1001, 0x51cc_c179, PEER, &[b'y'; 600]),
    Line::Told(Told::Recv {
        w: WireNo(2),
        from: 54,
        len: 600,
    }),
    Line::RecvDone(600),
    Line::Ret(Ret::Done(600)),
    Line::Sendv(&[b'y'; 600]),
    Line::Ret(Ret::Done(600)),
    Line::Flush,
    Line::Frame(ACK, 0x51cc_c179, 0x1259, OWN, &[b'y'; 100]),
    Line::Frame(ACK, 0x51cc_c1dd, 0x1259, OWN, &[b'y'; 100]),
    Line::Frame(ACK, 0x51cc_c241, 0x1259, OWN, &[b'y'; 100]),
    Line::Frame(ACK, 0x51cc_c2a5, 0x1259, OWN, &[b'y'; 100]),
    Line::Seg(ACK, 0x1259, 0x51cc_c179, PEER, b""),
    Line::Flush,
    Line::Seg(ACK, 0x1259, 0x51cc_c179, PEER, b""),
    Line::Flush,
    Line::Seg(ACK, 0x1259, 0x51cc_c179, PEER, b""),
    Line::Left(State::Established, 1, 401, 601, 500, 200),
    Line::Flush,
    Line::Frame(ACK, 0x51cc_c179, 0x1259, OWN, &[b'y'; 100]),
    Line::Frame(ACK, 0x51cc_c309, 0x1259, OWN, &[b'y'; 100]),
    Line::Seg(ACK, 0x1259, 0x51cc_c179, PEER, b""),
    Line::Flush,
    Line::Frame(PSH_ACK, 0x51cc_c36d, 0x1259, OWN, &[b'y'; 100]),
    Line::Left(State::Established, 1, 601, 601, 600, 200),
    Line::Seg(ACK, 0x1259, 0x51cc_c3d1, PEER, b""),
    Line::Told(Told::Sent {
        bytes: 600,
        window: 64_240,
    }),
    Line::Flush,
    Line::Left(State::Established, 601, 601, 601, 200, 200),
];

#[test]
fn fast_retransmit(rt: HostRuntime) -> Result<(), NoMemory> {
    let alloc = rt.alloc();
    let cfg = Cfg {
        mss: 100,
        ..usual()
    };
    play(
        &rt,
        alloc,
        "fast retransmit",
        &cfg,
        ISS,
        &FAST_RETRANSMIT_LINES,
    )
}

const BOTH_ENDS_CLOSE_AT_ONCE: [Line; 23] = [
    Line::Close,
    Line::Ret(Ret::Done(0)),
    Line::Flush,
    Line::Frame(FIN_ACK, 0x51cc_c179, 0x1001, OWN, b""),
    Line::Left(State::FinWait1, 1, 2, 1, 4380, 65_535),
    Line::Seg(FIN_ACK, 0x1001, 0x51cc_c179, PEER, b""),
    Line::Flush,
    Line::Frame(ACK, 0x51cc_c17a, 0x1002, OWN, b""),
    Line::Left(State::Closing, 1, 2, 2, 4380, 65_535),
    Line::At(100),
    Line::Seg(ACK, 0x1002, 0x51cc_c17a, PEER, b""),
    Line::Flush,
    Line::Left(State::TimeWait, 2, 2, 2, 4381, 65_535),
    Line::Deadline(Some(60_100)),
    Line::At(1000),
    // a window update does not end the wait; the peer's FIN again begins it anew
    Line::Seg(ACK, 0x1002, 0x51cc_c17a, 100, b""),
    Line::Deadline(Some(60_100)),
    Line::Seg(FIN_ACK, 0x1001, 0x51cc_c17a, PEER, b""),
    Line::Frame(ACK, 0x51cc_c17a, 0x1002, OWN, b""),
    Line::Deadline(Some(61_000)),
    Line::At(61_000),
    Line::Timer,
    Line::Left(State::Closed, 2, 2, 2, 4381, 65_535),
];

const BOTH_ENDS_CLOSE_PEER_FIRST: [Line; 18] = [
    Line::Seg(FIN_ACK, 0x1001, 0x51cc_c179, PEER, b"bye"),
    Line::Told(Told::Recv {
        w: WireNo(2),
        from: 54,
        len: 3,
    }),
    Line::Told(Told::RecvEnd),
    Line::Sendv(b"yes"),
    Line::Ret(Ret::Done(3)),
    Line::Flush,
    Line::Frame(PSH_ACK, 0x51cc_c179, 0x1005, 32_765, b"yes"),
    // a body is ignored now
    Line::Seg(ACK, 0x1005, 0x51cc_c179, PEER, b"more"),
    Line::Close,
    Line::Ret(Ret::Done(0)),
    Line::Sendv(b"no"),
    Line::Ret(Ret::BadHandle),
    Line::Flush,
    Line::Frame(FIN_ACK, 0x51cc_c17c, 0x1005, OWN, b""),
    Line::Left(State::LastAck, 1, 5, 5, 4380, 65_535),
    Line::Seg(ACK, 0x1005, 0x51cc_c17d, PEER, b""),
    Line::Left(State::Closed, 5, 5, 5, 4384, 65_535),
    Line::Flush,
];

const BOTH_ENDS_CLOSE_OWN_FIRST: [Line; 12] = [
    Line::Close,
    Line::Ret(Ret::Done(0)),
    Line::Flush,
    Line::Frame(FIN_ACK, 0x51cc_c179, 0x1001, OWN, b""),
    Line::Seg(ACK, 0x1001, 0x51cc_c17a, PEER, b""),
    Line::Left(State::FinWait2, 2, 2, 1, 4381, 65_535),
    // what comes is thrown away, also from behind a hole, where its FIN counts
    Line::Seg(FIN_ACK, 0x1003, 0x51cc_c17a, PEER, b"cd"),
    Line::Frame(ACK, 0x51cc_c17a, 0x1001, OWN, b""),
    Line::Seg(ACK, 0x1001, 0x51cc_c17a, PEER, b"ab"),
    Line::Flush,
    Line::Frame(ACK, 0x51cc_c17a, 0x1006, OWN, b""),
    Line::Left(State::TimeWait, 2, 2, 6, 4381, 65_535),
];

#[test]
fn both_ends_close(rt: HostRuntime) -> Result<(), NoMemory> {
    let alloc = rt.alloc();
    after_handshake(&rt, alloc, "at once", &usual(), &BOTH_ENDS_CLOSE_AT_ONCE)?;
    after_handshake(
        &rt,
        alloc,
        "peer first",
        &usual(),
        &BOTH_ENDS_CLOSE_PEER_FIRST,
    )?;
    after_handshake(
        &rt,
        alloc,
        "own first",
        &usual(),
        &BOTH_ENDS_CLOSE_OWN_FIRST,
    )
}

const CALLS_LINES: [Line; 35] = [
    Line::Accept,
    Line::Ret(Ret::BadHandle),
    Line::Timer,
    Line::Flush,
    Line::Seg(ACK, 0x1001, 1, PEER, b""),
    Line::Syn(None),
    Line::Frame(SYN_ACK, ISS, 0x1001, OWN, b""),
    Line::Close,
    Line::Ret(Ret::BadHandle),
    Line::Seg(PSH_ACK, 0x1001, 0x51cc_c179, PEER, b"early"),
    Line::Told(Told::Knock),
    Line::Sendv(b"x"),
    Line::Ret(Ret::NotOpen),
    Line::RecvDone(0),
    Line::Ret(Ret::NotOpen),
    Line::Seg(FIN_ACK, 0x1006, 0x51cc_c179, PEER, b""),
    Line::Accept,
    Line::Ret(Ret::Done(0)),
    Line::Told(Told::Recv {
        w: WireNo(2),
        from: 54,
        len: 5,
    }),
    Line::Told(Told::RecvEnd),
    Line::Accept,
    Line::Ret(Ret::NotKnocked),
    Line::RecvDone(6),
    Line::Ret(Ret::TooMuch),
    Line::RecvDone(5),
    Line::Ret(Ret::Done(5)),
    Line::Sendv(b""),
    Line::Ret(Ret::Done(0)),
    Line::Connect,
    Line::Close,
    Line::Ret(Ret::Done(0)),
    Line::Close,
    Line::Ret(Ret::BadHandle),
    Line::RecvDone(0),
    Line::Ret(Ret::BadHandle),
];

#[test]
fn calls(rt: HostRuntime) -> Result<(), NoMemory> {
    let alloc = rt.alloc();
    play(&rt, alloc, "calls", &usual(), ISS, &CALLS_LINES)
}

const ACTIVE_OPENINGS_UP: [Line; 17] = [
    Line::Connect,
    Line::Frame(SYN, ISS, 0, OWN, b""),
    Line::Deadline(Some(200)),
    Line::Left(State::SynSent, 0, 1, 0, 0, 65_535),
    Line::Sendv(b"x"),
    Line::Ret(Ret::BadHandle),
    Line::Seg(ACK, 0x1000, 0x51cc_c178, PEER, b""),
    Line::Frame(RST, 0x51cc_c178, 0, 0, b""),
    Line::Seg(SYN, 0x1000, 0, PEER, b""),
    Line::Seg(RST, 0x1000, 0, PEER, b""),
    Line::Seg(SYN_ACK, 0x1000, 0x51cc_c179, PEER, b"ignored"),
    Line::Told(Told::ConnectedUp),
    Line::Accept,
    Line::Ret(Ret::NotKnocked),
    Line::Flush,
    Line::Frame(ACK, 0x51cc_c179, 0x1001, OWN, b""),
    Line::Left(State::Established, 1, 1, 1, 2144, 65_535),
];

const ACTIVE_OPENINGS_REFUSED: [Line; 5] = [
    Line::Connect,
    Line::Frame(SYN, ISS, 0, OWN, b""),
    Line::Seg(RST + ACK, 0, 0x51cc_c179, 0, b""),
    Line::Told(Told::ConnectedRefused),
    Line::Left(State::Closed, 0, 1, 0, 0, 65_535),
];

const ACTIVE_OPENINGS_SLOW: [Line; 8] = [
    Line::Connect,
    Line::Frame(SYN, ISS, 0, OWN, b""),
    Line::At(200),
    Line::Timer,
    Line::Frame(SYN, ISS, 0, OWN, b""),
    Line::Seg(SYN_ACK, 0x1000, 0x51cc_c179, PEER, b""),
    Line::Told(Told::ConnectedUp),
    Line::Left(State::Established, 1, 1, 1, 536, 65_535),
];

const ACTIVE_OPENINGS_SILENT: [Line; 6] = [
    Line::Connect,
    Line::Frame(SYN, ISS, 0, OWN, b""),
    Line::At(200),
    Line::Timer,
    Line::Told(Told::ConnectedTimeout),
    Line::Left(State::Closed, 0, 1, 0, 0, 65_535),
];

#[test]
fn active_openings(rt: HostRuntime) -> Result<(), NoMemory> {
    let alloc = rt.alloc();
    play(&rt, alloc, "up", &usual(), ISS, &ACTIVE_OPENINGS_UP)?;
    play(
        &rt,
        alloc,
        "refused",
        &usual(),
        ISS,
        &ACTIVE_OPENINGS_REFUSED,
    )?;
    play(&rt, alloc, "slow", &usual(), ISS, &ACTIVE_OPENINGS_SLOW)?;
    let hasty = Cfg {
        retries: 1,
        ..usual()
    };
    play(&rt, alloc, "silent", &hasty, ISS, &ACTIVE_OPENINGS_SILENT)
}

#[test]
fn initial_windows(rt: HostRuntime) -> Result<(), NoMemory> {
    let alloc = rt.alloc();
    for (mss, cwnd) in [
        (Some(9000), 4380),
        (Some(1460), 4380),
        (Some(1096), 3288),
        (Some(1095), 4380),
        (None, 2144),
        (Some(64), 256),
        (Some(1), 256),
    ] {
        let lines = [
            Line::Syn(mss),
            Line::Frame(SYN_ACK, ISS, 0x1001, OWN, b""),
            Line::Left(State::SynReceived, 0, 1, 1, cwnd, 65_535),
        ];
        play(&rt, alloc, "initial window", &usual(), ISS, &lines)?;
    }
    Ok(())
}
