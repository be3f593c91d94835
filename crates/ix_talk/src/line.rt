// The lines of a conversation.
ghost use Rattle.std.specs.Prelude.{◌≤◌, IfOk, IfSome, length};
ghost use Rattle.ix_tcpdef.specs.Sound.{IsWritten};

use ix_base::{Bytes, Flow, NoMemory, Ret, SYN, Seg, SegHead, WireNo};
use ix_tcpdef::{Ask, BEHIND_HEADER, BEHIND_SYN, Input, Output, State, Told};
use std::alloc::Global;

/// What happens to the connection, or what it must give then.
#[derive(Clone, Copy)]
pub enum Line {
    /// From now on it is this tick.
    At(u64),
    /// A segment: flags, sequence number, acknowledgement, window and body. They are numbered from 0.
    Seg(u8, u32, u32, u16, &'static [u8]),
    /// A SYN at 00001000 of a peer with this maximum segment size.
    Syn(Option<u16>),
    Timer,
    Flush,
    Connect,
    Accept,
    Sendv(&'static [u8]),
    RecvDone(u32),
    Close,
    /// A frame: flags, sequence number, acknowledgement, window and body.
    Frame(u8, u32, u32, u16, &'static [u8]),
    Told(Told),
    Ret(Ret),
    /// State, SND.UNA, SND.NXT, RCV.NXT, cwnd and ssthresh.
    Left(State, u64, u64, u64, u32, u32),
    Deadline(Option<u64>),
    /// The wire number of a held segment, by its place.
    Held(usize, Option<WireNo>),
}

/// The largest body of a line.
const MOST: usize = 1460;

const PEER_WINDOW: u16 = 64_240;

/// The peer's hardware address.
pub const MAC: [u8; 6] = [2, 0, 0, 0, 0, 2];

/// The flow of every conversation.
pub fn flow() -> Flow {
    Flow {
        remote: 0x4209_95bb,
        local: 0xa18e_6450,
        remote_port: 2794,
        local_port: 1766,
    }
}

// Where a body begins behind these flags.
fn place_of(flags: u8) -> u16
    ensures { result ≤ 58 }
{
    if flags & SYN != 0 {
        BEHIND_SYN
    } else {
        BEHIND_HEADER
    }
}

fn segment(
    alloc: Global,
    w: u32,
    flags: u8,
    seq: u32,
    ack: u32,
    window: u16,
    mss: Option<u16>,
    body: &[u8],
) -> Result<Input, NoMemory>
    requires { length body.now ≤ 1460 }
    ensures { IfOk result IsWritten }
{
    let head = SegHead {
        flow: flow(),
        peer_mac: MAC,
        seq,
        ack,
        flags,
        window,
        mss,
        len: body.len() as u16,
        at: place_of(flags),
    };
    Ok(Input::Segment {
        w: WireNo(w),
        seg: Seg {
            head,
            body: Bytes::from_slice(alloc, body)?,
        },
    })
}

/// What a line makes happen, or None where it says what must be. A segment has this wire number.
pub fn input_of(alloc: Global, line: Line, w: u32) -> Result<Option<Input>, NoMemory>
    ensures { IfOk result (λ i. IfSome i IsWritten) }
{
    let input = match line {
        Line::Seg(flags, seq, ack, window, body) => {
            if body.len() > MOST {
                return Ok(None);
            }
            segment(alloc, w, flags, seq, ack, window, None, body)?
        }
        Line::Syn(mss) => segment(alloc, w, SYN, 0x1000, 0, PEER_WINDOW, mss, b"")?,
        Line::Timer => Input::Timer,
        Line::Flush => Input::Flush,
        Line::Connect => Input::Call(Ask::Connect),
        Line::Accept => Input::Call(Ask::Accept),
        Line::Sendv(bytes) => Input::Call(Ask::Sendv {
            bytes: Bytes::from_slice(alloc, bytes)?,
        }),
        Line::RecvDone(bytes) => Input::Call(Ask::RecvDone { bytes }),
        Line::Close => Input::Call(Ask::Close),
        _ => return Ok(None),
    };
    Ok(Some(input))
}

/// Whether an output is what a line says.
pub fn is_output(output: &Output, line: Line) -> bool {
    match (output, line) {
        (Output::Frame(seg), Line::Frame(flags, seq, ack, window, body)) => {
            is_frame(seg, flags, seq, ack, window, body)
        }
        (Output::Told(told), Line::Told(expected)) => *told == expected,
        (Output::Ret(ret), Line::Ret(expected)) => *ret == expected,
        _ => false,
    }
}

fn is_frame(seg: &Seg, flags: u8, seq: u32, ack: u32, window: u16, body: &[u8]) -> bool {
    let head = &seg.head;
    head.flags == flags
        && head.seq == seq
        && head.ack == ack
        && head.window == window
        && head.flow == flow()
        && head.peer_mac == MAC
        && head.mss.is_some() == (flags & SYN != 0)
        && head.at == place_of(flags)
        && usize::from(head.len) == body.len()
        && seg.body.as_slice() == body
}
