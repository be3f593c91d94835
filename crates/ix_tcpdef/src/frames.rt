// The segments that a connection sends.
ghost use Rattle.std.specs.Prelude.{◌≡◌, ◌≤◌, ◌<◌, ◌+◌, ◌^◌, length, IfOk};
ghost use Rattle.ix_tcpdef.specs.Frames.{
  plain_frame as plain_frame_of,
  ack_frame as ack_frame_of,
  reset_frame as reset_frame_of,
  syn_frame as syn_frame_of,
  syn_ack_frame as syn_ack_frame_of,
  data_frame as data_frame_of,
  fin_frame as fin_frame_of,
};

use crate::connection::{rcv_nxt, rcv_wnd, snd_nxt};
use crate::types::{BEHIND_HEADER, BEHIND_SYN, Cfg, Connection, Output};
use ix_base::{ACK, Bytes, FIN, PSH, RST, SYN, Seg, SegHead, SeqNumber};
use std::alloc::Global;

/// A segment with ACK at this sequence number.
pub fn plain_frame(cfg: &Cfg, w: &Connection, seq: SeqNumber, flags: u8, body: Bytes) -> Output
    requires { length body < 2 ^ 16 }
    ensures { result ≡ plain_frame_of cfg.now w.now seq.0 flags body }
{
    Output::Frame(Seg {
        head: SegHead {
            flow: w.flow,
            peer_mac: w.peer_mac,
            seq: seq.0,
            ack: rcv_nxt(w).0,
            flags,
            window: rcv_wnd(cfg, w),
            mss: None,
            len: body.len() as u16,
            at: BEHIND_HEADER,
        },
        body,
    })
}

/// An acknowledgement of its own.
pub fn ack_frame(alloc: Global, cfg: &Cfg, w: &Connection) -> Output
    ensures { result ≡ ack_frame_of cfg.now w.now }
{
    plain_frame(cfg, w, snd_nxt(w), ACK, Bytes::new(alloc))
}

/// The answer to an acknowledgement of what was not sent.
pub fn reset_frame(alloc: Global, w: &Connection, head: &SegHead) -> Output
    ensures { result ≡ reset_frame_of w.now head.now }
{
    Output::Frame(Seg {
        head: SegHead {
            flow: w.flow,
            peer_mac: w.peer_mac,
            seq: head.ack,
            ack: 0,
            flags: RST,
            window: 0,
            mss: None,
            len: 0,
            at: BEHIND_HEADER,
        },
        body: Bytes::new(alloc),
    })
}

/// The SYN of an active opening.
pub fn syn_frame(alloc: Global, cfg: &Cfg, w: &Connection) -> Output
    ensures { result ≡ syn_frame_of cfg.now w.now }
{
    Output::Frame(Seg {
        head: SegHead {
            flow: w.flow,
            peer_mac: w.peer_mac,
            seq: SeqNumber(w.iss).at(0).0,
            ack: 0,
            flags: SYN,
            window: rcv_wnd(cfg, w),
            mss: Some(cfg.mss),
            len: 0,
            at: BEHIND_SYN,
        },
        body: Bytes::new(alloc),
    })
}

/// The SYN-ACK of a passive opening.
pub fn syn_ack_frame(alloc: Global, cfg: &Cfg, w: &Connection) -> Output
    ensures { result ≡ syn_ack_frame_of cfg.now w.now }
{
    Output::Frame(Seg {
        head: SegHead {
            flow: w.flow,
            peer_mac: w.peer_mac,
            seq: SeqNumber(w.iss).at(0).0,
            ack: rcv_nxt(w).0,
            flags: SYN + ACK,
            window: rcv_wnd(cfg, w),
            mss: Some(cfg.mss),
            len: 0,
            at: BEHIND_SYN,
        },
        body: Bytes::new(alloc),
    })
}

/// Bytes of the stream that stand at this position.
pub fn data_frame(cfg: &Cfg, w: &Connection, at: u64, bytes: Bytes) -> Output
    requires len { length bytes < 2 ^ 16 }
    requires first { 1 ≤ at }
    requires end { at + length bytes ≤ 2 ^ 64 }
    ensures { result ≡ data_frame_of cfg.now w.now at bytes }
{
    let ends_queue = at - 1 + bytes.len() as u64 == w.sent.len() as u64;
    let flags = if ends_queue { PSH + ACK } else { ACK };
    plain_frame(cfg, w, SeqNumber(w.iss).at(at), flags, bytes)
}

/// The FIN at this position.
pub fn fin_frame(alloc: Global, cfg: &Cfg, w: &Connection, at: u64) -> Output
    ensures { result ≡ fin_frame_of cfg.now w.now at }
{
    plain_frame(
        cfg,
        w,
        SeqNumber(w.iss).at(at),
        FIN + ACK,
        Bytes::new(alloc),
    )
}
