// Segments over numbers.
ghost use Rattle.std.specs.Prelude.{◌≡◌, ◌<◌, ◌+◌, ◌^◌};
ghost use Rattle.ix_tcpout.specs.Heads.{
  bare as bare_of,
  bytes as bytes_of,
  syn as syn_of,
  syn_ack as syn_ack_of,
};

use crate::outs::OutSeg;
use ix_base::{ACK, PSH, SYN, SegHead, SeqNumber};
use ix_tcpdef::{BEHIND_HEADER, BEHIND_SYN, Cfg, Tcb, offered_window};

/// A segment without a body that acknowledges what came.
pub fn bare(cfg: &Cfg, tcb: &Tcb, seq: u32, flags: u8) -> OutSeg
    ensures { result ≡ bare_of cfg.now tcb.now seq flags }
{
    let head = SegHead {
        flow: tcb.flow,
        peer_mac: tcb.peer_mac,
        seq,
        ack: tcb.rcv_nxt,
        flags,
        window: offered_window(cfg, tcb.unread),
        mss: None,
        len: 0,
        at: BEHIND_HEADER,
    };
    OutSeg {
        head,
        from: 0,
        to: 0,
    }
}

/// So many bytes of the send queue from this place on. PSH is set where they end it.
pub fn bytes(cfg: &Cfg, tcb: &Tcb, from: u32, len: u16) -> OutSeg
    requires { from + len < 2 ^ 32 }
    ensures { result ≡ bytes_of cfg.now tcb.now from len }
{
    let to = from + u32::from(len);
    let flags = if to == tcb.queued { PSH + ACK } else { ACK };
    let head = SegHead {
        flow: tcb.flow,
        peer_mac: tcb.peer_mac,
        seq: SeqNumber(tcb.una).advanced(from).0,
        ack: tcb.rcv_nxt,
        flags,
        window: offered_window(cfg, tcb.unread),
        mss: None,
        len,
        at: BEHIND_HEADER,
    };
    OutSeg { head, from, to }
}

/// The SYN of an active opening.
pub fn syn(cfg: &Cfg, tcb: &Tcb) -> OutSeg
    ensures { result ≡ syn_of cfg.now tcb.now }
{
    let head = SegHead {
        flow: tcb.flow,
        peer_mac: tcb.peer_mac,
        seq: SeqNumber(tcb.iss).at(0).0,
        ack: 0,
        flags: SYN,
        window: offered_window(cfg, tcb.unread),
        mss: Some(cfg.mss),
        len: 0,
        at: BEHIND_SYN,
    };
    OutSeg {
        head,
        from: 0,
        to: 0,
    }
}

/// The SYN-ACK of a passive opening.
pub fn syn_ack(cfg: &Cfg, tcb: &Tcb) -> OutSeg
    ensures { result ≡ syn_ack_of cfg.now tcb.now }
{
    let head = SegHead {
        flow: tcb.flow,
        peer_mac: tcb.peer_mac,
        seq: SeqNumber(tcb.iss).at(0).0,
        ack: tcb.rcv_nxt,
        flags: SYN + ACK,
        window: offered_window(cfg, tcb.unread),
        mss: Some(cfg.mss),
        len: 0,
        at: BEHIND_SYN,
    };
    OutSeg {
        head,
        from: 0,
        to: 0,
    }
}
