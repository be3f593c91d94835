// The heads of segments that are sent at once.
ghost use Rattle.std.specs.Prelude.{◌≡◌};
ghost use Rattle.ix_tcpin.specs.Heads.{
  ack_head as ack_head_of,
  reset_head as reset_head_of,
  syn_ack_head as syn_ack_head_of,
};

use ix_base::{ACK, RST, SYN, SegHead, SeqNumber};
use ix_tcpdef::{BEHIND_HEADER, BEHIND_SYN, Cfg, Tcb, offered_window};

/// An acknowledgement of its own.
pub fn ack_head(cfg: &Cfg, tcb: &Tcb) -> SegHead
    ensures { result ≡ ack_head_of cfg.now tcb.now }
{
    SegHead {
        flow: tcb.flow,
        peer_mac: tcb.peer_mac,
        seq: tcb.nxt,
        ack: tcb.rcv_nxt,
        flags: ACK,
        window: offered_window(cfg, tcb.unread),
        mss: None,
        len: 0,
        at: BEHIND_HEADER,
    }
}

/// The answer to an acknowledgement of what was not sent.
pub fn reset_head(tcb: &Tcb, head: &SegHead) -> SegHead
    ensures { result ≡ reset_head_of tcb.now head.now }
{
    SegHead {
        flow: tcb.flow,
        peer_mac: tcb.peer_mac,
        seq: head.ack,
        ack: 0,
        flags: RST,
        window: 0,
        mss: None,
        len: 0,
        at: BEHIND_HEADER,
    }
}

/// The SYN-ACK of a passive opening.
pub fn syn_ack_head(cfg: &Cfg, tcb: &Tcb) -> SegHead
    ensures { result ≡ syn_ack_head_of cfg.now tcb.now }
{
    SegHead {
        flow: tcb.flow,
        peer_mac: tcb.peer_mac,
        seq: SeqNumber(tcb.iss).at(0).0,
        ack: tcb.rcv_nxt,
        flags: SYN + ACK,
        window: offered_window(cfg, tcb.unread),
        mss: Some(cfg.mss),
        len: 0,
        at: BEHIND_SYN,
    }
}
