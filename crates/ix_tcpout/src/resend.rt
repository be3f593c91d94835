// The first unacknowledged segment, once more.
ghost use Rattle.std.specs.Prelude.{◌≡◌};
ghost use Rattle.ix_tcpout.specs.Heads.{first_again as first_again_of, again_in, sent_bytes as sent_bytes_of};

use crate::cycle::flight;
use crate::heads::{bare, bytes, syn, syn_ack};
use crate::outs::OutSeg;
use ix_base::{ACK, FIN};
use ix_tcpdef::{Cfg, State, Tcb};

/// How many bytes were sent and are not acknowledged.
fn sent_bytes(tcb: &Tcb) -> u32
    ensures { result ≡ sent_bytes_of tcb.now }
{
    flight(tcb).min(tcb.queued)
}

/// The first of so many bytes in one segment, or the FIN where there are none.
fn first_again(cfg: &Cfg, tcb: &Tcb, sent: u32) -> OutSeg
    ensures { result ≡ first_again_of cfg.now tcb.now sent }
{
    if sent == 0 {
        return bare(cfg, tcb, tcb.una, FIN + ACK);
    }
    let mss = tcb.mss;
    bytes(cfg, tcb, 0, u32::from(mss).min(sent) as u16)
}

/// The first unacknowledged segment of the connection that the numbers stand for: the SYN or the SYN-ACK; or bytes at SND.UNA, as many as one segment takes; or the FIN.
pub fn again(cfg: &Cfg, tcb: &Tcb) -> OutSeg
    ensures { result ≡ again_in tcb.now.state cfg.now tcb.now }
{
    match tcb.state {
        State::SynSent => syn(cfg, tcb),
        State::SynReceived => syn_ack(cfg, tcb),
        _ => first_again(cfg, tcb, sent_bytes(tcb)),
    }
}
