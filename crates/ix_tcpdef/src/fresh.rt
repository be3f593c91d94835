// The numbers of a connection before its opening.
ghost use Rattle.std.specs.Prelude.{◌≡◌};
ghost use Rattle.ix_tcpdef.specs.Step.{listening};
ghost use Rattle.ix_tcpdef.specs.Stands.{tcb_of};

use crate::opening::{DEFAULT_MSS, FIRST_THRESHOLD};
use crate::types::{State, Tcb};
use arrayvec::ArrayVec;
use ix_base::Flow;

/// The numbers of a connection before its opening, with this initial send sequence number.
pub fn unopened(flow: Flow, peer_mac: [u8; 6], iss: u32) -> Tcb
    ensures { result ≡ tcb_of (listening flow peer_mac iss) }
{
    Tcb {
        flow,
        peer_mac,
        state: State::Listen,
        iss,
        irs: 0,
        una: iss,
        nxt: iss,
        wnd: 0,
        wl1: 0,
        wl2: 0,
        rcv_nxt: 0,
        unread: 0,
        mss: DEFAULT_MSS,
        queued: 0,
        expiries: 0,
        deadline: None,
        held: ArrayVec::new(),
        cwnd: 0,
        ssthresh: FIRST_THRESHOLD,
        dups: 0,
        recovering: false,
        resend: false,
        fin_wanted: false,
        fin_sent: false,
        wants: false,
        ack_owed: false,
        knocked: false,
        accepted: false,
        shut: false,
    }
}
