// How a connection opens.
ghost use Rattle.std.specs.Prelude.{◌≡◌, ◌≤◌};
ghost use Rattle.arrayvec.specs.ArrayVec.{array_vec_len};
ghost use Rattle.ix_tcpin.specs.Work.{work};
ghost use Rattle.ix_tcpin.specs.Opening.{
  passive_numbers,
  opening_part,
  connected_numbers,
  syn_sent_part,
};

use crate::heads::{reset_head, syn_ack_head};
use crate::verdict::Verdict;
use crate::words::{announce, end};
use ix_base::{ACK, RST, SYN, SegHead, SeqNumber, has_flag};
use ix_tcpdef::{Cfg, FIRST_THRESHOLD, State, Tcb, Told, initial_window, later, opens, send_mss};

/// The peer's SYN is taken.
fn open(cfg: &Cfg, head: &SegHead, now: u64, tcb: &mut Tcb)
    ensures { tcb.new ≡ passive_numbers cfg.now head.now now tcb.old }
{
    let mss = send_mss(cfg, head.mss);
    tcb.state = State::SynReceived;
    tcb.irs = head.seq;
    tcb.mss = mss;
    tcb.una = SeqNumber(tcb.iss).at(0).0;
    tcb.nxt = SeqNumber(tcb.iss).at(1).0;
    tcb.rcv_nxt = SeqNumber(head.seq).at(1).0;
    tcb.wnd = u32::from(head.window);
    tcb.wl1 = head.seq;
    tcb.wl2 = tcb.iss;
    tcb.cwnd = initial_window(mss);
    tcb.ssthresh = FIRST_THRESHOLD;
    tcb.deadline = Some(later(now, cfg.rto));
}

/// A segment before the opening.
#[tactic(auto, unfolding(crate::specs::Opening::opening_part))]
pub fn opening(cfg: &Cfg, head: &SegHead, now: u64, tcb: &mut Tcb, verdict: &mut Verdict)
    ensures { work tcb.new verdict.new ≡ opening_part cfg.now head.now now (work tcb.old verdict.old) }
{
    if !opens(head) {
        return;
    }
    open(cfg, head, now, tcb);
    verdict.reply = Some(syn_ack_head(cfg, tcb));
}

/// The peer's SYN-ACK is taken. After a loss of the SYN the congestion window is one segment (RFC 5681, section 3.1).
fn connect(cfg: &Cfg, head: &SegHead, tcb: &mut Tcb)
    ensures { tcb.new ≡ connected_numbers cfg.now head.now tcb.old }
{
    let mss = send_mss(cfg, head.mss);
    tcb.state = State::Established;
    tcb.irs = head.seq;
    tcb.mss = mss;
    tcb.una = SeqNumber(tcb.iss).at(1).0;
    tcb.rcv_nxt = SeqNumber(head.seq).at(1).0;
    tcb.wnd = u32::from(head.window);
    tcb.wl1 = head.seq;
    tcb.wl2 = head.ack;
    tcb.cwnd = if tcb.expiries > 0 {
        u32::from(mss)
    } else {
        initial_window(mss)
    };
    tcb.deadline = None;
    tcb.expiries = 0;
    tcb.ack_owed = true;
    tcb.accepted = true;
}

/// A segment in SYN-SENT.
#[tactic(auto, unfolding(crate::specs::Opening::syn_sent_part))]
pub fn syn_sent(cfg: &Cfg, head: &SegHead, tcb: &mut Tcb, verdict: &mut Verdict)
    requires { array_vec_len verdict.old.told ≤ 3 }
    ensures { work tcb.new verdict.new ≡ syn_sent_part cfg.now head.now (work tcb.old verdict.old) }
{
    let has_ack = has_flag(head.flags, ACK);
    let has_reset = has_flag(head.flags, RST);
    if has_ack && head.ack != SeqNumber(tcb.iss).at(1).0 {
        if has_reset {
            return;
        }
        verdict.reply = Some(reset_head(tcb, head));
        return;
    }
    if has_reset {
        if !has_ack {
            return;
        }
        end(tcb, verdict);
        announce(Told::ConnectedRefused, tcb, verdict);
        return;
    }
    if !(has_flag(head.flags, SYN) && has_ack) {
        return;
    }
    connect(cfg, head, tcb);
    announce(Told::ConnectedUp, tcb, verdict);
}
