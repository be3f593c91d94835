// The acknowledgement of a segment.
ghost use Rattle.std.specs.Prelude.{◌≡◌, ◌≤◌, ◌<◌, ◌+◌, false, true};
ghost use Rattle.arrayvec.specs.ArrayVec.{array_vec_len};
ghost use Rattle.ix_tcpin.specs.Work.{work, course};
ghost use Rattle.ix_tcpin.specs.Acknowledgement.{
  established_numbers,
  establishing_part,
  too_far_part,
  is_repeated as repeated_test,
  threshold as threshold_of,
  duplicated_numbers,
  widened as widened_of,
  acked_bytes as acked_bytes_of,
  advanced_numbers,
  is_later as later_test,
  unpersisted_numbers,
  windowed_numbers,
  room_left as room_left_of,
  sent_part,
  fin_acked_part,
  acked_numbers,
  synchronized_part,
  acknowledgement_part,
};

use crate::heads::{ack_head, reset_head};
use crate::verdict::Verdict;
use crate::words::{announce, end, tell};
use ix_base::{FIN, SegHead, SeqNumber, has_flag};
use ix_tcpdef::{Cfg, DUPLICATES_BEFORE, State, Tcb, Told, grown, later, threshold_after_loss};

/// The connection is established.
fn establish(head: &SegHead, tcb: &mut Tcb)
    ensures { tcb.new ≡ established_numbers head.now tcb.old }
{
    tcb.state = State::Established;
    tcb.una = head.ack;
    tcb.wnd = u32::from(head.window);
    tcb.wl1 = head.seq;
    tcb.wl2 = head.ack;
    tcb.deadline = None;
    tcb.expiries = 0;
    tcb.knocked = true;
}

/// The acknowledgement of the own SYN-ACK.
#[tactic(auto, unfolding(crate::specs::Acknowledgement::establishing_part))]
fn establishing(head: &SegHead, tcb: &mut Tcb, verdict: &mut Verdict) -> bool
    requires { array_vec_len verdict.old.told ≤ 3 }
    ensures few { array_vec_len verdict.new.told ≤ array_vec_len verdict.old.told + 1 }
    ensures step { course result (work tcb.new verdict.new) ≡ establishing_part head.now (work tcb.old verdict.old) }
{
    let ack = SeqNumber(head.ack);
    if !ack.is_past(SeqNumber(tcb.una)) || ack.is_past(SeqNumber(tcb.nxt)) {
        verdict.reply = Some(reset_head(tcb, head));
        return true;
    }
    establish(head, tcb);
    announce(Told::Knock, tcb, verdict);
    false
}

/// An acknowledgement of what was not sent.
#[tactic(auto, unfolding(crate::specs::Acknowledgement::too_far_part))]
fn too_far(cfg: &Cfg, head: &SegHead, tcb: &Tcb, verdict: &mut Verdict) -> bool
    ensures told { verdict.new.told ≡ verdict.old.told }
    ensures step { course result (work tcb.now verdict.new) ≡ too_far_part cfg.now head.now (work tcb.now verdict.old) }
{
    if !SeqNumber(head.ack).is_past(SeqNumber(tcb.nxt)) {
        return false;
    }
    verdict.reply = Some(ack_head(cfg, tcb));
    true
}

/// Whether an acknowledgement says again what was said before (RFC 5681, section 2).
fn is_repeated(head: &SegHead, tcb: &Tcb) -> bool
    ensures { result ≡ repeated_test head.now tcb.now }
{
    head.ack == tcb.una
        && tcb.una != tcb.nxt
        && head.len == 0
        && !has_flag(head.flags, FIN)
        && u32::from(head.window) == tcb.wnd
}

/// The slow start threshold after a loss (RFC 5681, section 3.1, equation 4).
fn threshold(tcb: &Tcb) -> u32
    ensures { result ≡ threshold_of tcb.now }
{
    let flight = SeqNumber(tcb.una).ahead(SeqNumber(tcb.nxt));
    threshold_after_loss(flight, tcb.mss)
}

/// Counts a duplicate acknowledgement: fast retransmit at the third, and fast recovery from then on (RFC 5681, section 3.2).
#[tactic(auto, unfolding(crate::specs::Acknowledgement::duplicated_numbers))]
fn count_duplicate(head: &SegHead, tcb: &mut Tcb)
    requires mss { 64 ≤ tcb.old.mss }
    requires cwnd { 0 < tcb.old.cwnd }
    ensures cwnd { 0 < tcb.new.cwnd }
    ensures step { tcb.new ≡ duplicated_numbers head.now tcb.old }
{
    if !is_repeated(head, tcb) {
        return;
    }
    let mss = u32::from(tcb.mss);
    if tcb.recovering {
        tcb.cwnd = grown(tcb.cwnd, mss);
        return;
    }
    if tcb.dups != DUPLICATES_BEFORE {
        tcb.dups = tcb.dups.saturating_add(1);
        return;
    }
    let threshold = threshold(tcb);
    tcb.dups = DUPLICATES_BEFORE + 1;
    tcb.ssthresh = threshold;
    tcb.cwnd = grown(threshold, 3 * mss);
    tcb.recovering = true;
    tcb.resend = true;
}

/// The congestion window after so many octets were acknowledged anew (RFC 5681, sections 3.1 and 3.2).
fn widened(octets: u32, tcb: &Tcb) -> u32
    requires { 0 < tcb.now.cwnd }
    ensures { result ≡ widened_of octets tcb.now }
{
    let mss = tcb.mss;
    let mss = u32::from(mss);
    if tcb.recovering {
        tcb.ssthresh
    } else if tcb.cwnd < tcb.ssthresh {
        grown(tcb.cwnd, octets.min(mss))
    } else {
        grown(tcb.cwnd, (mss * mss / tcb.cwnd).max(1))
    }
}

/// How many bytes of the send queue are acknowledged anew.
fn acked_bytes(head: &SegHead, tcb: &Tcb) -> u32
    ensures { result ≡ acked_bytes_of head.now tcb.now }
{
    let una = SeqNumber(tcb.una);
    let ack = SeqNumber(head.ack);
    if ack.is_past(una) {
        una.ahead(ack).min(tcb.queued)
    } else {
        0
    }
}

/// Advances SND.UNA.
#[tactic(auto, unfolding(crate::specs::Acknowledgement::advanced_numbers))]
fn advance(cfg: &Cfg, head: &SegHead, now: u64, tcb: &mut Tcb)
    requires { 0 < tcb.old.cwnd }
    ensures { tcb.new ≡ advanced_numbers cfg.now head.now now tcb.old }
{
    let una = SeqNumber(tcb.una);
    let ack = SeqNumber(head.ack);
    if !ack.is_past(una) {
        return;
    }
    let octets = una.ahead(ack);
    tcb.cwnd = widened(octets, tcb);
    tcb.recovering = false;
    tcb.dups = 0;
    tcb.resend = false;
    tcb.una = head.ack;
    tcb.queued = tcb.queued.saturating_sub(octets);
    tcb.expiries = 0;
    tcb.deadline = if head.ack == tcb.nxt {
        None
    } else {
        Some(later(now, cfg.rto))
    };
}

/// Whether a segment is newer than the one that the window was taken from.
fn is_later(head: &SegHead, tcb: &Tcb) -> bool
    ensures { result ≡ later_test head.now tcb.now }
{
    let is_last = tcb.wl1 == head.seq;
    SeqNumber(head.seq).is_past(SeqNumber(tcb.wl1))
        || is_last && SeqNumber(head.ack).is_at_or_past(SeqNumber(tcb.wl2))
}

/// Clears the persist timer.
fn unpersist(tcb: &mut Tcb)
    ensures { tcb.new ≡ unpersisted_numbers tcb.old }
{
    tcb.expiries = 0;
    if !tcb.state.is_time_wait() {
        tcb.deadline = None;
    }
}

/// Takes the peer's window.
#[tactic(auto, unfolding(crate::specs::Acknowledgement::windowed_numbers))]
fn take_window(head: &SegHead, before: u32, tcb: &mut Tcb)
    ensures { tcb.new ≡ windowed_numbers head.now before tcb.old }
{
    if !(SeqNumber(head.ack).is_at_or_past(SeqNumber(before)) && is_later(head, tcb)) {
        return;
    }
    tcb.wnd = u32::from(head.window);
    tcb.wl1 = head.seq;
    tcb.wl2 = head.ack;
    if head.window > 0 && tcb.una == tcb.nxt {
        unpersist(tcb);
    }
}

/// How many more bytes the send queue takes.
fn room_left(tcb: &Tcb) -> u32
    ensures { result ≡ room_left_of tcb.now }
{
    tcb.wnd.saturating_sub(tcb.queued)
}

/// Tells of acknowledged bytes, and of room that was waited for.
#[tactic(auto, unfolding(crate::specs::Acknowledgement::sent_part))]
fn tell_sent(n: u32, tcb: &mut Tcb, verdict: &mut Verdict)
    requires { array_vec_len verdict.old.told ≤ 3 }
    ensures few { array_vec_len verdict.new.told ≤ array_vec_len verdict.old.told + 1 }
    ensures step { work tcb.new verdict.new ≡ sent_part n (work tcb.old verdict.old) }
{
    let room = room_left(tcb);
    if n == 0 && !(tcb.wants && room > 0) {
        return;
    }
    tcb.wants = false;
    let told = Told::Sent {
        bytes: n,
        window: room,
    };
    tell(told, tcb, verdict);
}

/// The own FIN may be acknowledged.
#[tactic(auto, unfolding(crate::specs::Acknowledgement::fin_acked_part))]
fn fin_acked(cfg: &Cfg, now: u64, tcb: &mut Tcb, verdict: &mut Verdict) -> bool
    ensures told { verdict.new.told ≡ verdict.old.told }
    ensures step { course result (work tcb.new verdict.new) ≡ fin_acked_part cfg.now now (work tcb.old verdict.old) }
{
    if !(tcb.fin_sent && tcb.una == tcb.nxt) {
        return false;
    }
    match tcb.state {
        State::FinWait1 => {
            tcb.state = State::FinWait2;
            false
        }
        State::Closing => {
            tcb.state = State::TimeWait;
            tcb.deadline = Some(later(now, cfg.time_wait));
            false
        }
        State::LastAck => {
            end(tcb, verdict);
            true
        }
        _ => false,
    }
}

/// Takes an acknowledgement of something that was sent.
#[tactic(auto, unfolding(crate::specs::Acknowledgement::acked_numbers))]
fn acknowledge(cfg: &Cfg, head: &SegHead, now: u64, tcb: &mut Tcb)
    requires mss { 64 ≤ tcb.old.mss }
    requires cwnd { 0 < tcb.old.cwnd }
    ensures { tcb.new ≡ acked_numbers cfg.now head.now now tcb.old }
{
    let before = tcb.una;
    count_duplicate(head, tcb);
    advance(cfg, head, now, tcb);
    take_window(head, before, tcb);
}

/// The acknowledgement in the states behind the handshake.
#[tactic(auto, unfolding(crate::specs::Acknowledgement::synchronized_part))]
fn synchronized(cfg: &Cfg, head: &SegHead, now: u64, tcb: &mut Tcb, verdict: &mut Verdict) -> bool
    requires mss { 64 ≤ tcb.old.mss }
    requires cwnd { 0 < tcb.old.cwnd }
    requires told { array_vec_len verdict.old.told ≤ 3 }
    ensures few { array_vec_len verdict.new.told ≤ array_vec_len verdict.old.told + 1 }
    ensures step { course result (work tcb.new verdict.new) ≡ synchronized_part cfg.now head.now now (work tcb.old verdict.old) }
{
    if too_far(cfg, head, tcb, verdict) {
        return true;
    }
    let n = acked_bytes(head, tcb);
    acknowledge(cfg, head, now, tcb);
    verdict.acked = n;
    tell_sent(n, tcb, verdict);
    fin_acked(cfg, now, tcb, verdict)
}

/// Fifth: the acknowledgement. Answers whether the segment is done with.
#[tactic(auto, unfolding(crate::specs::Acknowledgement::acknowledgement_part))]
pub fn acknowledgement(
    cfg: &Cfg,
    head: &SegHead,
    now: u64,
    tcb: &mut Tcb,
    verdict: &mut Verdict,
) -> bool
    requires mss { 64 ≤ tcb.old.mss }
    requires cwnd { 0 < tcb.old.cwnd }
    requires told { array_vec_len verdict.old.told ≤ 3 }
    ensures few { array_vec_len verdict.new.told ≤ array_vec_len verdict.old.told + 1 }
    ensures step { course result (work tcb.new verdict.new) ≡ acknowledgement_part cfg.now head.now now (work tcb.old verdict.old) }
{
    if tcb.state.is_syn_received() {
        return establishing(head, tcb, verdict);
    }
    synchronized(cfg, head, now, tcb, verdict)
}
