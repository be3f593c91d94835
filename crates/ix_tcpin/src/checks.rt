// The first checks of a segment in SYN-RECEIVED and later.
ghost use Rattle.std.specs.Prelude.{◌≡◌, ◌≤◌, ◌+◌, ◌^◌, ◌-ℤ◌, ◌≤ℤ◌, ◌<ℤ◌, pos, false};
ghost use Rattle.arrayvec.specs.ArrayVec.{array_vec_len};
ghost use Rattle.ix_base.specs.Sequence.{past_of};
ghost use Rattle.ix_tcpin.specs.Work.{work, course};
ghost use Rattle.ix_tcpin.specs.Checks.{
  distance as distance_of,
  acceptability_part,
  reset_part,
  synchronize_part,
  unacknowledged_part,
};

use crate::heads::ack_head;
use crate::verdict::Verdict;
use crate::words::{end, tell};
use ix_base::{ACK, FIN, RST, SYN, SegHead, SeqNumber, has_flag, past};
use ix_tcpdef::{Cfg, Tcb, Told, is_acceptable, later, offered_window, span};

/// How far a segment begins past what is expected.
pub fn distance(tcb: &Tcb, head: &SegHead) -> i64
    ensures value { result ≡ distance_of tcb.now head.now }
    ensures low { (pos 0 -ℤ pos (2 ^ 31)) ≤ℤ result }
    ensures high { result <ℤ pos (2 ^ 31) }
{
    SeqNumber(tcb.rcv_nxt).offset(SeqNumber(head.seq))
}

/// How far a segment begins past what is expected; 0 where it begins before it.
pub fn past_expected(tcb: &Tcb, head: &SegHead) -> u32
    ensures { result ≡ past_of (distance_of tcb.now head.now) }
{
    past(distance(tcb, head)) as u32
}

/// First: the sequence number. Each check answers whether the segment is done with.
#[tactic(auto, unfolding(crate::specs::Checks::acceptability_part))]
pub fn acceptability(
    cfg: &Cfg,
    head: &SegHead,
    now: u64,
    tcb: &mut Tcb,
    verdict: &mut Verdict,
) -> bool
    ensures numbers { result ≡ false → tcb.new ≡ tcb.old }
    ensures verdict { result ≡ false → verdict.new ≡ verdict.old }
    ensures step { course result (work tcb.new verdict.new) ≡ acceptability_part cfg.now head.now now (work tcb.old verdict.old) }
{
    if is_acceptable(
        span(head),
        offered_window(cfg, tcb.unread),
        distance(tcb, head),
    ) {
        return false;
    }
    if has_flag(head.flags, RST) {
        return true;
    }
    verdict.reply = Some(ack_head(cfg, tcb));
    if has_flag(head.flags, FIN) && tcb.state.is_time_wait() {
        tcb.deadline = Some(later(now, cfg.time_wait));
    }
    true
}

/// Second: the RST bit.
#[tactic(auto, unfolding(crate::specs::Checks::reset_part))]
pub fn reset(cfg: &Cfg, head: &SegHead, tcb: &mut Tcb, verdict: &mut Verdict) -> bool
    requires { array_vec_len verdict.old.told ≤ 3 }
    ensures numbers { result ≡ false → tcb.new ≡ tcb.old }
    ensures verdict { result ≡ false → verdict.new ≡ verdict.old }
    ensures step { course result (work tcb.new verdict.new) ≡ reset_part cfg.now head.now (work tcb.old verdict.old) }
{
    if !has_flag(head.flags, RST) {
        return false;
    }
    if head.seq == tcb.rcv_nxt {
        end(tcb, verdict);
        tell(Told::DeadReset, tcb, verdict);
        return true;
    }
    verdict.reply = Some(ack_head(cfg, tcb));
    true
}

/// Fourth: the SYN bit.
#[tactic(auto, unfolding(crate::specs::Checks::synchronize_part))]
pub fn synchronize(cfg: &Cfg, head: &SegHead, tcb: &mut Tcb, verdict: &mut Verdict) -> bool
    ensures numbers { result ≡ false → tcb.new ≡ tcb.old }
    ensures verdict { result ≡ false → verdict.new ≡ verdict.old }
    ensures step { course result (work tcb.new verdict.new) ≡ synchronize_part cfg.now head.now (work tcb.old verdict.old) }
{
    if !has_flag(head.flags, SYN) {
        return false;
    }
    if tcb.state.is_syn_received() {
        end(tcb, verdict);
        return true;
    }
    verdict.reply = Some(ack_head(cfg, tcb));
    true
}

/// Fifth: whether there is an acknowledgement.
#[tactic(auto, unfolding(crate::specs::Checks::unacknowledged_part))]
pub fn unacknowledged(head: &SegHead, tcb: &Tcb, verdict: &Verdict) -> bool
    ensures { course result (work tcb.now verdict.now) ≡ unacknowledged_part head.now (work tcb.now verdict.now) }
{
    !has_flag(head.flags, ACK)
}
