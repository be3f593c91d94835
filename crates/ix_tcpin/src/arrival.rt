// Arrival of a segment.
ghost use Rattle.std.specs.Prelude.{◌≡◌, ℕ, ◌≤◌, ◌<◌, ◌-◌, ◌++◌, [], drop, insert};
ghost use Rattle.arrayvec.specs.ArrayVec.{array_vec_len};
ghost use Rattle.ix_base.specs.declared.id.WireNo.{WireNo as AWireNo};
ghost use Rattle.ix_base.specs.declared.segment.Seg.{Seg as ASeg};
ghost use Rattle.ix_tcpdef.specs.Connection.{acked_data};
ghost use Rattle.ix_tcpdef.specs.Sound.{FitsPeer};
ghost use Rattle.ix_tcpdef.specs.Step.{step};
ghost use Rattle.ix_tcpdef.specs.declared.types.Connection.{Connection};
ghost use Rattle.ix_tcpdef.specs.declared.types.Input.TheVariants as inputs;
ghost use Rattle.ix_tcpdef.specs.Arrivals.{held_place as place_of};
ghost use Rattle.ix_tcpdef.specs.Stands.{send_queue, StandsFor};
ghost use Rattle.ix_tcpin.specs.declared.verdict.Take.TheVariants as takes;
ghost use Rattle.ix_tcpin.specs.Work.{work, work_of};
ghost use Rattle.ix_tcpin.specs.Verdict.{
  Meets,
  outputs_of,
  pieces_of,
  held_of,
  held_at,
  body_held,
  take_of,
  has_ended,
  LiesWithin,
};
ghost use Rattle.ix_tcpin.specs.Arrived.{checked_part, arrived_part};

use crate::acknowledgement::acknowledgement;
use crate::checks::{acceptability, past_expected, reset, synchronize, unacknowledged};
use crate::opening::{opening, syn_sent};
use crate::text::{place_among, take_text};
use crate::verdict::Verdict;
use ix_base::{SegHead, SeqNumber};
use ix_tcpdef::{Cfg, State, Tcb, arrivals_keep, numbers_stand_on};

/// A segment in SYN-RECEIVED and later, check by check. The third check is of security, the sixth of urgent data; there is none of either.
#[tactic(auto, unfolding(crate::specs::Arrived::checked_part))]
fn check(cfg: &Cfg, head: &SegHead, now: u64, tcb: &mut Tcb, verdict: &mut Verdict)
    requires mss { 64 ≤ tcb.old.mss }
    requires cwnd { 0 < tcb.old.cwnd }
    requires told { verdict.old.told.items ≡ [] }
    ensures { work tcb.new verdict.new ≡ work_of (checked_part cfg.now head.now now (work tcb.old verdict.old)) }
{
    if acceptability(cfg, head, now, tcb, verdict) {
        return;
    }
    if reset(cfg, head, tcb, verdict) {
        return;
    }
    if synchronize(cfg, head, tcb, verdict) {
        return;
    }
    if unacknowledged(head, tcb, verdict) {
        return;
    }
    if acknowledgement(cfg, head, now, tcb, verdict) {
        return;
    }
    take_text(cfg, head, now, tcb, verdict);
}

/// A segment, by the state.
#[tactic(auto, unfolding(crate::specs::Arrived::arrived_part))]
fn take(cfg: &Cfg, head: &SegHead, now: u64, tcb: &mut Tcb, verdict: &mut Verdict)
    requires peer { FitsPeer tcb.old.state tcb.old.mss tcb.old.wnd tcb.old.cwnd tcb.old.ssthresh }
    requires told { verdict.old.told.items ≡ [] }
    ensures { work tcb.new verdict.new ≡ arrived_part cfg.now head.now now (work tcb.old verdict.old) }
{
    match tcb.state {
        State::Closed => {}
        State::Listen => opening(cfg, head, now, tcb, verdict),
        State::SynSent => syn_sent(cfg, head, tcb, verdict),
        _ => check(cfg, head, now, tcb, verdict),
    }
}

/// How many held segments stand before a part of the body of this segment, where the verdict on it holds one: there the new one is inserted
/// among them. The numbers are those before the segment.
pub fn held_place(cfg: &Cfg, tcb: &Tcb, head: &SegHead) -> usize
    ensures within { result ≤ array_vec_len tcb.now.held }
    ensures value { (w : Connection) (seg : ASeg) → Meets cfg.now tcb.now head.now w seg → result ≡ place_of (held_at w seg) w.held }
{
    let _window = cfg.window; // a proof knows the range of what is read
    let expected = SeqNumber(tcb.rcv_nxt);
    place_among(expected, past_expected(tcb, head), tcb.held.as_slice())
}

/// A segment arrives, of which the head is given. Of every connection that the numbers stand for, and of every segment with this head, they
/// stand for the connection after its step, and the verdict says what that step did.
pub fn arrive(cfg: &Cfg, tcb: &mut Tcb, head: &SegHead, now: u64) -> Verdict
    requires { FitsPeer tcb.old.state tcb.old.mss tcb.old.wnd tcb.old.cwnd tcb.old.ssthresh }
    ensures stands { (w : Connection) (n : AWireNo) (seg : ASeg) → Meets cfg.now tcb.old head.now w seg → StandsFor cfg.now tcb.new (step cfg.now w (inputs.Segment n seg) now).connection }
    ensures outputs { (w : Connection) (n : AWireNo) (seg : ASeg) → Meets cfg.now tcb.old head.now w seg → outputs_of w n seg result ≡ (step cfg.now w (inputs.Segment n seg) now).outputs }
    ensures pieces { (w : Connection) (n : AWireNo) (seg : ASeg) → Meets cfg.now tcb.old head.now w seg → (step cfg.now w (inputs.Segment n seg) now).connection.pieces ≡ w.pieces ++ pieces_of w n seg result }
    ensures held { (w : Connection) (n : AWireNo) (seg : ASeg) → Meets cfg.now tcb.old head.now w seg → (step cfg.now w (inputs.Segment n seg) now).connection.held ≡ held_of w n seg result }
    ensures placed { (w : Connection) (n : AWireNo) (seg : ASeg) (from to : ℕ) → Meets cfg.now tcb.old head.now w seg → result.take ≡ takes.Hold from to → (step cfg.now w (inputs.Segment n seg) now).connection.held ≡ insert w.held (place_of (held_at w seg) w.held) (body_held w n seg from to) }
    ensures take { (w : Connection) (n : AWireNo) (seg : ASeg) → Meets cfg.now tcb.old head.now w seg → result.take ≡ take_of cfg.now w seg now }
    ensures acked { (w : Connection) (n : AWireNo) (seg : ASeg) → Meets cfg.now tcb.old head.now w seg → result.acked ≡ acked_data (step cfg.now w (inputs.Segment n seg) now).connection - acked_data w }
    ensures queue { (w : Connection) (n : AWireNo) (seg : ASeg) → Meets cfg.now tcb.old head.now w seg → send_queue (step cfg.now w (inputs.Segment n seg) now).connection ≡ drop result.acked (send_queue w) }
    ensures ended { (w : Connection) (n : AWireNo) (seg : ASeg) → Meets cfg.now tcb.old head.now w seg → result.ended ≡ has_ended w (step cfg.now w (inputs.Segment n seg) now).connection }
    ensures ranges { LiesWithin head.now.len tcb.old.held.items tcb.old.queued result }
{
    // The laws by which the numbers stand for the next connection, and by which a step keeps what connections keep on its way.
    numbers_stand_on();
    arrivals_keep();
    // A proof knows the range of what is read.
    let _window = cfg.window;
    let _ack = head.ack;
    let _peer_window = head.window;
    let mut verdict = Verdict::blank(tcb.held.as_slice());
    take(cfg, head, now, tcb, &mut verdict);
    verdict
}
