// What a connection sends at the end of a cycle.
ghost use Rattle.std.specs.Prelude.{◌≡◌, ◌≤◌, ◌<◌, ◌+◌, ◌-◌, ◌*◌, ◌^◌, ◌++◌, true, false, [], length};
ghost use Rattle.arrayvec.specs.ArrayVec.{array_vec_len};
ghost use Rattle.ix_tcpout.specs.Parts.{
  work,
  flight as flight_of,
  unsent_bytes as unsent_of,
  sendable_bytes as sendable_of,
  segments,
  resend_part,
  data_part,
  fin_part,
  ack_part,
  arm_part,
  all_parts,
};
ghost use Rattle.std.specs.List.{All};
ghost use Rattle.ix_tcpdef.specs.Sound.{FitsPeer};
ghost use Rattle.ix_tcpdef.specs.Step.{step};
ghost use Rattle.ix_tcpdef.specs.declared.types.Connection.{Connection};
ghost use Rattle.ix_tcpdef.specs.declared.types.Input.TheVariants as inputs;
ghost use Rattle.ix_tcpdef.specs.Stands.{send_queue, StandsFor};
ghost use Rattle.ix_tcpout.specs.Given.{outputs_of, has_ended, LeavesBytes, LiesIn};

use crate::heads::{bare, bytes};
use crate::outs::{Entries, Outs};
use crate::resend::again;
use ix_base::{ACK, FIN, SeqNumber};
use ix_tcpdef::{Cfg, Tcb, later, numbers_stand_on};

/// How many positions are in flight.
pub fn flight(tcb: &Tcb) -> u32
    ensures { result ≡ flight_of tcb.now }
{
    SeqNumber(tcb.una).ahead(SeqNumber(tcb.nxt))
}

/// How many bytes of the send queue were never sent.
fn unsent_bytes(tcb: &Tcb) -> u32
    ensures { result ≡ unsent_of tcb.now }
{
    let queued = tcb.queued;
    queued.saturating_sub(flight(tcb))
}

/// How many of them both windows let out (RFC 5681, section 3.1).
fn sendable_bytes(tcb: &Tcb) -> u32
    ensures { result ≡ sendable_of tcb.now }
{
    let usable = tcb.wnd.min(tcb.cwnd).saturating_sub(flight(tcb));
    usable.min(unsent_bytes(tcb))
}

/// First: the resend that fast retransmit asked for.
#[tactic(auto, unfolding(crate::specs::Parts::resend_part))]
fn send_again(cfg: &Cfg, tcb: &mut Tcb, entries: &mut Entries)
    requires { entries.old.items ≡ [] }
    ensures few { array_vec_len entries.new ≤ 1 }
    ensures mss { tcb.new.mss ≡ tcb.old.mss }
    ensures window { tcb.new.wnd ≡ tcb.old.wnd }
    ensures numbers { tcb.new ≡ (resend_part cfg.now (work tcb.old entries.old.items)).numbers }
    ensures entries { entries.new.items ≡ (resend_part cfg.now (work tcb.old entries.old.items)).entries }
{
    if !(tcb.resend && tcb.state.resends()) {
        return;
    }
    entries.push(again(cfg, tcb));
    tcb.resend = false;
}

/// So many bytes of the send queue from this place on, in segments.
#[tactic(auto, using(crate::proofs::SegmentLemmas::first_segments))]
fn push_bytes(cfg: &Cfg, tcb: &Tcb, from: u32, left: u32, entries: &mut Entries)
    requires mss { 64 ≤ tcb.now.mss }
    requires few { array_vec_len entries.old ≤ 1 }
    requires window { left ≤ 65535 }
    requires place { from + left < 2 ^ 32 }
    ensures room { array_vec_len entries.new ≤ 1025 }
    ensures value { entries.new.items ≡ entries.old.items ++ segments cfg.now tcb.now left from left }
{
    let mss = u32::from(tcb.mss);
    let mut from = from;
    let mut left = left;
    while left > 0 {
        let n = mss.min(left);
        entries.push(bytes(cfg, tcb, from, n as u16));
        from += n;
        left -= n;
    }
}

/// Second: data that both windows let out.
#[tactic(auto, unfolding(crate::specs::Parts::data_part))]
fn send_data(cfg: &Cfg, tcb: &mut Tcb, entries: &mut Entries)
    requires mss { 64 ≤ tcb.old.mss }
    requires window { tcb.old.wnd ≤ 65535 }
    requires few { array_vec_len entries.old ≤ 1 }
    ensures room { array_vec_len entries.new ≤ 1025 }
    ensures numbers { tcb.new ≡ (data_part cfg.now (work tcb.old entries.old.items)).numbers }
    ensures entries { entries.new.items ≡ (data_part cfg.now (work tcb.old entries.old.items)).entries }
{
    if !tcb.state.sends() {
        return;
    }
    let n = sendable_bytes(tcb);
    push_bytes(cfg, tcb, flight(tcb), n, entries);
    tcb.nxt = SeqNumber(tcb.nxt).advanced(n).0;
}

/// Third: the FIN, behind all data.
#[tactic(auto, unfolding(crate::specs::Parts::fin_part))]
fn send_fin(cfg: &Cfg, tcb: &mut Tcb, entries: &mut Entries)
    requires { array_vec_len entries.old ≤ 1025 }
    ensures numbers { tcb.new ≡ (fin_part cfg.now (work tcb.old entries.old.items)).numbers }
    ensures entries { entries.new.items ≡ (fin_part cfg.now (work tcb.old entries.old.items)).entries }
{
    let due = tcb.state.sends() && tcb.fin_wanted && !tcb.fin_sent && unsent_bytes(tcb) == 0;
    if !due {
        return;
    }
    entries.push(bare(cfg, tcb, tcb.nxt, FIN + ACK));
    tcb.nxt = SeqNumber(tcb.nxt).advanced(1).0;
    tcb.fin_sent = true;
}

/// Fourth: an acknowledgement that is owed, where nothing carried it.
#[tactic(auto, unfolding(crate::specs::Parts::ack_part))]
fn send_ack(cfg: &Cfg, tcb: &mut Tcb, entries: &mut Entries)
    ensures numbers { tcb.new ≡ (ack_part cfg.now (work tcb.old entries.old.items)).numbers }
    ensures entries { entries.new.items ≡ (ack_part cfg.now (work tcb.old entries.old.items)).entries }
{
    let owed = tcb.ack_owed && entries.is_empty();
    tcb.ack_owed = false;
    if !owed {
        return;
    }
    entries.push(bare(cfg, tcb, tcb.nxt, ACK));
}

/// Fifth: the deadline of the retransmission timer, or of the persist timer.
#[tactic(auto, unfolding(crate::specs::Parts::arm_part))]
fn arm(cfg: &Cfg, now: u64, tcb: &mut Tcb)
    ensures { tcb.new ≡ arm_part cfg.now now tcb.old }
{
    let waits = tcb.wnd == 0 && (unsent_bytes(tcb) > 0 || tcb.wants);
    if tcb.deadline.is_none() && (tcb.una != tcb.nxt || waits) {
        tcb.deadline = Some(later(now, cfg.rto));
    }
}

/// All parts in their order.
#[tactic(auto, unfolding(crate::specs::Parts::all_parts))]
fn send_all(cfg: &Cfg, tcb: &mut Tcb, now: u64, entries: &mut Entries)
    requires mss { 64 ≤ tcb.old.mss }
    requires window { tcb.old.wnd ≤ 65535 }
    requires none { entries.old.items ≡ [] }
    ensures numbers { tcb.new ≡ (all_parts cfg.now now (work tcb.old [])).numbers }
    ensures entries { entries.new.items ≡ (all_parts cfg.now now (work tcb.old [])).entries }
{
    send_again(cfg, tcb, entries);
    send_data(cfg, tcb, entries);
    send_fin(cfg, tcb, entries);
    send_ack(cfg, tcb, entries);
    arm(cfg, now, tcb);
}

/// The end of a cycle, into a list that is lent: a resend, data that both windows let out, the FIN behind it, an acknowledgement that is owed,
/// and the deadline. Whatever `outs` held, it holds this step's segments afterwards, as heads and ranges of the send queue. Of every
/// connection that the numbers stand for, they stand for it after its step. The work is linear in what `outs` held and in what it holds then.
pub fn flush_into(cfg: &Cfg, tcb: &mut Tcb, now: u64, outs: &mut Outs)
    requires { FitsPeer tcb.old.state tcb.old.mss tcb.old.wnd tcb.old.cwnd tcb.old.ssthresh }
    ensures stands { (w : Connection) → StandsFor cfg.now tcb.old w → StandsFor cfg.now tcb.new (step cfg.now w inputs.Flush now).connection }
    ensures outputs { (w : Connection) → StandsFor cfg.now tcb.old w → outputs_of (send_queue w) outs.new ≡ (step cfg.now w inputs.Flush now).outputs }
    ensures bytes { (w : Connection) → StandsFor cfg.now tcb.old w → LeavesBytes w (step cfg.now w inputs.Flush now).connection }
    ensures ended { (w : Connection) → StandsFor cfg.now tcb.old w → outs.new.ended ≡ has_ended w (step cfg.now w inputs.Flush now).connection }
    ensures ranges { All (LiesIn tcb.old.queued) outs.new.entries.items }
{
    numbers_stand_on(); // the law by which they stand for the next connection
    outs.clear();
    if !tcb.state.is_alive() {
        return;
    }
    send_all(cfg, tcb, now, &mut outs.entries);
}

/// The end of a cycle, as [`flush_into`] makes it. A new list is written for it, of room for 1,026 segments.
pub fn flush(cfg: &Cfg, tcb: &mut Tcb, now: u64) -> Outs
    requires { FitsPeer tcb.old.state tcb.old.mss tcb.old.wnd tcb.old.cwnd tcb.old.ssthresh }
    ensures stands { (w : Connection) → StandsFor cfg.now tcb.old w → StandsFor cfg.now tcb.new (step cfg.now w inputs.Flush now).connection }
    ensures outputs { (w : Connection) → StandsFor cfg.now tcb.old w → outputs_of (send_queue w) result ≡ (step cfg.now w inputs.Flush now).outputs }
    ensures bytes { (w : Connection) → StandsFor cfg.now tcb.old w → LeavesBytes w (step cfg.now w inputs.Flush now).connection }
    ensures ended { (w : Connection) → StandsFor cfg.now tcb.old w → result.ended ≡ has_ended w (step cfg.now w inputs.Flush now).connection }
    ensures ranges { All (LiesIn tcb.old.queued) result.entries.items }
{
    let mut outs = Outs::nothing();
    flush_into(cfg, tcb, now, &mut outs);
    outs
}
