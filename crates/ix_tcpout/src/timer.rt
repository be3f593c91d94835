// The timer of a connection.
ghost use Rattle.std.specs.Prelude.{◌≡◌, true};
ghost use Rattle.std.specs.List.{All};
ghost use Rattle.ix_tcpdef.specs.Step.{step};
ghost use Rattle.ix_tcpdef.specs.Flush.{is_due};
ghost use Rattle.ix_tcpout.specs.Expiry.{timeout_in, closed, collapse_in, counted, retransmission, probe as probe_part, fired};
ghost use Rattle.ix_tcpdef.specs.declared.types.Connection.{Connection};
ghost use Rattle.ix_tcpdef.specs.declared.types.Input.TheVariants as inputs;
ghost use Rattle.ix_tcpdef.specs.Stands.{send_queue, StandsFor};
ghost use Rattle.ix_tcpout.specs.Given.{outputs_of, has_ended, LeavesBytes, LiesIn};

use crate::cycle::flight;
use crate::heads::bare;
use crate::outs::Outs;
use crate::resend::again;
use arrayvec::ArrayVec;
use ix_base::{ACK, SeqNumber};
use ix_tcpdef::{
    Cfg, MOST_PROBE_EXPIRIES, State, Tcb, Told, backed_off, later, numbers_stand_on,
    threshold_after_loss,
};

/// What is told where nothing came for too long.
fn timeout(tcb: &Tcb) -> Option<Told>
    ensures { result ≡ timeout_in tcb.now.state tcb.now }
{
    match tcb.state {
        State::SynSent => Some(Told::ConnectedTimeout),
        _ => {
            if tcb.accepted && !tcb.shut {
                Some(Told::DeadTimeout)
            } else {
                None
            }
        }
    }
}

/// The connection ends.
fn close(tcb: &mut Tcb)
    ensures { tcb.new ≡ closed tcb.old }
{
    tcb.state = State::Closed;
    tcb.deadline = None;
    tcb.held = ArrayVec::new();
}

/// The congestion window after a timeout: one segment, and half of what was in flight at the first of several (RFC 5681, section 3.1).
fn collapse(tcb: &mut Tcb)
    ensures state { tcb.new.state ≡ tcb.old.state }
    ensures expiries { tcb.new.expiries ≡ tcb.old.expiries }
    ensures value { tcb.new ≡ collapse_in tcb.old.state tcb.old }
{
    let mss = u32::from(tcb.mss);
    match tcb.state {
        State::SynSent => {}
        State::SynReceived => tcb.cwnd = mss,
        _ => {
            if tcb.expiries == 0 {
                tcb.ssthresh = threshold_after_loss(flight(tcb), tcb.mss);
            }
            tcb.cwnd = mss;
            tcb.dups = 0;
            tcb.recovering = false;
            tcb.resend = false;
        }
    }
}

/// One more expiry.
fn count(cfg: &Cfg, now: u64, expiries: u8, tcb: &mut Tcb)
    ensures { tcb.new ≡ counted cfg.now now expiries tcb.old }
{
    tcb.expiries = expiries;
    tcb.deadline = Some(later(now, backed_off(cfg, expiries)));
}

/// Sends the first unacknowledged segment again, unless that was done too often.
#[tactic(auto, unfolding(crate::specs::Expiry::retransmission))]
fn retransmit(cfg: &Cfg, now: u64, tcb: &mut Tcb, outs: &mut Outs)
    ensures numbers { tcb.new ≡ (retransmission cfg.now now tcb.old).numbers }
    ensures outs { outs.new ≡ (retransmission cfg.now now tcb.old).outs }
{
    let retries = cfg.retries;
    let expiries = u16::from(tcb.expiries) + 1;
    if expiries >= u16::from(retries) {
        let told = timeout(tcb);
        close(tcb);
        outs.end(told);
        return;
    }
    collapse(tcb);
    count(cfg, now, expiries as u8, tcb);
    outs.send(again(cfg, tcb));
}

/// Probes a closed window (RFC 9293, section 3.8.6.1).
#[tactic(auto, unfolding(crate::specs::Expiry::probe))]
fn probe(cfg: &Cfg, now: u64, tcb: &mut Tcb, outs: &mut Outs)
    ensures numbers { tcb.new ≡ (probe_part cfg.now now tcb.old).numbers }
    ensures outs { outs.new ≡ (probe_part cfg.now now tcb.old).outs }
{
    let before = SeqNumber(tcb.una).advanced(u32::MAX); // one before SND.UNA, modulo 2^32
    let entry = bare(cfg, tcb, before.0, ACK);
    let expiries = tcb.expiries.saturating_add(1).min(MOST_PROBE_EXPIRIES);
    count(cfg, now, expiries, tcb);
    outs.send(entry);
}

/// What a due timer does in a state in which the connection lives.
#[tactic(auto, unfolding(crate::specs::Expiry::fired))]
fn fire(cfg: &Cfg, now: u64, tcb: &mut Tcb, outs: &mut Outs)
    ensures numbers { tcb.new ≡ (fired cfg.now now tcb.old).numbers }
    ensures outs { outs.new ≡ (fired cfg.now now tcb.old).outs }
{
    if tcb.state.is_time_wait() {
        close(tcb);
        outs.end(None);
        return;
    }
    if tcb.una != tcb.nxt {
        retransmit(cfg, now, tcb, outs);
        return;
    }
    probe(cfg, now, tcb, outs);
}

/// A due timer expires, into a list that is lent: TIME-WAIT ends, what is in flight is sent again with a doubled timeout or the connection
/// ends, and a closed window is probed. Whatever `outs` held, it holds afterwards this step's segment as a head and a range of the send queue,
/// its event, and whether the connection ended. Of every connection that the numbers stand for, they stand for it after its step.
pub fn expire_into(cfg: &Cfg, tcb: &mut Tcb, now: u64, outs: &mut Outs)
    requires { is_due tcb.old.deadline now ≡ true }
    ensures stands { (w : Connection) → StandsFor cfg.now tcb.old w → StandsFor cfg.now tcb.new (step cfg.now w inputs.Timer now).connection }
    ensures outputs { (w : Connection) → StandsFor cfg.now tcb.old w → outputs_of (send_queue w) outs.new ≡ (step cfg.now w inputs.Timer now).outputs }
    ensures bytes { (w : Connection) → StandsFor cfg.now tcb.old w → LeavesBytes w (step cfg.now w inputs.Timer now).connection }
    ensures ended { (w : Connection) → StandsFor cfg.now tcb.old w → outs.new.ended ≡ has_ended w (step cfg.now w inputs.Timer now).connection }
    ensures ranges { All (LiesIn tcb.old.queued) outs.new.entries.items }
{
    numbers_stand_on(); // the law by which they stand for the next connection
    if !tcb.state.is_alive() {
        outs.clear();
        return;
    }
    fire(cfg, now, tcb, outs);
}

/// A due timer expires, as [`expire_into`] makes it. A new list is written for it, of room for 1,026 segments.
pub fn expire(cfg: &Cfg, tcb: &mut Tcb, now: u64) -> Outs
    requires { is_due tcb.old.deadline now ≡ true }
    ensures stands { (w : Connection) → StandsFor cfg.now tcb.old w → StandsFor cfg.now tcb.new (step cfg.now w inputs.Timer now).connection }
    ensures outputs { (w : Connection) → StandsFor cfg.now tcb.old w → outputs_of (send_queue w) result ≡ (step cfg.now w inputs.Timer now).outputs }
    ensures bytes { (w : Connection) → StandsFor cfg.now tcb.old w → LeavesBytes w (step cfg.now w inputs.Timer now).connection }
    ensures ended { (w : Connection) → StandsFor cfg.now tcb.old w → result.ended ≡ has_ended w (step cfg.now w inputs.Timer now).connection }
    ensures ranges { All (LiesIn tcb.old.queued) result.entries.items }
{
    let mut outs = Outs::nothing();
    expire_into(cfg, tcb, now, &mut outs);
    outs
}
