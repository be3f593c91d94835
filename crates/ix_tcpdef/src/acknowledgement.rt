// The acknowledgement of a segment.
ghost use Rattle.std.specs.Prelude.{◌≡◌, ◌≤◌, ◌<◌, ◌+◌, ◌-◌, ◌^◌, false, true, IfOk, OnOk};
ghost use Rattle.ix_base.specs.Sequence.{is_past as past_test};
ghost use Rattle.ix_tcpdef.specs.Connection.{on, snd_nxt as snd_nxt_of, acked_data as acked_data_of};
ghost use Rattle.ix_tcpdef.specs.Arrival.{next};
ghost use Rattle.ix_tcpdef.specs.Needs.{IsReady, SameReceiver};
ghost use Rattle.ix_tcpdef.specs.Acknowledgement.{
  establishing as establishing_part,
  too_far as too_far_part,
  is_duplicate as duplicate_test,
  duplicated as duplicated_part,
  opened_window as opened_window_of,
  advanced as advanced_part,
  is_newer as newer_test,
  windowed as windowed_part,
  told_sent as told_sent_part,
  fin_acked as fin_acked_part,
  unpersisted as unpersisted_part,
  acked as acked_part,
  synchronized as synchronized_part,
  acknowledgement as acknowledgement_part,
};

use crate::congestion::grown;
use crate::connection::{acked_data, end, give, loss_threshold, room, snd_nxt, snd_una, tell};
use crate::frames::{ack_frame, reset_frame};
use crate::numbers::{further, later};
use crate::types::{Cfg, Connection, Job, Output, State, Told};
use ix_base::{FIN, NoMemory, SegHead, SeqNumber, has_flag};
use std::alloc::Global;

/// How many duplicate acknowledgements came before the one that starts fast retransmit.
pub const DUPLICATES_BEFORE: u8 = 2;

/// The acknowledgement of the own SYN-ACK.
#[tactic(auto, unfolding(crate::specs::Acknowledgement::establishing))]
pub fn establishing(alloc: Global, head: &SegHead, job: &mut Job) -> Result<bool, NoMemory>
    ensures kept { IfOk result (λ stops. stops ≡ false → SameReceiver job.old.connection job.new.connection) }
    ensures step { IfOk result (λ stops. next stops job.new ≡ establishing_part head.now job.old) }
{
    let w = &job.connection;
    let una = snd_una(w);
    let ack = SeqNumber(head.ack);
    if !ack.is_past(una) || ack.is_past(snd_nxt(w)) {
        let frame = reset_frame(alloc, w, head);
        give(job, frame)?;
        return Ok(true);
    }
    let w = &mut job.connection;
    w.state = State::Established;
    w.una = further(w.una, u64::from(una.ahead(ack)))?;
    w.wnd = u32::from(head.window);
    w.wl1 = head.seq;
    w.wl2 = head.ack;
    w.deadline = None;
    w.expiries = 0;
    w.knocked = true;
    give(job, Output::Told(Told::Knock))?;
    Ok(false)
}

/// An acknowledgement of what was not sent.
#[tactic(auto, unfolding(crate::specs::Acknowledgement::too_far))]
pub fn too_far(alloc: Global, cfg: &Cfg, head: &SegHead, job: &mut Job) -> Result<bool, NoMemory>
    ensures same { IfOk result (λ stops. stops ≡ false → job.new ≡ job.old) }
    ensures sent { IfOk result (λ stops. stops ≡ false → past_test (snd_nxt_of job.new.connection) head.now.ack ≡ false) }
    ensures step { IfOk result (λ stops. next stops job.new ≡ too_far_part cfg.now head.now job.old) }
{
    let w = &job.connection;
    if !SeqNumber(head.ack).is_past(snd_nxt(w)) {
        return Ok(false);
    }
    let frame = ack_frame(alloc, cfg, w);
    give(job, frame)?;
    Ok(true)
}

/// Whether an acknowledgement says again what was said before (RFC 5681, section 2).
pub fn is_duplicate(head: &SegHead, w: &Connection) -> bool
    ensures { result ≡ duplicate_test head.now w.now }
{
    SeqNumber(head.ack) == snd_una(w)
        && w.una < w.nxt
        && head.len == 0
        && !has_flag(head.flags, FIN)
        && u32::from(head.window) == w.wnd
}

/// Counts a duplicate acknowledgement.
#[tactic(auto, unfolding(crate::specs::Acknowledgement::duplicated))]
pub fn count_duplicate(head: &SegHead, w: &mut Connection)
    requires mss { 64 ≤ w.old.mss }
    requires cwnd { 0 < w.old.cwnd }
    requires flight { w.old.nxt ≤ w.old.una + 65536 }
    ensures cwnd { 0 < w.new.cwnd }
    ensures una { w.new.una ≡ w.old.una }
    ensures sent { w.new.sent ≡ w.old.sent }
    ensures kept { SameReceiver w.old w.new }
    ensures step { w.new ≡ duplicated_part head.now w.old }
{
    if !is_duplicate(head, w) {
        return;
    }
    let mss = u32::from(w.mss);
    if w.recovering {
        w.cwnd = grown(w.cwnd, mss);
        return;
    }
    if w.dups != DUPLICATES_BEFORE {
        w.dups = w.dups.saturating_add(1);
        return;
    }
    let threshold = loss_threshold(w);
    w.dups = DUPLICATES_BEFORE + 1;
    w.ssthresh = threshold;
    w.cwnd = grown(threshold, 3 * mss);
    w.recovering = true;
    w.resend = true;
}

/// The congestion window after so many octets were acknowledged.
pub fn opened_window(octets: u32, w: &Connection) -> u32
    requires { 0 < w.now.cwnd }
    ensures { result ≡ opened_window_of octets w.now }
{
    let mss = w.mss;
    let mss = u32::from(mss);
    if w.recovering {
        w.ssthresh
    } else if w.cwnd < w.ssthresh {
        grown(w.cwnd, octets.min(mss))
    } else {
        grown(w.cwnd, (mss * mss / w.cwnd).max(1))
    }
}

/// Advances SND.UNA.
#[tactic(auto, unfolding(crate::specs::Acknowledgement::advanced))]
pub fn advance(cfg: &Cfg, head: &SegHead, now: u64, w: &mut Connection) -> Result<(), NoMemory>
    requires { 0 < w.old.cwnd }
    ensures una { OnOk result (w.new.una < w.old.una + 2 ^ 32) }
    ensures sent { OnOk result (w.new.sent ≡ w.old.sent) }
    ensures kept { OnOk result (SameReceiver w.old w.new) }
    ensures step { OnOk result (w.new ≡ advanced_part cfg.now head.now now w.old) }
{
    let una = snd_una(w);
    let ack = SeqNumber(head.ack);
    if !ack.is_past(una) {
        return Ok(());
    }
    let octets = una.ahead(ack);
    w.cwnd = opened_window(octets, w);
    w.recovering = false;
    w.dups = 0;
    w.resend = false;
    w.una = further(w.una, u64::from(octets))?;
    w.expiries = 0;
    w.deadline = if w.una < w.nxt {
        Some(later(now, cfg.rto))
    } else {
        None
    };
    Ok(())
}

/// Whether a segment is newer than the one that the window was taken from.
pub fn is_newer(head: &SegHead, w: &Connection) -> bool
    ensures { result ≡ newer_test head.now w.now }
{
    let is_last = w.wl1 == head.seq;
    SeqNumber(head.seq).is_past(SeqNumber(w.wl1))
        || is_last && SeqNumber(head.ack).is_at_or_past(SeqNumber(w.wl2))
}

/// Clears the persist timer.
pub fn unpersist(w: &mut Connection)
    ensures { w.new ≡ unpersisted_part w.old }
{
    w.expiries = 0;
    if !w.state.is_time_wait() {
        w.deadline = None;
    }
}

/// Takes the peer's window.
#[tactic(auto, unfolding(crate::specs::Acknowledgement::windowed))]
pub fn take_window(head: &SegHead, before: SeqNumber, w: &mut Connection)
    ensures una { w.new.una ≡ w.old.una }
    ensures sent { w.new.sent ≡ w.old.sent }
    ensures kept { SameReceiver w.old w.new }
    ensures step { w.new ≡ windowed_part head.now before.0 w.old }
{
    if !(SeqNumber(head.ack).is_at_or_past(before) && is_newer(head, w)) {
        return;
    }
    w.wnd = u32::from(head.window);
    w.wl1 = head.seq;
    w.wl2 = head.ack;
    if head.window > 0 && w.una == w.nxt {
        unpersist(w);
    }
}

/// Tells of acknowledged bytes, and of room that was waited for.
#[tactic(auto, unfolding(crate::specs::Acknowledgement::told_sent))]
pub fn tell_sent(n: u32, job: &mut Job) -> Result<(), NoMemory>
    ensures kept { OnOk result (SameReceiver job.old.connection job.new.connection) }
    ensures step { OnOk result (job.new ≡ told_sent_part n job.old) }
{
    let room = room(&job.connection);
    if n == 0 && !(job.connection.wants && room > 0) {
        return Ok(());
    }
    job.connection.wants = false;
    tell(
        job,
        Told::Sent {
            bytes: n,
            window: room,
        },
    )
}

/// The own FIN may be acknowledged.
#[tactic(auto, unfolding(crate::specs::Acknowledgement::fin_acked))]
pub fn fin_acked(alloc: Global, cfg: &Cfg, now: u64, job: &mut Job) -> bool
    ensures kept { result ≡ false → SameReceiver job.old.connection job.new.connection }
    ensures step { next result job.new ≡ fin_acked_part cfg.now now job.old }
{
    let w = &mut job.connection;
    if !(w.fin_sent && w.una == w.nxt) {
        return false;
    }
    match w.state {
        State::FinWait1 => w.state = State::FinWait2,
        State::Closing => {
            w.state = State::TimeWait;
            w.deadline = Some(later(now, cfg.time_wait));
        }
        State::LastAck => {
            end(alloc, w);
            return true;
        }
        _ => {}
    }
    false
}

/// Takes an acknowledgement of something that was sent, and answers how many bytes it acknowledges.
pub fn acknowledge(cfg: &Cfg, head: &SegHead, now: u64, w: &mut Connection) -> Result<u32, NoMemory>
    requires { IsReady cfg.now w.old }
    ensures acked { IfOk result (λ n. n ≡ acked_data_of w.new - acked_data_of w.old) }
    ensures kept { OnOk result (SameReceiver w.old w.new) }
    ensures step { OnOk result (w.new ≡ acked_part cfg.now head.now now w.old) }
{
    let before = snd_una(w);
    let acked = acked_data(w);
    count_duplicate(head, w);
    advance(cfg, head, now, w)?;
    take_window(head, before, w);
    Ok((acked_data(w).saturating_sub(acked)) as u32)
}

/// The acknowledgement in the states behind the handshake.
#[tactic(auto, unfolding(crate::specs::Acknowledgement::synchronized))]
pub fn synchronized(
    alloc: Global,
    cfg: &Cfg,
    head: &SegHead,
    now: u64,
    job: &mut Job,
) -> Result<bool, NoMemory>
    requires { IsReady cfg.now job.old.connection }
    ensures kept { IfOk result (λ stops. stops ≡ false → SameReceiver job.old.connection job.new.connection) }
    ensures step { IfOk result (λ stops. next stops job.new ≡ synchronized_part cfg.now head.now now job.old) }
{
    if too_far(alloc, cfg, head, job)? {
        return Ok(true);
    }
    let n = acknowledge(cfg, head, now, &mut job.connection)?;
    tell_sent(n, job)?;
    Ok(fin_acked(alloc, cfg, now, job))
}

/// Fifth: the acknowledgement.
#[tactic(auto, unfolding(crate::specs::Acknowledgement::acknowledgement))]
pub fn acknowledgement(
    alloc: Global,
    cfg: &Cfg,
    head: &SegHead,
    now: u64,
    job: &mut Job,
) -> Result<bool, NoMemory>
    requires { IsReady cfg.now job.old.connection }
    ensures kept { IfOk result (λ stops. stops ≡ false → SameReceiver job.old.connection job.new.connection) }
    ensures step { IfOk result (λ stops. next stops job.new ≡ acknowledgement_part cfg.now head.now now job.old) }
{
    if job.connection.state.is_syn_received() {
        establishing(alloc, head, job)
    } else {
        synchronized(alloc, cfg, head, now, job)
    }
}
