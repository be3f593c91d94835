// Arrival of a segment in SYN-RECEIVED and later, up to its acknowledgement.
ghost use Rattle.std.specs.Prelude.{◌≡◌, ◌≤◌, ◌+◌, ◌^◌, ◌-ℤ◌, ◌≤ℤ◌, ◌<ℤ◌, pos, false, IfOk};
ghost use Rattle.ix_tcpdef.specs.Arrival.{
  next,
  span as span_of,
  is_acceptable as acceptable_test,
  acceptability as acceptability_part,
  reset as reset_part,
  synchronize as synchronize_part,
  unacknowledged as unacknowledged_part,
};

use crate::connection::{end, give, rcv_nxt, rcv_wnd, seq_of, tell};
use crate::frames::ack_frame;
use crate::numbers::later;
use crate::types::{Cfg, Job, Told};
use ix_base::{ACK, FIN, NoMemory, RST, SYN, SegHead, SeqNumber, has_flag, is_next, lies_in};
use std::alloc::Global;

/// How many octets a segment takes up: its body, its SYN and its FIN (RFC 9293, section 3.4).
pub fn span(head: &SegHead) -> u32
    ensures value { result ≡ span_of head.now }
    ensures bound { result ≤ 65537 }
{
    let syn = if has_flag(head.flags, SYN) { 1 } else { 0 };
    let fin = if has_flag(head.flags, FIN) { 1 } else { 0 };
    u32::from(head.len) + syn + fin
}

/// Whether so many octets from this one on are acceptable, where the first stands so far past RCV.NXT (RFC 9293, section 3.10.7.4, first
/// check).
pub fn is_acceptable(octets: u32, window: u16, seq: i64) -> bool
    requires octets { octets ≤ 65537 }
    requires low { (pos 0 -ℤ pos (2 ^ 31)) ≤ℤ seq }
    requires high { seq <ℤ pos (2 ^ 31) }
    ensures { result ≡ acceptable_test octets window seq }
{
    if octets == 0 {
        if window == 0 {
            is_next(seq)
        } else {
            lies_in(window, seq)
        }
    } else {
        let last = seq + i64::from(octets - 1);
        window > 0 && (lies_in(window, seq) || lies_in(window, last))
    }
}

/// First: the sequence number.
#[tactic(auto, unfolding(crate::specs::Arrival::acceptability))]
pub fn acceptability(
    alloc: Global,
    cfg: &Cfg,
    head: &SegHead,
    now: u64,
    job: &mut Job,
) -> Result<bool, NoMemory>
    ensures same { IfOk result (λ stops. stops ≡ false → job.new ≡ job.old) }
    ensures step { IfOk result (λ stops. next stops job.new ≡ acceptability_part cfg.now head.now now job.old) }
{
    let w = &job.connection;
    if is_acceptable(span(head), rcv_wnd(cfg, w), seq_of(w, head)) {
        return Ok(false);
    }
    if has_flag(head.flags, RST) {
        return Ok(true);
    }
    let frame = ack_frame(alloc, cfg, w);
    if has_flag(head.flags, FIN) && w.state.is_time_wait() {
        job.connection.deadline = Some(later(now, cfg.time_wait));
    }
    give(job, frame)?;
    Ok(true)
}

/// Second: the RST bit.
#[tactic(auto, unfolding(crate::specs::Arrival::reset))]
pub fn reset(alloc: Global, cfg: &Cfg, head: &SegHead, job: &mut Job) -> Result<bool, NoMemory>
    ensures same { IfOk result (λ stops. stops ≡ false → job.new ≡ job.old) }
    ensures step { IfOk result (λ stops. next stops job.new ≡ reset_part cfg.now head.now job.old) }
{
    if !has_flag(head.flags, RST) {
        return Ok(false);
    }
    if SeqNumber(head.seq) == rcv_nxt(&job.connection) {
        end(alloc, &mut job.connection);
        tell(job, Told::DeadReset)?;
    } else {
        let frame = ack_frame(alloc, cfg, &job.connection);
        give(job, frame)?;
    }
    Ok(true)
}

/// Fourth: the SYN bit.
#[tactic(auto, unfolding(crate::specs::Arrival::synchronize))]
pub fn synchronize(
    alloc: Global,
    cfg: &Cfg,
    head: &SegHead,
    job: &mut Job,
) -> Result<bool, NoMemory>
    ensures same { IfOk result (λ stops. stops ≡ false → job.new ≡ job.old) }
    ensures step { IfOk result (λ stops. next stops job.new ≡ synchronize_part cfg.now head.now job.old) }
{
    if !has_flag(head.flags, SYN) {
        return Ok(false);
    }
    if job.connection.state.is_syn_received() {
        end(alloc, &mut job.connection);
    } else {
        let frame = ack_frame(alloc, cfg, &job.connection);
        give(job, frame)?;
    }
    Ok(true)
}

/// Fifth: whether there is an acknowledgement.
#[tactic(auto, unfolding(crate::specs::Arrival::unacknowledged))]
pub fn unacknowledged(head: &SegHead, job: &Job) -> bool
    ensures { next result job.now ≡ unacknowledged_part head.now job.now }
{
    !has_flag(head.flags, ACK)
}
