// What a connection sends at the end of a cycle.
ghost use Rattle.std.specs.Prelude.{◌≡◌, ◌≤◌, ◌<◌, ◌+◌, ◌-◌, ◌^◌, ◌++◌, true, false, IfOk, OnOk, length};
ghost use Rattle.ix_tcpdef.specs.Connection.{is_syn_sent as syn_sent_test, is_syn_received as syn_received_test};
ghost use Rattle.ix_tcpdef.specs.Needs.{carries};
ghost use Rattle.ix_tcpdef.specs.Flush.{
  unacked as unacked_of,
  unsent as unsent_of,
  first_of as first_of_part,
  first_unacked as first_unacked_of,
  resent as resent_part,
  usable as usable_of,
  data_frames,
  data_sent as data_sent_part,
  fin_sent as fin_sent_part,
  ack_sent as ack_sent_part,
  waits_for_window as waits_test,
  armed as armed_part,
  flushed as flushed_part,
};

use crate::connection::give;
use crate::frames::{ack_frame, data_frame, fin_frame, syn_ack_frame, syn_frame};
use crate::numbers::{further, later};
use crate::types::{Cfg, Connection, Job, Output, Outputs, State};
use ix_base::{Bytes, NoMemory};
use std::alloc::Global;

/// The bytes that were sent and are not acknowledged.
pub fn unacked(w: &Connection) -> &[u8]
    ensures end { 1 ≤ w.now.una → w.now.una + length result.now ≤ 2 ^ 64 }
    ensures value { result.now ≡ unacked_of w.now }
{
    let from = (w.una.saturating_sub(1) as usize).min(w.sent.len());
    let rest = &w.sent.as_slice()[from..];
    let end = (w.nxt.saturating_sub(w.una) as usize).min(rest.len());
    &rest[..end]
}

/// The bytes that were never sent.
pub fn unsent(w: &Connection) -> &[u8]
    ensures { result.now ≡ unsent_of w.now }
{
    let from = (w.nxt.saturating_sub(1) as usize).min(w.sent.len());
    &w.sent.as_slice()[from..]
}

/// The first unacknowledged segment, once more.
#[tactic(auto, unfolding(crate::specs::Flush::first_unacked))]
pub fn first_unacked(alloc: Global, cfg: &Cfg, w: &Connection) -> Result<Output, NoMemory>
    requires { syn_sent_test w.now.state ≡ false → syn_received_test w.now.state ≡ false → 1 ≤ w.now.una }
    ensures { IfOk result (λ o. o ≡ first_unacked_of cfg.now w.now) }
{
    match w.state {
        State::SynSent => Ok(syn_frame(alloc, cfg, w)),
        State::SynReceived => Ok(syn_ack_frame(alloc, cfg, w)),
        _ => first_of(alloc, cfg, w, unacked(w)),
    }
}

/// The first of these bytes at SND.UNA in one segment, or the FIN where there are none.
fn first_of(alloc: Global, cfg: &Cfg, w: &Connection, bytes: &[u8]) -> Result<Output, NoMemory>
    requires first { 1 ≤ w.now.una }
    requires end { w.now.una + length bytes.now ≤ 2 ^ 64 }
    ensures { IfOk result (λ o. o ≡ first_of_part cfg.now w.now bytes.now) }
{
    if bytes.is_empty() {
        return Ok(fin_frame(alloc, cfg, w, w.una));
    }
    let mss = w.mss;
    let first = &bytes[..usize::from(mss).min(bytes.len())];
    let first = Bytes::from_slice(alloc, first)?;
    Ok(data_frame(cfg, w, w.una, first))
}

/// First: the resend that fast retransmit asked for.
#[tactic(auto, unfolding(crate::specs::Flush::resent))]
pub fn resend(alloc: Global, cfg: &Cfg, job: &mut Job) -> Result<(), NoMemory>
    requires { carries job.old.connection.state ≡ true → 1 ≤ job.old.connection.una }
    ensures connection { OnOk result (job.new.connection ≡ record job.old.connection { resend = job.new.connection.resend }) }
    ensures step { OnOk result (job.new ≡ resent_part cfg.now job.old) }
{
    if !(job.connection.resend && job.connection.state.resends()) {
        return Ok(());
    }
    let frame = first_unacked(alloc, cfg, &job.connection)?;
    job.connection.resend = false;
    give(job, frame)
}

/// Bytes from this position on, in segments.
#[tactic(auto, using(crate::proofs::FlushLemmas::first_frames))]
pub fn push_data(
    alloc: Global,
    cfg: &Cfg,
    w: &Connection,
    at: u64,
    bytes: &[u8],
    outputs: &mut Outputs,
) -> Result<(), NoMemory>
    requires first { 1 ≤ at }
    requires at { at + length bytes.now < 2 ^ 64 }
    requires mss { 64 ≤ w.now.mss }
    ensures { OnOk result (outputs.new ≡ outputs.old ++ data_frames cfg.now w.now (length bytes.now) at bytes.now) }
{
    let mss = w.mss;
    let mut at = at;
    let mut rest = bytes;
    while !rest.is_empty() {
        let n = usize::from(mss).min(rest.len());
        let (first, others) = rest.split_at(n);
        let first = Bytes::from_slice(alloc, first)?;
        outputs.push(data_frame(cfg, w, at, first))?;
        at += n as u64;
        rest = others;
    }
    Ok(())
}

/// How many octets may be sent.
pub fn usable(w: &Connection) -> u64
    requires { w.now.una ≤ w.now.nxt }
    ensures { result ≡ usable_of w.now }
{
    u64::from(w.wnd.min(w.cwnd)).saturating_sub(w.nxt - w.una)
}

/// Second: data that both windows let out.
#[tactic(auto, unfolding(crate::specs::Flush::data_sent))]
pub fn send_data(alloc: Global, cfg: &Cfg, job: &mut Job) -> Result<(), NoMemory>
    requires mss { 64 ≤ job.old.connection.mss }
    requires order { job.old.connection.una ≤ job.old.connection.nxt }
    requires stream { carries job.old.connection.state ≡ true → 1 ≤ job.old.connection.una }
    ensures step { OnOk result (job.new ≡ data_sent_part cfg.now job.old) }
{
    let w = &job.connection;
    if !w.state.sends() {
        return Ok(());
    }
    let unsent = unsent(w);
    let bytes = &unsent[..(usable(w) as usize).min(unsent.len())];
    let nxt = further(w.nxt, bytes.len() as u64)?;
    push_data(alloc, cfg, w, w.nxt, bytes, &mut job.outputs)?;
    job.connection.nxt = nxt;
    Ok(())
}

/// Third: the FIN, behind all data.
#[tactic(auto, unfolding(crate::specs::Flush::fin_sent))]
pub fn send_fin(alloc: Global, cfg: &Cfg, job: &mut Job) -> Result<(), NoMemory>
    ensures step { OnOk result (job.new ≡ fin_sent_part cfg.now job.old) }
{
    let w = &job.connection;
    let due = w.state.sends() && w.fin_wanted && !w.fin_sent && unsent(w).is_empty();
    if !due {
        return Ok(());
    }
    let frame = fin_frame(alloc, cfg, w, w.nxt);
    job.connection.nxt = further(job.connection.nxt, 1)?;
    job.connection.fin_sent = true;
    give(job, frame)
}

/// Fourth: an acknowledgement that is owed, where nothing carried it.
#[tactic(auto, unfolding(crate::specs::Flush::ack_sent))]
pub fn send_ack(alloc: Global, cfg: &Cfg, job: &mut Job) -> Result<(), NoMemory>
    ensures step { OnOk result (job.new ≡ ack_sent_part cfg.now job.old) }
{
    let owed = job.connection.ack_owed && job.outputs.len() == 0;
    job.connection.ack_owed = false;
    if !owed {
        return Ok(());
    }
    let frame = ack_frame(alloc, cfg, &job.connection);
    give(job, frame)
}

pub fn waits_for_window(w: &Connection) -> bool
    ensures { result ≡ waits_test w.now }
{
    w.wnd == 0 && (unsent(w).len() > 0 || w.wants)
}

/// Fifth: the deadline.
#[tactic(auto, unfolding(crate::specs::Flush::armed))]
pub fn arm(cfg: &Cfg, now: u64, w: &mut Connection)
    ensures { w.new ≡ armed_part cfg.now now w.old }
{
    let waits = w.una < w.nxt || w.una == w.nxt && waits_for_window(w);
    if w.deadline.is_none() && waits {
        w.deadline = Some(later(now, cfg.rto));
    }
}

/// The end of a cycle.
#[tactic(auto, unfolding(crate::specs::Flush::flushed))]
pub fn flush(alloc: Global, cfg: &Cfg, now: u64, job: &mut Job) -> Result<(), NoMemory>
    requires mss { 64 ≤ job.old.connection.mss }
    requires order { job.old.connection.una ≤ job.old.connection.nxt }
    requires stream { carries job.old.connection.state ≡ true → 1 ≤ job.old.connection.una }
    ensures { OnOk result (job.new ≡ flushed_part cfg.now now job.old) }
{
    resend(alloc, cfg, job)?;
    send_data(alloc, cfg, job)?;
    send_fin(alloc, cfg, job)?;
    send_ack(alloc, cfg, job)?;
    arm(cfg, now, &mut job.connection);
    Ok(())
}
