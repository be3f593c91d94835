// The timer of a connection.
ghost use Rattle.std.specs.Prelude.{◌≡◌, ◌≤◌, ◌<◌, ◌+◌, ◌-◌, ◌^◌, true, false, IfOk, OnOk};
ghost use Rattle.ix_tcpdef.specs.Needs.{carries};
ghost use Rattle.ix_tcpdef.specs.Connection.{is_syn_sent as syn_sent_test, is_syn_received as syn_received_test};
ghost use Rattle.ix_tcpdef.specs.Flush.{
  backed_off as backed_off_of,
  is_due as due_test,
  timed_out as timed_out_part,
  collapsed as collapsed_part,
  retransmitted as retransmitted_part,
  probed as probed_part,
  expired as expired_part,
};

use crate::connection::{end, give, loss_threshold, tell};
use crate::flush::first_unacked;
use crate::frames::plain_frame;
use crate::numbers::later;
use crate::types::{Cfg, Connection, Job, Output, State, Told};
use ix_base::{ACK, Bytes, NoMemory, SeqNumber};
use std::alloc::Global;

/// No timeout is longer, in ticks.
const LONGEST_WAIT: u32 = 60_000;

/// How often a probe's timeout doubles.
pub const MOST_PROBE_EXPIRIES: u8 = 8;

/// The timeout in ticks after so many expiries in a row: it doubles with each, up to a minute (RFC 6298, section 5.5).
pub fn backed_off(cfg: &Cfg, expiries: u8) -> u32
    ensures { result ≡ backed_off_of cfg.now expiries }
{
    let mut wait = cfg.rto.min(LONGEST_WAIT);
    let mut left = expiries;
    while left > 0 {
        wait = (2 * wait).min(LONGEST_WAIT);
        left -= 1;
    }
    wait
}

/// Whether a deadline is reached.
pub fn is_due(deadline: Option<u64>, now: u64) -> bool
    ensures { result ≡ due_test deadline now }
{
    match deadline {
        Some(at) => at <= now,
        None => false,
    }
}

/// The connection ends, since nothing came for too long.
#[tactic(auto, unfolding(crate::specs::Flush::timed_out))]
pub fn time_out(alloc: Global, job: &mut Job) -> Result<(), NoMemory>
    ensures { OnOk result (job.new ≡ timed_out_part job.old) }
{
    let connecting = matches!(job.connection.state, State::SynSent);
    end(alloc, &mut job.connection);
    if connecting {
        give(job, Output::Told(Told::ConnectedTimeout))
    } else {
        tell(job, Told::DeadTimeout)
    }
}

/// The congestion window after a timeout.
#[tactic(auto, unfolding(crate::specs::Flush::collapsed))]
pub fn collapse(w: &mut Connection)
    requires { w.old.nxt ≤ w.old.una + 65536 }
    ensures una { w.new.una ≡ w.old.una }
    ensures state { w.new.state ≡ w.old.state }
    ensures step { w.new ≡ collapsed_part w.old }
{
    let mss = u32::from(w.mss);
    match w.state {
        State::SynSent => {}
        State::SynReceived => w.cwnd = mss,
        _ => {
            if w.expiries == 0 {
                w.ssthresh = loss_threshold(w);
            }
            w.cwnd = mss;
            w.dups = 0;
            w.recovering = false;
            w.resend = false;
        }
    }
}

/// Sends the first unacknowledged segment again, unless that was done too often.
#[tactic(auto, unfolding(crate::specs::Flush::retransmitted))]
pub fn retransmit(alloc: Global, cfg: &Cfg, now: u64, job: &mut Job) -> Result<(), NoMemory>
    requires flight { job.old.connection.nxt ≤ job.old.connection.una + 65536 }
    requires stream { syn_sent_test job.old.connection.state ≡ false → syn_received_test job.old.connection.state ≡ false → 1 ≤ job.old.connection.una }
    ensures { OnOk result (job.new ≡ retransmitted_part cfg.now now job.old) }
{
    let retries = cfg.retries;
    let expiries = u16::from(job.connection.expiries) + 1;
    if expiries >= u16::from(retries) {
        return time_out(alloc, job);
    }
    let expiries = expiries as u8;
    collapse(&mut job.connection);
    job.connection.expiries = expiries;
    job.connection.deadline = Some(later(now, backed_off(cfg, expiries)));
    let frame = first_unacked(alloc, cfg, &job.connection)?;
    give(job, frame)
}

/// Probes a closed window.
#[tactic(auto, unfolding(crate::specs::Flush::probed))]
pub fn probe(alloc: Global, cfg: &Cfg, now: u64, job: &mut Job) -> Result<(), NoMemory>
    ensures { OnOk result (job.new ≡ probed_part cfg.now now job.old) }
{
    let w = &job.connection;
    let seq = SeqNumber(w.iss).at(w.una.saturating_sub(1));
    let frame = plain_frame(cfg, w, seq, ACK, Bytes::new(alloc));
    let expiries = w.expiries.saturating_add(1).min(MOST_PROBE_EXPIRIES);
    job.connection.expiries = expiries;
    job.connection.deadline = Some(later(now, backed_off(cfg, expiries)));
    give(job, frame)
}

/// The timer: it does something where the deadline is due.
#[tactic(auto, unfolding(crate::specs::Flush::expired))]
pub fn expire(alloc: Global, cfg: &Cfg, now: u64, job: &mut Job) -> Result<(), NoMemory>
    requires flight { job.old.connection.nxt ≤ job.old.connection.una + 65536 }
    requires stream { syn_sent_test job.old.connection.state ≡ false → syn_received_test job.old.connection.state ≡ false → 1 ≤ job.old.connection.una }
    ensures { OnOk result (job.new ≡ expired_part cfg.now now job.old) }
{
    if !is_due(job.connection.deadline, now) {
        return Ok(());
    }
    if job.connection.state.is_time_wait() {
        end(alloc, &mut job.connection);
        return Ok(());
    }
    if job.connection.una < job.connection.nxt {
        retransmit(alloc, cfg, now, job)
    } else {
        probe(alloc, cfg, now, job)
    }
}
