// One step of a connection.
ghost use Rattle.std.specs.Prelude.{◌≡◌, ◌≤◌, ◌<◌, ◌+◌, ◌-◌, ◌^◌, false, true, IfOk, OnOk};
ghost use Rattle.ix_tcpdef.specs.Arrival.{next};
ghost use Rattle.ix_tcpdef.specs.Needs.{IsReady, IsFramed};
ghost use Rattle.ix_tcpdef.specs.Sound.{IsSound, IsStanding, IsWritten, HasWindow};
ghost use Rattle.ix_tcpdef.specs.Step.{
  checked as checked_part,
  arrived as arrived_part,
  stepped as stepped_part,
};

use crate::acknowledgement::acknowledgement;
use crate::arrival::{acceptability, reset, synchronize, unacknowledged};
use crate::body::text_and_fin;
use crate::calls::call;
use crate::flush::flush;
use crate::opening::{opening, syn_sent};
use crate::timer::expire;
use crate::types::{Cfg, Input, Job, State};
use ix_base::{NoMemory, Seg, WireNo};
use std::alloc::Global;

/// A segment in SYN-RECEIVED and later, check by check. Answers whether it was dropped on the way.
#[tactic(auto, unfolding(crate::specs::Step::checked))]
pub fn check_segment(
    alloc: Global,
    cfg: &Cfg,
    w: WireNo,
    seg: &Seg,
    now: u64,
    job: &mut Job,
) -> Result<bool, NoMemory>
    requires ready { IsReady cfg.now job.old.connection }
    requires framed { IsFramed seg.now }
    ensures { IfOk result (λ stops. next stops job.new ≡ checked_part cfg.now w seg.now now job.old) }
{
    let head = &seg.head;
    if acceptability(alloc, cfg, head, now, job)? {
        return Ok(true);
    }
    if reset(alloc, cfg, head, job)? {
        return Ok(true);
    }
    if synchronize(alloc, cfg, head, job)? {
        return Ok(true);
    }
    if unacknowledged(head, job) {
        return Ok(true);
    }
    if acknowledgement(alloc, cfg, head, now, job)? {
        return Ok(true);
    }
    text_and_fin(alloc, cfg, w, seg, now, job)?;
    Ok(false)
}

/// A segment.
#[tactic(auto, unfolding(crate::specs::Step::arrived))]
pub fn arrive(
    alloc: Global,
    cfg: &Cfg,
    w: WireNo,
    seg: &Seg,
    now: u64,
    job: &mut Job,
) -> Result<(), NoMemory>
    requires sound { IsSound job.old.connection }
    requires standing { IsStanding cfg.now job.old.connection }
    requires framed { IsFramed seg.now }
    ensures window { seg.now.head.window < 2 ^ 16 }
    ensures step { OnOk result (job.new ≡ arrived_part cfg.now w seg.now now job.old) }
{
    let _window = seg.head.window; // a proof knows the range of what is read
    match job.connection.state {
        State::Closed => Ok(()),
        State::Listen => opening(alloc, cfg, &seg.head, now, job),
        State::SynSent => syn_sent(alloc, cfg, &seg.head, job),
        _ => {
            check_segment(alloc, cfg, w, seg, now, job)?;
            Ok(())
        }
    }
}

/// One input.
#[tactic(auto, unfolding(crate::specs::Step::stepped))]
pub fn make_step(
    alloc: Global,
    cfg: &Cfg,
    input: &Input,
    now: u64,
    job: &mut Job,
) -> Result<(), NoMemory>
    requires sound { IsSound job.old.connection }
    requires standing { IsStanding cfg.now job.old.connection }
    requires written { IsWritten input.now }
    ensures window { HasWindow input.now }
    ensures step { OnOk result (job.new ≡ stepped_part cfg.now input.now now job.old) }
{
    match input {
        Input::Segment { w, seg } => arrive(alloc, cfg, *w, seg, now, job),
        Input::Timer => {
            if job.connection.state.is_alive() {
                expire(alloc, cfg, now, job)?;
            }
            Ok(())
        }
        Input::Call(ask) => call(alloc, cfg, ask, now, job),
        Input::Flush => {
            if job.connection.state.is_alive() {
                flush(alloc, cfg, now, job)?;
            }
            Ok(())
        }
    }
}
