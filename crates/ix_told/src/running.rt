// A flow group that runs the cycles that are read.
ghost use Rattle.std.specs.Prelude.{◌≡◌, ◌≤◌, ◌++◌, ◌∷◌, [], List as Sequence, IfOk, OnOk, filter, length, map};
ghost use Rattle.ix_groupdef.specs.Env.{setting_of};
ghost use Rattle.ix_groupdef.specs.Group.{Connect, Cycle, run};
ghost use Rattle.ix_groupdef.specs.Record.{record_of};
ghost use Rattle.ix_playdef.specs.Connects.{is_asked_in};
ghost use Rattle.ix_playdef.specs.Replies.{FitsGroup};
ghost use Rattle.ix_tcpdef.specs.Sound.{IsInRange};
ghost use Rattle.ix_told.specs.Reading.{cycle_of};

use crate::connects::{Asked, connected};
use crate::cycle::ReadCycle;
use ix_appdef::Application;
use ix_base::{GroupId, List, NoMemory};
use ix_groupdef::{Env, GroupRecord, PlainGroup, Taken, groups_are_sound};
use ix_ip::payloads_lie_within;
use std::alloc::Global;

// The same frames once more.
#[tactic(auto, using(crate::proofs::RunLaws::for_frames))]
fn same_frames(alloc: Global, frames: &[Taken]) -> Result<List<Taken>, NoMemory>
    ensures { IfOk result (λ copied. copied ≡ frames.now) }
{
    let mut copied = List::new(alloc);
    for taken in frames {
        let frame = taken.frame.try_clone(alloc)?;
        copied.push(Taken { w: taken.w, frame })?;
    }
    Ok(copied)
}

// Runs one cycle.
fn run_cycle(
    alloc: Global,
    env: &Env<Application>,
    cycle: &ReadCycle,
    plain: &mut PlainGroup,
) -> Result<(), NoMemory>
    requires { IsInRange env.now.cfg }
    ensures { (asked : Sequence Connect) (cs : Sequence Cycle) → plain.old ≡ run (setting_of env.now) asked cs
        → OnOk result (plain.new ≡ run (setting_of env.now) asked (cs ++ cycle_of cycle.now ∷ [])) }
{
    match cycle {
        ReadCycle::Frames(batch) => {
            let frames = same_frames(alloc, batch.frames.as_slice())?;
            plain.step_batch(alloc, env, batch.core, frames)
        }
        ReadCycle::Time { core, w, t } => plain.advance_to(alloc, env, *core, *w, *t as u64),
    }
}

// Runs some cycles, in their order.
#[tactic(auto, using(crate::proofs::RunLaws::for_cycles))]
fn run_cycles(
    alloc: Global,
    env: &Env<Application>,
    cycles: &[ReadCycle],
    plain: &mut PlainGroup,
) -> Result<(), NoMemory>
    requires { IsInRange env.now.cfg }
    ensures { (asked : Sequence Connect) → plain.old ≡ run (setting_of env.now) asked []
        → OnOk result (plain.new ≡ run (setting_of env.now) asked (map cycle_of cycles.now)) }
{
    for cycle in cycles {
        run_cycle(alloc, env, cycle, plain)?;
    }
    Ok(())
}

/// A group behind its connects among these and some cycles.
pub fn group_behind(
    alloc: Global,
    env: &Env<Application>,
    asked: &[Asked],
    group: GroupId,
    cycles: &[ReadCycle],
) -> Result<PlainGroup, NoMemory>
    requires { IsInRange env.now.cfg }
    ensures { IfOk result (λ plain. plain ≡ run (setting_of env.now) (filter (is_asked_in env.now.local.ip group.0) asked.now) (map cycle_of cycles.now)) }
{
    let mut plain = connected(alloc, env, asked, group)?;
    run_cycles(alloc, env, cycles, &mut plain)?;
    Ok(plain)
}

/// What a group leaves of its connects among these and of some cycles. It can be written and told.
pub fn left_by(
    alloc: Global,
    env: &Env<Application>,
    asked: &[Asked],
    group: GroupId,
    cycles: &[ReadCycle],
) -> Result<GroupRecord, NoMemory>
    requires range { IsInRange env.now.cfg }
    requires mac { length env.now.local.mac ≤ 6 }
    ensures left { IfOk result (λ left. left ≡ record_of (setting_of env.now) (run (setting_of env.now) (filter (is_asked_in env.now.local.ip group.0) asked.now) (map cycle_of cycles.now))) }
    ensures fit { IfOk result FitsGroup }
{
    groups_are_sound();
    payloads_lie_within();
    let plain = group_behind(alloc, env, asked, group, cycles)?;
    plain.finish(alloc, env)
}
