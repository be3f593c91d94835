// A group that runs what it is given.
ghost use Rattle.std.specs.Prelude.{◌≡◌, ◌++◌, List as Sequence, OnOk};
ghost use Rattle.ix_tcpdef.specs.Sound.{IsInRange};
ghost use Rattle.ix_groupdef.specs.Env.{setting_of};
ghost use Rattle.ix_groupdef.specs.Group.{Cycle, Connect, run};
ghost use Rattle.ix_playdef.specs.Wire.{cycle_by, cycles_of};

use crate::wire::Given;
use ix_appdef::Application;
use ix_base::{BUFFER_BYTES, CoreId, List, NoMemory};
use ix_groupdef::{Env, PlainGroup};
use std::alloc::Global;

// Runs the cycle of one thing that a group is given.
#[tactic(auto, using(crate::proofs::Cycles::for_one))]
fn run_one(
    alloc: Global,
    env: &Env<Application>,
    core: CoreId,
    given: Given,
    group: &mut PlainGroup,
) -> Result<(), NoMemory>
    requires { IsInRange env.now.cfg }
    ensures { (asked : Sequence Connect) (cs : Sequence Cycle) → group.old ≡ run (setting_of env.now) asked cs
        → OnOk result (group.new ≡ run (setting_of env.now) asked (cs ++ cycle_by core given)) }
{
    match given {
        Given::Frame(taken) => {
            if taken.frame.len() > BUFFER_BYTES {
                return Ok(());
            }
            let mut frames = List::new(alloc);
            frames.push(taken)?;
            group.step_batch(alloc, env, core, frames)
        }
        Given::Time { w, t } => group.advance_to(alloc, env, core, w, t as u64),
    }
}

/// Runs what a group is given on one core, each frame in a cycle of its own. A group that stood for some cutting stands for it with these
/// cycles behind it.
#[tactic(auto, using(crate::proofs::Cycles::for_all))]
pub fn run_given(
    alloc: Global,
    env: &Env<Application>,
    core: CoreId,
    given: List<Given>,
    group: &mut PlainGroup,
) -> Result<(), NoMemory>
    requires { IsInRange env.now.cfg }
    ensures { (asked : Sequence Connect) (cs : Sequence Cycle) → group.old ≡ run (setting_of env.now) asked cs
        → OnOk result (group.new ≡ run (setting_of env.now) asked (cs ++ cycles_of core given)) }
{
    for one in given.into_vec() {
        run_one(alloc, env, core, one, group)?;
    }
    Ok(())
}
