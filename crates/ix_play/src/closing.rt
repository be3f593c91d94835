// The close of a play that ran.
ghost use Rattle.std.specs.Prelude.{IfOk, List as Sequence};
ghost use Rattle.ix_core.specs.Closing.{CanClose};
ghost use Rattle.ix_core.specs.Meeting.{AreInOrder};
ghost use Rattle.ix_engine.specs.Courses.{engine_of};
ghost use Rattle.ix_engine.specs.Openings.{StackCore};
ghost use Rattle.ix_engine.specs.Steps.{HaveMet};
ghost use Rattle.ix_nic.specs.Cards.{CardView};
ghost use Rattle.ix_play.specs.Play.{Leaves};

use ix_base::{List, NoMemory};
use ix_engine::{Machine, Ran, close_cores, meet_cores};
use ix_sheet::Outcome;
use std::alloc::Global;

/// What a play leaves, once the card and its cores have met and are closed.
pub fn close(alloc: Global, ran: Ran) -> Result<Outcome, NoMemory>
    requires order { AreInOrder ran.machine.nic ran.machine.cores.items }
    requires can { (card : CardView) (cores : Sequence StackCore) → HaveMet ran.machine.nic card ran.machine.cores.items cores → CanClose card cores }
    ensures { IfOk result (λ outcome. Leaves ran.env ran.connects ran.settles (engine_of ran.machine) outcome) }
{
    let Ran {
        env,
        connects,
        settles,
        machine,
    } = ran;
    let Machine {
        mut nic,
        replay,
        mut cores,
    } = machine;
    meet_cores(&mut nic, &mut cores);
    let left = close_cores(alloc, &env, &mut nic, &mut cores)?;
    Ok(Outcome {
        settles,
        connects,
        entries: List::from_vec(replay.into_lines()),
        groups: left.groups,
        closed: left.pools,
    })
}
