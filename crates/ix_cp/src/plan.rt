// Plans: lists of moves that spread the places over the live cores.
ghost use Rattle.std.specs.Prelude.{◌≡◌, ◌≤◌, ◌<◌, All, IfOk, None, false, length, slice_set, true};
ghost use Rattle.ix_cp.specs.Plan.{ArePlans, GoElsewhere, IsMoveTo, add_plan, carried, due, evening_moves, leaving_moves, revoke_plan};

use crate::cores::Cores;
use crate::places::Places;
use ix_base::{CoreId, GroupId, NoMemory};
use std::alloc::Global;

/// One move of a plan.
#[derive(Clone, Copy, Debug, PartialEq, Eq)]
pub struct PlanMove {
    /// The place, which is a flow group or a class of flow groups.
    pub group: GroupId,
    /// The core that the place goes to.
    pub to: CoreId,
}

/// The moves by which a core that was added takes its share: as long as the live core with the most places has at least two more than
/// the one with the fewest, the lowest place of the former goes to the latter, at a tie of cores the lowest of them. `at` has each
/// place's core, and `core` counts as live.
#[tactic(auto, unfolding(crate::specs::Plan::add_plan))]
pub fn plan_add(
    alloc: Global,
    at: &[CoreId],
    cores: &Cores,
    core: CoreId,
) -> Result<Vec<PlanMove>, NoMemory>
    requires places { length at.now ≤ 512 }
    requires core { core.0 < 8 }
    ensures plan { IfOk result (λ moves. moves.items ≡ add_plan cores.now.live core.0 at.now) }
    ensures even { IfOk result (λ moves. due (slice_set cores.now.live core.0 true) (carried moves.items at.now) ≡ None) }
    ensures moves { IfOk result (λ moves. All (IsMoveTo (slice_set cores.now.live core.0 true) (length at.now)) moves.items) }
    ensures elsewhere { IfOk result (λ moves. GoElsewhere at.now moves.items) }
{
    let mut live = cores.live;
    live[core.0 as usize] = true;
    even_out(alloc, at, &live)
}

// The moves that even out these live cores.
fn even_out(alloc: Global, at: &[CoreId], live: &[bool; 8]) -> Result<Vec<PlanMove>, NoMemory>
    requires { length at.now ≤ 512 }
    ensures { IfOk result (λ moves. moves.items ≡ evening_moves live.now (length at.now) at.now) }
{
    let mut places = Places::new(alloc, at)?;
    let mut moves = Vec::new(alloc);
    let mut left = at.len();
    while left > 0 {
        match places.due(live) {
            None => return Ok(moves),
            Some(due) => {
                places.put(due.group.0 as usize, due.to);
                moves.push(due)?;
            }
        }
        left -= 1;
    }
    Ok(moves)
}

/// The moves by which a core gives up its places: each of them, rising, goes to the other live core that has the fewest so far, the
/// lowest at a tie. `at` has each place's core.
#[tactic(auto, unfolding(crate::specs::Plan::revoke_plan))]
pub fn plan_revoke(
    alloc: Global,
    at: &[CoreId],
    cores: &Cores,
    core: CoreId,
) -> Result<Vec<PlanMove>, NoMemory>
    requires places { length at.now ≤ 512 }
    requires core { core.0 < 8 }
    ensures plan { IfOk result (λ moves. moves.items ≡ revoke_plan cores.now.live core.0 at.now) }
    ensures moves { IfOk result (λ moves. All (IsMoveTo (slice_set cores.now.live core.0 false) (length at.now)) moves.items) }
    ensures elsewhere { IfOk result (λ moves. GoElsewhere at.now moves.items) }
{
    let mut others = cores.live;
    others[core.0 as usize] = false;
    give_up(alloc, at, &others, core)
}

// The moves that bring a core's places to others.
fn give_up(
    alloc: Global,
    at: &[CoreId],
    others: &[bool; 8],
    core: CoreId,
) -> Result<Vec<PlanMove>, NoMemory>
    requires { length at.now ≤ 512 }
    ensures { IfOk result (λ moves. moves.items ≡ leaving_moves others.now core.0 0 at.now at.now) }
{
    let mut places = Places::new(alloc, at)?;
    let mut moves = Vec::new(alloc);
    for (place, owner) in at.iter().enumerate() {
        if owner.0 == core.0 {
            match places.idlest(others) {
                None => return Ok(moves),
                Some(to) => {
                    places.put(place, CoreId(to));
                    moves.push(PlanMove {
                        group: GroupId(place as u16),
                        to: CoreId(to),
                    })?;
                }
            }
        }
    }
    Ok(moves)
}

/// Does nothing: its contract is the law of the plans. Whichever cores are live, each move of a plan is one of a place that is there, to
/// a live core, and to another core than the one that the place is on by the moves before it.
pub fn plans_go_elsewhere()
    ensures { ArePlans }
{}
