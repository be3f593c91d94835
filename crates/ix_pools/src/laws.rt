// The laws.
ghost use Rattle.ix_pools.specs.Pools.{EpochsKeepPools, FramesOfEpochsAreOwn, SettlesKeepPools, SlotsStay};
ghost use Rattle.ix_pools.specs.Rings.{EpochsKeepSeats, EpochsStayWithin};

use ix_epochs::epochs_are_ready;
use ix_homes::homes_add_up;
use ix_slots::frames_lie_in_slots;
use ix_stack::GroupStack;

/// Nothing happens here: the contract says what stays of the cores and their pools.
///
/// - `epochs`, `settles`: each core keeps its number, the slots of its pool and its bound of a batch; over a settle its desks too.
/// - `slots`: so all pools have as many slots as before.
/// - `frames`: where each buffer was in its place before an epoch, the frames that it accepted lie in buffers of their rings' cores.
pub fn pools_stay<G: GroupStack>()
    ensures epochs { EpochsKeepPools G G.Env G.counted G.name G.stepped G.advanced G.drained }
    ensures settles { SettlesKeepPools G G.Env }
    ensures slots { SlotsStay G G.Env }
    ensures frames { FramesOfEpochsAreOwn G G.Env G.counted G.name G.stepped G.advanced G.drained G.weight }
{
    epochs_are_ready::<G>();
    homes_add_up::<G>();
    frames_lie_in_slots();
}

/// Nothing happens here: the contract says that a wire list which names no other cores than those of a play leads to no other.
///
/// - `seats`: where each flow group is on one of the first cores, and the moves of an epoch go to such cores, its frames are offered on their rings,
///   and each group is on one of them behind it.
/// - `within`: so it is at every epoch of a play.
pub fn rings_stay()
    ensures seats { EpochsKeepSeats }
    ensures within { EpochsStayWithin }
{}
