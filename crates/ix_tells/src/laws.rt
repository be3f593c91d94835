// The laws.
ghost use Rattle.ix_tells.specs.Counts.{BuffersAreOnce, SettlesCount};
ghost use Rattle.ix_tells.specs.Stays.{HomesStay, OpeningsAreHome};
ghost use Rattle.ix_tells.specs.Wholes.{SettlesAreWhole};

use ix_epochs::{epochs_are_ready, epochs_conserve, settles_are_ready};
use ix_homes::{buffers_are_held, homes_add_up};
use ix_stack::GroupStack;
use ix_uses::uses_are_told;

/// Nothing happens here: the contract says that the line which tells of a settle is whole.
///
/// - `whole`: where no buffer was lost or made, the six numbers of each home add up to the buffers of its core, and as many are posted as a ring has
///   places, or all that are not out where there are fewer.
pub fn settles_are_told<G: GroupStack>()
    ensures whole { SettlesAreWhole G G.Env G.drained G.weight G.owners }
{
    homes_add_up::<G>();
}

/// Nothing happens here: the contract says that each buffer is in its place at every settle.
///
/// - `opening`: so each is behind the settle at the opening, before any frame came.
/// - `stay`: over an epoch and the settle behind it, where no flow group is left on a core that it has gone from.
pub fn homes_stay<G: GroupStack>()
    ensures opening { OpeningsAreHome G G.Env G.drained G.weight G.owners }
    ensures stay { HomesStay G G.Env G.counted G.name G.stepped G.advanced G.drained G.weight G.owners }
{
    epochs_are_ready::<G>();
    epochs_conserve::<G>();
    settles_are_ready::<G>();
    buffers_are_held::<G>();
    homes_add_up::<G>();
    uses_are_told();
}

/// Nothing happens here: the contract says what a settle tells of the buffers that are out of the pools.
///
/// - `counts`: the numbers of frames that wait at desks, and of those that flow groups hold, lent and queue, on all cores; none of them stands at
///   the end of its type.
/// - `once`: no buffer is at the desks twice.
pub fn buffers_are_counted<G: GroupStack>()
    ensures counts { SettlesCount G G.Env G.drained G.weight G.owners }
    ensures once { BuffersAreOnce G G.Env G.drained G.weight }
{
    homes_add_up::<G>();
}
