// The laws.
ghost use Rattle.ix_homes.specs.Held.{EpochsFill, HeldIsOwn, SettlesHold};
ghost use Rattle.ix_homes.specs.Homes.{EpochsKeepOwn, HomesAddUp, SettlesKeepOwn};

use ix_epochs::{epochs_conserve, settles_are_ready};
use ix_feed::buffers_are_filled;
use ix_stack::GroupStack;

/// Nothing happens here: the contract says what is held between the epochs of a play, for each weight of buffers' names.
///
/// - `epochs`: over an epoch some buffers were filled, among them those of the frames that were accepted, and each is in its next use; no other
///   buffer came or went.
/// - `settles`: a settle loses no buffer and makes none.
/// - `own`: where as much is held of each buffer as was made, the buffers that return are those of the pools, no more of each than there are.
pub fn buffers_are_held<G: GroupStack>()
    ensures epochs { EpochsFill G G.Env G.counted G.name G.stepped G.advanced G.drained G.weight }
    ensures settles { SettlesHold G G.Env G.weight }
    ensures own { HeldIsOwn G G.Env G.weight }
{
    epochs_conserve::<G>();
    settles_are_ready::<G>();
    buffers_are_filled();
}

/// Nothing happens here: the contract says whose buffers are where, and how the numbers of a home add up.
///
/// - `epochs`, `settles`: the buffers that are posted to a core's ring, and the one that the card keeps, are the core's own, and stay so; and the
///   frames that are accepted lie in such buffers.
/// - `homes`: between epochs each buffer of a core is free in its pool, posted, in a frame that waits at a desk of some core, or owned by a flow
///   group on some core.
pub fn homes_add_up<G: GroupStack>()
    ensures epochs { EpochsKeepOwn G G.Env G.counted G.name G.stepped G.advanced G.drained }
    ensures settles { SettlesKeepOwn G G.Env }
    ensures homes { HomesAddUp G G.Env G.drained G.weight G.owners }
{
    buffers_are_filled();
}
