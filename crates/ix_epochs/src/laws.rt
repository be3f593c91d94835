// The laws of epochs. A law does nothing: its contract says what holds.
ghost use Rattle.ix_epochs.specs.Playing.{EpochsArePlayed};
ghost use Rattle.ix_epochs.specs.Ready.{EpochsAreReady, MeetingsAreReady, OpeningsAreReady, SettlesAreReady};
ghost use Rattle.ix_epochs.specs.Weights.{EpochsConserve};

use ix_core::{opening_is_in_order, turns_conserve};
use ix_feed::entries_are_fed;
use ix_stack::GroupStack;

/// A card and cores that are opened over the ends of new rings are ready for an epoch.
pub fn openings_are_ready<G: GroupStack>()
    ensures { OpeningsAreReady G G.Env }
{
    opening_is_in_order::<G>();
}

/// A card and cores that are ready for an epoch are ready to settle, once they have met.
pub fn meetings_are_ready<G: GroupStack>()
    ensures { MeetingsAreReady G G.Env }
{}

/// After an epoch they are ready to settle.
pub fn epochs_are_ready<G: GroupStack>()
    ensures { EpochsAreReady G.counted G.name G.stepped G.advanced G.drained }
{
    entries_are_fed();
}

/// After a settle they are ready for an epoch.
pub fn settles_are_ready<G: GroupStack>()
    ensures { SettlesAreReady G G.Env }
{}

/// What the cores did in an epoch joins: each took what the card put on its ring, and what one shipped to another came there.
pub fn epochs_are_played<G: GroupStack>()
    ensures { EpochsArePlayed G.counted G.name G.stepped G.advanced G.drained }
{
    entries_are_fed();
}

/// No buffer is lost in an epoch, none is made, and none is there twice.
pub fn epochs_conserve<G: GroupStack>()
    ensures { EpochsConserve G.counted G.name G.stepped G.advanced G.drained G.weight }
{
    entries_are_fed();
    turns_conserve::<G>();
}
