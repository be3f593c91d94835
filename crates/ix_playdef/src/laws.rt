// A law on the groups of all plays.
ghost use Rattle.ix_playdef.specs.Sound.{RecordsAreSound, RecordsAreTold, TakersAreSound};

use ix_appdef::answers_grow;
use ix_groupdef::groups_are_sound;

/// Nothing happens here: the contract says what is true of what each flow group leaves of a play on one core, for every configuration, every
/// capture and every wire list. The group took the accepted frames of its flows, in wire order; none is lost, doubled or moved among
/// journals and strays. A connection has only segments of its flow, those that arrived while it lived, in their order. The journals are
/// runs of the TCP step and legal for the cycles; at most 64 connections lived at once, and at most one of a flow. What TCP took is the
/// beginning of the answer. What an application was told are the bytes of the delivered parts, and begins the peer's stream where the
/// peer agrees with itself. The same is true of a group that took short frames of bytes with rising wire numbers, however they are cut
/// into cycles. All that a group's connections leave can be written and told.
pub fn records_are_sound()
    ensures takers { TakersAreSound }
    ensures records { RecordsAreSound }
    ensures told { RecordsAreTold }
{
    groups_are_sound();
    answers_grow();
}
