// The law.
ghost use Rattle.ix_course.specs.Course.{EpochsReachSettles, OpeningsBegin, SettlesStay};

use ix_feed::{entries_are_fed, items_are_told};
use ix_fits::wires_can_be_played;

/// Nothing happens here: the contract says how a play on the plain stacks takes its course, whatever its cores did.
///
/// - `begins`: a play before its first entry, with each flow group at home on its opening core, is at the first of its settles.
/// - `reaches`: an epoch leads from one settle to the next: the histories of the cores go on, what each took from its ring is what the entries put
///   on it, and all cores are idle.
/// - `stays`: a settle changes nothing of that.
pub fn plays_take_their_course()
    ensures begins { OpeningsBegin }
    ensures reaches { EpochsReachSettles }
    ensures stays { SettlesStay }
{
    entries_are_fed();
    items_are_told();
    wires_can_be_played();
}
