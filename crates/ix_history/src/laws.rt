// The laws.
ghost use Rattle.std.specs.Prelude.{◌≡◌};
ghost use Rattle.ix_history.specs.Laws.{HistoriesJoin, SayTogether, RunsGoOn, DeskLaw, PieceLaw, JoinLaw};

use crate::hands_out::HandsOut;
use ix_order::pieces_joined;

/// The law on histories: two that follow one another are one, and what both took, shipped, landed and handed out stands one behind the other.
/// It does nothing: its contract is the law.
pub fn histories_join<U: HandsOut>()
    ensures runs { HistoriesJoin U.counted U.name U.stepped U.advanced U.lends }
    ensures words { SayTogether U U.Item U.Out }
    ensures goes_on { RunsGoOn U.counted U.name U.stepped U.advanced U.lends }
{}

/// The desk law, for every history of a core and every tenure of a flow group:
///
/// - `tenures`: from the opening on, what the tenure stepped here is the remote queue of its arrival, and then its piece up to the tag, in
///   order, as far as work went; what was shipped at its end is the unit with the rest of the piece; and where the unit isn't here, all waits.
/// - `pieces`: whatever stood at the desks before, what they hold of the tenure follows what the history says of it.
///
/// It does nothing: its contract is the law.
pub fn desks_follow<U: HandsOut>()
    ensures tenures { DeskLaw U.counted U.name U.stepped U.advanced U.lends }
    ensures pieces { PieceLaw U.counted U.name U.stepped U.advanced U.lends }
{}

/// The law on all cores: where each core took what the card put on its ring, what one shipped to another came there, and all are idle, the
/// unit of each flow group has stepped the group's entries, tenure after tenure, each on the core of its tenure, and is on the last one's core
/// alone. It does nothing: its contract is the law.
pub fn cores_join<U: HandsOut>()
    ensures { JoinLaw U.counted U.name U.stepped U.advanced U.lends }
{
    pieces_joined();
}
