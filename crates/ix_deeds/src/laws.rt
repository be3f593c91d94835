// The laws.
ghost use Rattle.ix_deeds.specs.Going.{AllDesksStay, PiecesAreOpen, UnitsGoOn};
ghost use Rattle.ix_deeds.specs.Rings.{RingsAreRight};

use ix_history::HandsOut;

/// Nothing happens here: the contract says how the unit of a flow group goes on from one moment to the next, on any number of cores.
///
/// - `units`: where the unit is on one core alone at the first moment, the one in the group's open piece at the second is that unit after some
///   acts. Each act steps items of one tenure on one core, no more that count than a turn's bound, or hands something out.
/// - `rings`: what the entries of a wire list put on a ring stands right there for each group whose tags and moves alternate: in the piece of
///   its tenure, or behind the tag of the piece before.
/// - `stay`: a core keeps its number, and has desks for as many groups.
/// - `pieces`: the open piece of a group is the one that the items of the ring open.
pub fn units_go_on<U: HandsOut>()
    ensures units { UnitsGoOn U.counted U.name U.stepped U.advanced U.lends }
    ensures stay { AllDesksStay U.counted U.name U.stepped U.advanced U.lends }
    ensures rings { RingsAreRight U.Item U.name }
    ensures pieces { PiecesAreOpen U.counted U.name U.stepped U.advanced U.lends }
{}
