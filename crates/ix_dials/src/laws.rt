// The laws.
ghost use Rattle.ix_dials.specs.Dials.{DialsAreAsked, StandAtFirst};

use ix_plainstack::stacks_stand;

/// Nothing happens here: the contract says what connects before the first entry make of the plain stacks.
///
/// - `first`: new stacks stand for no connects.
/// - `asked`: where core 0 connects to some peers in turn, each from the first port whose flow's group is at home there and has no connection
///   of it, the stacks stand for exactly the connects that a play is to make, and the answers are those of a play.
pub fn dials_are_asked()
    ensures first { StandAtFirst }
    ensures asked { DialsAreAsked }
{
    stacks_stand();
}
