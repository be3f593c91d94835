// The laws of turns, and of the order of all cores.
ghost use Rattle.ix_core.specs.Order.{OpeningIsInOrder, OrderStays};
ghost use Rattle.ix_core.specs.Weights.{TurnsConserve};

use ix_stack::GroupStack;

/// Whatever turns a core makes, no buffer is lost, none is made, and none is there twice: what it holds and has ever put on its rings grows
/// by what it takes from them, for each weight of buffers.
pub fn turns_conserve<G: GroupStack>()
    ensures { TurnsConserve G.counted G.name G.stepped G.advanced G.drained G.weight }
{}

/// A card and cores that are opened over the ends of their rings, in order, are in order.
pub fn opening_is_in_order<G: GroupStack>()
    ensures { OpeningIsInOrder G G.Env }
{}

/// They stay in order whatever turns they make, and whatever else leaves them the ends of their rings.
pub fn order_stays<G: GroupStack>()
    ensures { OrderStays G G.Env }
{}
