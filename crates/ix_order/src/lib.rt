//! The law on pieces, over lists alone: what the rings carry of a flow group, joined by rising tenure, is what the wire list has of it.
#![tactic(auto)]

ghost use Rattle.ix_order.specs.Pieces.{PiecesJoined, PiecesOnOneRing};
ghost use Rattle.ix_order.specs.Stages.{StepsJoined};
ghost use Rattle.ix_order.specs.Ends.{PiecesEnd};
ghost use Rattle.ix_order.specs.Order.{PiecesBegin, RingsInOrder};
ghost use Rattle.ix_order.specs.Steppers.{SteppersJoined};

/// The law on pieces. For every wire list whose moves name cores below some number and whose accepted frames stand on the ring of their
/// group's core, and for every group:
///
/// - `pieces`: the pieces of the group on all rings, joined by rising tenure, are its entries; and `rings`: each stands on one ring.
/// - `steps`: the remote queue of each tenure and its piece up to the tag, joined by rising tenure, and what stands behind the last tag,
///   are its entries.
/// - `steppers`: where its tags and moves alternate, each of these entries has the tenure and the core that the wire list alone names.
/// - `ends`: a piece is cut once where its group is moved on, on the ring of its core, towards the core of the next tenure, and the piece of
///   the last tenure stays open; and each part, before a tag or behind it, stands on that ring.
/// - `order`: where its tags and moves alternate, its items stand on each ring in the order that desks ask: a piece begins, is tagged and is
///   cut, and tenures rise, up to the number of its moves.
/// - `begins`: the piece of each tenure but the first one begins once, on the ring of its core.
///
/// It does nothing: its contract is the law.
pub fn pieces_joined()
    ensures pieces { PiecesJoined }
    ensures rings { PiecesOnOneRing }
    ensures steps { StepsJoined }
    ensures steppers { SteppersJoined }
    ensures ends { PiecesEnd }
    ensures order { RingsInOrder }
    ensures begins { PiecesBegin }
{}

#[cfg(test)]
mod tests;
