// Laws on turns of the card.
ghost use Rattle.ix_feed.specs.Told.{BuffersAreFilled, CardsStayFed, CountsFollow, EntriesAreFed, ItemsAreTold, WiresCanBeFed};

use ix_nic::entries_are_carried_out;

/// Nothing happens here: the contract says what stands on the rings after turns of the card. Each ring was given what the lines of the entries
/// put on it, in the words of the law on pieces; each accepted frame stands on the ring of its group's core; the table is the one after all moves.
pub fn entries_are_fed()
    ensures { EntriesAreFed }
{
    entries_are_carried_out();
}

/// Nothing happens here: the contract says that the items on the rings are those of the lines. A frame has the number of an entry whose line says
/// that it was accepted to this ring, into the buffer that holds it, and its bytes are those of the entry's record; a time is that of its entry.
pub fn items_are_told()
    ensures { ItemsAreTold }
{}

/// Nothing happens here: the contract says how turns count. The items of a ring and its frames are counted on by what the lines put on it, an end
/// not among the items; each count stands still at its type's end.
pub fn counts_follow()
    ensures { CountsFollow }
{}

/// Nothing happens here: the contract says what becomes of buffers. Those that were taken from a posting ring are in the accepted frames of that
/// ring, in order, but for one that is kept; and names change only where a buffer is filled, each time to that of its next use.
pub fn buffers_are_filled()
    ensures { BuffersAreFilled }
{}

/// Nothing happens here: the contract says when a card that was fed can be fed on: after a meeting with its cores, and after a settle, in the next
/// epoch.
pub fn cards_stay_fed()
    ensures { CardsStayFed }
{}

/// Nothing happens here: the contract says that the wire list of a script can be fed to the card of a play from the opening on.
pub fn wires_can_be_fed()
    ensures { WiresCanBeFed }
{}
