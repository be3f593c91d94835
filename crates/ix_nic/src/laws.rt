// A law on many entries.
ghost use Rattle.ix_nic.specs.Entries.{EntriesAreCarriedOut};

/// Nothing happens here: the contract says what stands on the rings where entries were carried out one after the other, each by its call.
///
/// Each ring has what the wire list puts on it, in the words of the law on pieces; each accepted frame stands on the ring of its group's
/// core, which that law asks; the table is the one after all moves; and no buffer is lost.
pub fn entries_are_carried_out()
    ensures { EntriesAreCarriedOut }
{}
