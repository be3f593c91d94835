// Laws on the order of replies.
ghost use Rattle.ix_places.specs.Laws.{PlacesAreTold, RepliesAreNumbered};

/// Nothing happens here: the contract says that a report which fits for some order of the connections' timers and flushes fits for that
/// which its own lines tell, in the same cycles and with the same file of replies. So whoever asks whether a report fits need not look for
/// the order.
pub fn places_are_told()
    ensures { PlacesAreTold }
{}

/// Nothing happens here: the contract says that whatever the groups of a play leave, and in whatever order their connections take timers
/// and flushes, no two replies have one key, and the number of each is its place among all.
pub fn replies_are_sound()
    ensures { RepliesAreNumbered }
{}
