// The law.
ghost use Rattle.ix_fed.specs.Fed.{CoursesGoOn, EpochsEndInSettles};

/// Nothing happens here: the contract says what the turns of a card in an epoch make of the course of a play.
///
/// - `goes_on`: behind the entries so far, an epoch and its settle are the next of the course (`ix_carried`).
/// - `ends`: the last line of an epoch is that of a settle, and no other is.
pub fn courses_go_on()
    ensures goes_on { CoursesGoOn }
    ensures ends { EpochsEndInSettles }
{}
