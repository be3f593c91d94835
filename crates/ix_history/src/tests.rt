// What no clause says: that the premises of the laws are met, by plays that were worked out by hand.
ghost use Rattle.ix_history.specs.Worked.{WorkedPlays};

// Two plays of two cores that the law on all cores is about, and a list of events that is no history.
fn plays_are_worked()
    ensures { WorkedPlays }
{}

#[test]
fn plays() {
    plays_are_worked();
}
