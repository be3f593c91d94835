// Laws on the course of the card.
ghost use Rattle.ix_carried.specs.Closes.{ReachesAll, WiresClose};
ghost use Rattle.ix_carried.specs.Laws.{CardsStay, CoursesFit};

/// Nothing happens here: the contract says what is true of every course of the card from the settle before the first entry on.
///
/// - `stays`: a card that puts what stands behind its rings, or an end on each of them, leaves all that is counted.
/// - `fits`: the lines that tell of a course fit the wire list, each frame with its clock, its group, its ring and what became of it, and
///   each settle with the frames and items since the last one; a frame is dropped only where a count permits it. It asks that the buffers
///   of accepted frames are those of their rings' cores.
pub fn courses_fit()
    ensures stays { CardsStay }
    ensures fits { CoursesFit }
{}

/// Nothing happens here: the contract says what holds behind a whole wire list.
///
/// - `closed`: a script's wire list leaves no tag of a flow group open, whatever the groups and the verdicts of its frames.
/// - `reached`: where no tag of a group is open, all entries are stepped.
pub fn wires_close()
    ensures closed { WiresClose }
    ensures reached { ReachesAll }
{}
