// The law.
ghost use Rattle.ix_slots.specs.Slots.{FramesAreOwn};

/// Nothing happens here: the contract says that each accepted frame lies in a buffer of its ring's core, where the buffers that were used for the
/// frames of a ring are those of its core's pool.
pub fn frames_lie_in_slots()
    ensures { FramesAreOwn }
{}
