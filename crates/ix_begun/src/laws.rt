// The law.
ghost use Rattle.ix_begun.specs.Begun.{PlaysBegin};

use ix_course::plays_take_their_course;
use ix_dials::dials_are_asked;
use ix_epochs::{meetings_are_ready, openings_are_ready};
use ix_owning::settles_own;
use ix_plainstack::PlainStack;
use ix_tells::{homes_stay, settles_are_told};

/// Nothing happens here: the contract says that a play which opened, connected to its peers and was settled is in its course: each group's
/// stack stands for its connects, each buffer is free in its pool or posted, and the first settle tells so.
pub fn plays_begin()
    ensures { PlaysBegin }
{
    dials_are_asked();
    plays_take_their_course();
    openings_are_ready::<PlainStack>();
    meetings_are_ready::<PlainStack>();
    homes_stay::<PlainStack>();
    settles_are_told::<PlainStack>();
    settles_own();
}
