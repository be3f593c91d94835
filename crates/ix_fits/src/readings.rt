// The law on the cutting that a trace tells.
ghost use Rattle.ix_fits.specs.Readings.{ReadingsFit};

use ix_appdef::answers_grow;
use ix_groupdef::groups_are_sound;

/// Nothing happens here: the contract says that a report which fits in some cycles fits in those that are read from its own lines, with the
/// same replies in the same order. So whoever asks whether a report fits need not look for its cycles.
pub fn readings_fit()
    ensures { ReadingsFit }
{
    groups_are_sound();
    answers_grow();
}
