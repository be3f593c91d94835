// The laws.
ghost use Rattle.ix_printed.specs.Printed.{UsesAreNotPrinted};
ghost use Rattle.ix_printed.specs.Short.{EpochsAreShort};

use ix_epochs::epochs_are_ready;
use ix_homes::buffers_are_held;
use ix_owned::settles_tell_owners;
use ix_plainstack::PlainStack;
use ix_uses::uses_are_told;

/// Nothing happens here: the contract says that a buffer which is out in the same use at two settles in a row is printed in no entry between them.
pub fn uses_are_not_printed()
    ensures { UsesAreNotPrinted }
{
    epochs_are_ready::<PlainStack>();
    buffers_are_held::<PlainStack>();
    uses_are_told();
    settles_tell_owners();
}

/// Nothing happens here: the contract says that an epoch of a wire list has few entries, so few that none of its cores' buffers can come back to
/// the use that it was in.
pub fn epochs_are_short()
    ensures { EpochsAreShort }
{}
