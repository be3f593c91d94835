// The law.
ghost use Rattle.ix_owning.specs.Owning.{OwnersAreTold};

use ix_owned::settles_tell_owners;
use ix_plainstack::PlainStack;
use ix_tells::buffers_are_counted;

/// Nothing happens here: the contract says that the line of a settle tells the owners of all buffers: per home the frames that wait at the desks of
/// all cores, and those that the flow groups hold, have lent to the application and queue; and that no buffer is at the desks twice.
pub fn settles_own()
    ensures { OwnersAreTold }
{
    buffers_are_counted::<PlainStack>();
    settles_tell_owners();
}
