// The laws.
ghost use Rattle.ix_owned.specs.Owned.{CoresAreSummed, HomesAreRight, SettlesTellOwners};

use ix_deeds::units_go_on;
use ix_plainstack::groups_own_what_is_out;
use ix_settled::Lending;

/// Nothing happens here: the contract says where the buffers are at the settles of a play on the plain stacks.
///
/// - `sums`: what is summed over cores is summed over their desks.
/// - `homes`: the frames that wait at desks, and those that the stacks hold, have lent to the application and queue, by the homes of their
///   buffers, are as many as the definitions say of the cycles.
/// - `settles`: where no buffer is there twice, and the buffer of a frame that stays out from one settle to the next is printed in no entry
///   between them, the settles of the report tell the owners.
pub fn settles_tell_owners()
    ensures sums { CoresAreSummed }
    ensures homes { HomesAreRight }
    ensures settles { SettlesTellOwners }
{
    units_go_on::<Lending>();
    groups_own_what_is_out();
}
