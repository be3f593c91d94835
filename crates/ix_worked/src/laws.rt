// The law.
ghost use Rattle.ix_worked.specs.Worked.{PlaysAreWorked};

use ix_owned::settles_tell_owners;
use ix_settled::plays_are_cut;

/// Nothing happens here: the contract says that a play of a configuration has cycles, in which its report fits.
///
/// They cut what each flow group is to take of the report's entries, the settles of the report tell the owners, and what the close of the cores
/// hands out are all groups, each with what it leaves of its cycles.
pub fn plays_are_worked()
    ensures { PlaysAreWorked }
{
    plays_are_cut();
    settles_tell_owners();
}
