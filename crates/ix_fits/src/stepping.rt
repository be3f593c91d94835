// Laws on what cores step.
ghost use Rattle.ix_fits.specs.Stepping.{SteppingLaw, TenuresAreRuns};

use ix_history::{HandsOut, cores_join};

/// Nothing happens here: the contract says what the units of flow groups have stepped once cores have played a wire list, as
/// `ix_history::cores_join` has it, on any number of cores and for any unit.
///
/// Of each group whose tags and moves alternate, as those of every script do, the unit is on the core of the group's last tenure, and has
/// stepped the group's entries in wire order, without those behind an open tag, each on the core that the wire list alone names. Where no
/// tag is open it has stepped all, and nothing waits.
pub fn steps_are_named<U: HandsOut>()
    ensures { SteppingLaw U.counted U.name U.stepped U.advanced U.lends }
{
    cores_join::<U>();
}

/// Nothing happens here: the contract says that the tenures of what was stepped are its longest runs on one core: each is not empty, with its
/// first and its last entry; they are all of it, one behind the other; and no two that follow one another are on one core.
pub fn tenures_are_runs()
    ensures { TenuresAreRuns }
{}
