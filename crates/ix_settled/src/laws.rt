// The laws.
ghost use Rattle.ix_settled.specs.Cuts.{GroupsLeave, PlaysAreCut};
ghost use Rattle.ix_settled.specs.Renamed.{PlaysAreRenamed};

use crate::lending::Lending;
use ix_deeds::units_go_on;
use ix_fits::{cuttings_are_read, steps_are_named};
use ix_history::{cores_join, histories_join};
use ix_order::pieces_joined;
use ix_plainstack::stacks_stand;

/// Nothing happens here: the contract says how the stacks of a play cut the entries of their flow groups, whatever the cores did between its
/// settles.
///
/// - `cut`: of each group there is one list of cycles for all settles. At each settle the first of them cut what the group has stepped of the
///   entries that are carried out, and the group's stack, on the core of its last tenure alone, stands for them; the frames that wait there
///   are those behind an open tag.
/// - `renamed`: the frames of a play can be named so that the naming agrees with all entries.
/// - `leave`: what the stack leaves at the end is what the group leaves of all of them.
pub fn plays_are_cut()
    ensures cut { PlaysAreCut }
    ensures renamed { PlaysAreRenamed }
    ensures leave { GroupsLeave }
{
    pieces_joined();
    histories_join::<Lending>();
    cores_join::<Lending>();
    units_go_on::<Lending>();
    steps_are_named::<Lending>();
    cuttings_are_read();
    stacks_stand();
}
