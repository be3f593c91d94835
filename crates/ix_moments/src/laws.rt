// The laws.
ghost use Rattle.ix_moments.specs.Runs.{EpochsGoOn, RunsArePlayed};

use ix_begun::plays_begin;
use ix_carried::wires_close;
use ix_course::plays_take_their_course;
use ix_epochs::epochs_are_played;
use ix_history::cores_join;
use ix_owning::settles_own;
use ix_plainstack::PlainStack;
use ix_pools::{pools_stay, rings_stay};
use ix_printed::uses_are_not_printed;
use ix_settled::{Lending, plays_are_cut};
use ix_tells::{homes_stay, settles_are_told};

/// Nothing happens here: the contract says that a run of the card and the cores is a play on the plain stacks, settle by settle.
///
/// - `epochs`: an epoch and its settle lead from one moment of the course to the next.
/// - `runs`: so a whole run is played.
pub fn runs_are_played()
    ensures epochs { EpochsGoOn }
    ensures runs { RunsArePlayed }
{
    plays_take_their_course();
    epochs_are_played::<PlainStack>();
    cores_join::<Lending>();
    homes_stay::<PlainStack>();
    settles_are_told::<PlainStack>();
    pools_stay::<PlainStack>();
    rings_stay();
    settles_own();
    uses_are_not_printed();
    plays_begin();
    wires_close();
    plays_are_cut();
}
