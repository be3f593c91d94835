// The law.
ghost use Rattle.ix_entire.specs.Entire.{RunsAreWhole, RunsCanClose};

use ix_begun::plays_begin;
use ix_carried::courses_fit;
use ix_epochs::meetings_are_ready;
use ix_fed::courses_go_on;
use ix_fits::steps_are_named;
use ix_history::cores_join;
use ix_moments::runs_are_played;
use ix_plainstack::PlainStack;
use ix_settled::Lending;

/// Nothing happens here: the contract says what a run of the card and the cores comes to.
///
/// - `close`: after a meeting it can be closed.
/// - `whole`: where it is closed, it leaves what a whole play leaves (`ix_whole`).
pub fn runs_are_whole()
    ensures close { RunsCanClose }
    ensures whole { RunsAreWhole }
{
    plays_begin();
    runs_are_played();
    courses_go_on();
    courses_fit();
    meetings_are_ready::<PlainStack>();
    cores_join::<Lending>();
    steps_are_named::<Lending>();
}
