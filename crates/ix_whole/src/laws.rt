// The laws.
ghost use Rattle.ix_whole.specs.Whole.{WholesAreReported, WholesArePlays, WholesFit};

use ix_sheet::{plays_can_be_reported, reports_fit};
use ix_worked::plays_are_worked;

/// Nothing happens here: the contract says what is true of a whole play of a configuration on the plain stacks, on any number of cores: one
/// whose settles are known, whose card fits the wire list, and of which the close hands out all groups.
///
/// - `plays`: what it leaves is what a play of the wire list leaves in some cycles.
/// - `reported`: it can be reported.
/// - `fit`: its report and the file of its replies fit the configuration, the capture and the wire list.
pub fn plays_fit()
    ensures plays { WholesArePlays }
    ensures reported { WholesAreReported }
    ensures fit { WholesFit }
{
    plays_are_worked();
    plays_can_be_reported();
    reports_fit();
}
