// Laws on plays and their reports.
ghost use Rattle.ix_sheet.specs.Play.{PlaysCanBeReported, ReportsFit};

use ix_groupdef::groups_are_sound;
use ix_tellable::records_can_be_told;

/// Nothing happens here: the contract says that what a play leaves can be reported, for every configuration, every capture and every wire
/// list, where the card and the settles fit the wire list and each group took its entries in some cycles.
pub fn plays_can_be_reported()
    ensures { PlaysCanBeReported }
{
    groups_are_sound();
    records_can_be_told();
}

/// Nothing happens here: the contract says that the report of what a play leaves fits its configuration, its capture and its wire list, with
/// the file of its replies, where the settles tell where the buffers are and the connects have their answers.
pub fn reports_fit()
    ensures { ReportsFit }
{
    groups_are_sound();
    records_can_be_told();
    plays_can_be_reported();
}
