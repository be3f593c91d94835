// A law on what groups leave.
ghost use Rattle.ix_tellable.specs.Tellable.{RecordsCanBeTold};

use ix_groupdef::groups_are_sound;
use ix_ip::payloads_lie_within;
use ix_tcpdef::runs_are_sound;

/// Nothing happens here: the contract says that what a flow group leaves of a play can be told in a trace, for every configuration, every
/// capture and every cutting of its entries into cycles that have entries, where the frames that it took have at most 2,048 bytes.
///
/// Each frame that its connections give can be written, and its calls have the answers of calls; each segment of a journal has its core,
/// and each flush the last entry of its cycle; the answers to strays are short enough for a capture. And each part that an application was
/// told names one of the frames that the group took.
pub fn records_can_be_told()
    ensures { RecordsCanBeTold }
{
    groups_are_sound();
    runs_are_sound();
    payloads_lie_within();
}
