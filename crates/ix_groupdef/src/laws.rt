// Laws over all runs of a group.
ghost use Rattle.ix_groupdef.specs.Laws.{AreRuns, FewLive};
ghost use Rattle.ix_groupdef.specs.Places.{NoneLost, HearOwn, HeardInOrder};
ghost use Rattle.ix_groupdef.specs.Alone.{AreFollowed};
ghost use Rattle.ix_groupdef.specs.Cycles.{AreLegal, QuietStays};
ghost use Rattle.ix_groupdef.specs.Answered.{TookFronts};
ghost use Rattle.ix_groupdef.specs.Told.{ToldStreams};
ghost use Rattle.ix_groupdef.specs.StrayFrames.{StraysInOrder, StraysAreLeftOver};
ghost use Rattle.ix_groupdef.specs.Sent.{FramesFit};
ghost use Rattle.ix_groupdef.specs.Group.{OneLives};
ghost use Rattle.ix_groupdef.specs.Whole.{JournalsAreWhole};
ghost use Rattle.ix_groupdef.specs.Rest.{RestsAfter, ClosedStays, AllRest};

use ix_tcpdef::runs_are_sound;

/// Nothing happens here: the contract says what is true of a flow group after any connects and any cutting of its entries into cycles,
/// whatever its application answers.
///
/// The inputs of each connection with their outputs are a run of the TCP step from its opening on. No more than 64 connections live, and
/// at most one of a flow. No accepted frame is lost, doubled or moved: in wire order the segments of connections and the strays are the
/// accepted frames. A connection has only segments of its flow, and has them in wire order; so stand the strays, each with its disposition
/// and its answer. A stray was refused in a cycle of its core: of its flow no connection lived, and it did not ask to open one or 64
/// lived. A connection was opened by a segment that asked for it, where none of its flow lived and fewer than 64 did, or by a connect.
/// What a connection does depends on the entries from its opening on, and its journal is legal for the cutting. One that gave no call in
/// a round gives none in the next. Four rounds bring every connection to rest, and the end of a cycle leaves one at rest as it is, where
/// it had no input and its timer is not due; where nothing is answered before anything is told, all are at rest between cycles. Where what is told only adds to the answer, as it does for each application, what TCP took is the
/// beginning of the answer. What an application was told are the bytes of the delivered parts, and begins the peer's stream where the peer
/// agrees with itself. Under a configuration in its ranges each frame that a connection gives can be written: its head counts its body,
/// which has at most 1,460 bytes; and what its calls answer is never the answer to a connect. A segment in a journal has its core, and,
/// where each cycle has an entry, a flush the last entry of its cycle.
pub fn groups_are_sound()
    ensures runs { AreRuns }
    ensures few { FewLive }
    ensures one { OneLives }
    ensures none_lost { NoneLost }
    ensures own { HearOwn }
    ensures in_order { HeardInOrder }
    ensures strays { StraysInOrder }
    ensures left_over { StraysAreLeftOver }
    ensures followed { AreFollowed }
    ensures legal { AreLegal }
    ensures quiet { QuietStays }
    ensures rests { RestsAfter }
    ensures stays { ClosedStays }
    ensures all_rest { AllRest }
    ensures answered { TookFronts }
    ensures told { ToldStreams }
    ensures frames { FramesFit }
    ensures whole { JournalsAreWhole }
{
    runs_are_sound();
}
