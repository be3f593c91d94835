// Laws over runs of a connection, and over the numbers that stand for it.
ghost use Rattle.ix_tcpdef.specs.Laws.{RunsKeep, RunsSendFairly};
ghost use Rattle.ix_tcpdef.specs.Delivered.{RunsDeliver, RunsAgree};
ghost use Rattle.ix_tcpdef.specs.Arrivals.{AcknowledgementsKeep, HoldsInPlace};
ghost use Rattle.ix_tcpdef.specs.Standing.{StandsFirst, StandsOn};
ghost use Rattle.ix_tcpdef.specs.Lived.{AllBegin, StepsLive, RunsLive};
ghost use Rattle.ix_tcpdef.specs.Onward.{StepsGoOnward, FollowsNumbers};
ghost use Rattle.ix_tcpdef.specs.Positions.{CountsAhead, TestsPast, TestsAtOrPast, TellsApart, GoesOn, FindsPosition, BeginsOpening, StepsOpen};

/// Nothing happens here: the contract says what is true of every run of a connection under a configuration in range, from any connection
/// on that keeps what connections keep. Every connection of the run keeps it too, and each frame of the run acknowledges what is expected
/// then, carries the own stream at its position, and was sent before or ends in both windows. From an opening on, the events that name
/// bytes are those of the delivered parts in order, and the bytes of these are the bytes at the positions 1, 2, .. of the peer's stream,
/// each as the segment carries it that its event names. Where every octet that lay in the window when it arrived is that of one stream at
/// its position, what was told begins that stream.
pub fn runs_are_sound()
    ensures kept { RunsKeep }
    ensures frames { RunsSendFairly }
    ensures told { RunsDeliver }
    ensures agreed { RunsAgree }
{}

/// Nothing happens here: the contract says how numbers modulo 2^32 are read as positions. Two positions less than 2^32 apart are as far
/// apart as their numbers, going up, and equal where these are; less than 2^31 apart they compare as their numbers do. The number of a
/// position that is so many further on is that sum modulo 2^32, and every number is that of the position as far ahead as it is.
pub fn numbers_stand_for_positions()
    ensures ahead { CountsAhead }
    ensures past { TestsPast }
    ensures at_or_past { TestsAtOrPast }
    ensures apart { TellsApart }
    ensures further { GoesOn }
    ensures found { FindsPosition }
{}

/// Nothing happens here: the contract says that before its opening nothing was given to a connection, and that in SYN-RECEIVED the SYN alone
/// was sent and is not acknowledged, whatever happened to it from its beginning on. That tells position 0 from position 2^32 there.
pub fn openings_stand()
    ensures begins { BeginsOpening }
    ensures steps { StepsOpen }
{}

/// Nothing happens here: the contract says that every step of a connection that was opened moves SND.UNA and SND.NXT forward, by less than
/// 2^32 each, and RCV.NXT likewise where the peer's initial number is known; the initial numbers stay. So a position before a step and its
/// number after the step give the position after it.
pub fn positions_go_onward()
    ensures steps { StepsGoOnward }
    ensures follows { FollowsNumbers }
{}

/// Nothing happens here: the contract says what is true of a connection that ran from its beginning, whatever happened to it, and that a
/// connection before its opening keeps what connections keep. Of an accepted connection all parts were told, of another none; where the
/// peer's initial number is unknown nothing came; a connection that has ended holds nothing and has no deadline.
pub fn runs_begin_and_end()
    ensures begins { AllBegin }
    ensures steps { StepsLive }
    ensures runs { RunsLive }
{}

/// Nothing happens here: the contract says that numbers stand for a connection before its opening, and that numbers which a call leaves
/// stand for the connection after a step where they are its numbers.
pub fn numbers_stand_on()
    ensures first { StandsFirst }
    ensures on { StandsOn }
{}

/// Nothing happens here: the contract says what an arrival keeps on its way. Behind the check of its acknowledgement a connection keeps what
/// connections keep; a segment that is held stands behind those held segments that begin before it.
pub fn arrivals_keep()
    ensures acknowledgements { AcknowledgementsKeep }
    ensures held { HoldsInPlace }
{}
