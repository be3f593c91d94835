// A law over all frames.
ghost use Rattle.ix_steer.specs.Steering.{SegmentsHaveTheirFlowsGroup};

use ix_seg::segments_name_their_flow;

/// Nothing happens here: the contract says what is true of every frame that is a segment for this machine, whoever tells echo requests
/// apart and whether the TCP checksum is tested or not.
///
/// It is of the group of its flow, so that a connection's segments are all of one group.
pub fn segments_have_their_flows_group()
    ensures { SegmentsHaveTheirFlowsGroup }
{
    segments_name_their_flow();
}
