// Laws over all frames.
ghost use Rattle.ix_seg.specs.Frame.{SegmentsLieWithin, SegmentsNameTheirFlow};

use ix_ip::payloads_lie_within;

/// Nothing happens here: the contract says what is true of every frame that is a segment, whoever tells echo requests apart and whether
/// the checksum is tested or not.
///
/// Its body is the `len` bytes of the frame from place `at` on, and lies within the frame.
pub fn segments_lie_within()
    ensures { SegmentsLieWithin }
{
    payloads_lie_within();
}

/// Nothing happens here: the contract says what is true of every frame that is a segment, whoever tells echo requests apart and whether
/// the checksum is tested or not.
///
/// It names the flow of that segment.
pub fn segments_name_their_flow()
    ensures { SegmentsNameTheirFlow }
{}
