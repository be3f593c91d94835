// A law on all reports.
ghost use Rattle.ix_report.specs.Sound.{ReportsAreSound, ReportsHaveText};

use ix_playdef::records_are_sound;

/// Nothing happens here: the contract says what is true of every report that fits its configuration, its capture and its wire list. Each
/// group took the accepted frames of its flows, in wire order; none is lost, doubled or moved among journals and strays. A connection has
/// only segments of its flow, those that arrived while it lived, in their order. The journals are runs of the TCP step and legal for the
/// cycles. What TCP took is the beginning of the answer. What an application was told are the bytes of the delivered parts, and begins the
/// peer's stream where the peer agrees with itself. The report has its text: none of its lines is missing.
pub fn reports_are_sound()
    ensures sound { ReportsAreSound }
    ensures text { ReportsHaveText }
{
    records_are_sound();
}
