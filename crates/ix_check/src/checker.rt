// The decision about a trace and a file of replies.
ghost use Rattle.std.specs.Prelude.{◌≡◌, ◌<◌, ◌^◌, All, IfOk, Option, length};
ghost use Rattle.std.specs.Bool.{Decides};
ghost use Rattle.ix_conf.specs.Settings.{settings_of};
ghost use Rattle.ix_pcap.specs.Capture.{IsSpanOf, frames_of};
ghost use Rattle.ix_trace.specs.Rule.{report_text};
ghost use Rattle.ix_check.specs.Verdict.{Fit, IsVerdict, is_yes, number_of, verdict_of};

use crate::verdict::{Finding, Verdict};
use ix_base::NoMemory;
use ix_conf::Conf;
use ix_decide::{Point, failing_point};
use ix_pcap::Capture;
use ix_trace::{Report, TraceFault, read_trace};
use ix_wire::Entry;
use std::alloc::Global;

fn number_of(point: Point) -> u8
    ensures { result ≡ number_of point }
{
    match point {
        Point::Card => 1,
        Point::Groups => 2,
        Point::Connections => 3,
        Point::Replies => 4,
    }
}

// No point fails: yes.
fn verdict_of(point: Option<Point>) -> Verdict
    ensures { result ≡ verdict_of point }
{
    match point {
        None => Verdict::Yes,
        Some(point) => Verdict::No(Finding::Point {
            number: number_of(point),
        }),
    }
}

// The same of the report that has the text of a trace.
fn check_report(
    alloc: Global,
    conf: &Conf,
    bytes: &[u8],
    capture: &Capture,
    wire: &[Entry],
    replies: &[u8],
    report: &Report,
) -> Result<Verdict, NoMemory>
    requires spans { All (IsSpanOf bytes.now) capture.now }
    requires numbers { length wire.now < 2 ^ 32 }
    ensures { IfOk result (λ verdict. IsVerdict (settings_of conf.now) (frames_of bytes.now capture.now) wire.now replies.now (report_text report.now) verdict) }
{
    let _facts = report.head();
    let point = failing_point(alloc, conf, bytes, capture, wire, report, replies)?;
    Ok(verdict_of(point))
}

/// Whether a trace and a file of replies are those of a play of this configuration, these records of a capture's bytes, and this wire list,
/// or what is the first thing about them that isn't so: docs/CHECK.md.
///
/// It trusts nothing of the two texts: its yes means that the trace is the text of a report which fits, with these replies, and its no that
/// it isn't.
pub fn check(
    alloc: Global,
    conf: &Conf,
    bytes: &[u8],
    capture: &Capture,
    wire: &[Entry],
    replies: &[u8],
    trace: &[u8],
) -> Result<Verdict, NoMemory>
    requires spans { All (IsSpanOf bytes.now) capture.now }
    requires numbers { length wire.now < 2 ^ 32 }
    // Yes comes exactly where they fit.
    ensures decides { IfOk result (λ verdict. Decides (is_yes verdict) (Fit (settings_of conf.now) (frames_of bytes.now capture.now) wire.now replies.now trace.now)) }
    // No comes with the first bad line, or the first point that fails.
    ensures finding { IfOk result (λ verdict. IsVerdict (settings_of conf.now) (frames_of bytes.now capture.now) wire.now replies.now trace.now verdict) }
{
    match read_trace(alloc, trace) {
        Ok(report) => check_report(alloc, conf, bytes, capture, wire, replies, &report),
        Err(TraceFault::Line { line }) => Ok(Verdict::No(Finding::Text { line })),
        Err(TraceFault::NoMemory) => Err(NoMemory),
    }
}
