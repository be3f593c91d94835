// A whole play on one core.
ghost use Rattle.std.specs.Prelude.{◌≡◌, ◌≤◌, ◌<◌, ◌^◌, All, IfOk, count_by, length};
ghost use Rattle.ix_conf.specs.Settings.{settings_of};
ghost use Rattle.ix_pcap.specs.Capture.{IsSpanOf, frames_of};
ghost use Rattle.ix_playdef.specs.Replies.{CanBeTold, IsShort, by_opening};
ghost use Rattle.ix_report.specs.Fits.{Fits, is_dropped};

use crate::report::Report;
use crate::strays::strays_of;
use ix_base::{BUFFER_BYTES, List, NoMemory};
use ix_conf::Conf;
use ix_pcap::{Capture, Span};
use ix_playdef::{connect_answers, group_records, local_of, replies_of};
use ix_wire::Entry;
use std::alloc::Global;

/// The most replies that a report tells: their numbers have 32 bits.
const MOST: usize = 4_294_967_295;

// Whether an entry is a frame that is too long.
fn is_dropped(bytes: &[u8], spans: &[Span], entry: Entry) -> bool
    requires { All (IsSpanOf bytes.now) spans.now }
    ensures { result ≡ is_dropped (frames_of bytes.now spans.now) entry }
{
    match entry {
        Entry::Frame { rec } => match spans.get(rec as usize) {
            Some(span) => bytes[span.from..span.to].len() > BUFFER_BYTES,
            None => false,
        },
        _ => false,
    }
}

// How many entries are such frames.
fn drops_of(bytes: &[u8], spans: &[Span], entries: &[Entry]) -> usize
    requires { All (IsSpanOf bytes.now) spans.now }
    ensures count { result ≡ count_by (is_dropped (frames_of bytes.now spans.now)) entries.now }
    ensures bound { result ≤ length entries.now }
{
    entries
        .iter()
        .filter(|entry| is_dropped(bytes, spans, **entry))
        .count()
}

/// A whole play on one core, where each frame is a cycle of its own: its report fits the configuration, the capture and the wire list.
/// Memory runs out where there are more than 4,294,967,295 replies, which no report can tell.
pub fn play(
    alloc: Global,
    conf: &Conf,
    bytes: &[u8],
    capture: &Capture,
    entries: &[Entry],
) -> Result<Report, NoMemory>
    requires spans { All (IsSpanOf bytes.now) capture.now }
    requires numbers { length entries.now < 2 ^ 32 }
    ensures fits { IfOk result (λ report. Fits (settings_of conf.now) (frames_of bytes.now capture.now) entries.now by_opening report) }
    ensures few { IfOk result (λ report. length report.replies < 2 ^ 32) }
    ensures short { IfOk result (λ report. All IsShort report.replies) }

    // What each group leaves can be told.
    ensures told { IfOk result (λ report. All CanBeTold report.groups) }
{
    let groups = group_records(alloc, conf, bytes, capture, entries)?;
    let connects = connect_answers(alloc, conf)?;
    let replies = replies_of(alloc, &local_of(conf), groups.as_slice())?;
    let drops = drops_of(bytes, capture.spans(), entries);
    if replies.len() > MOST {
        return Err(NoMemory);
    }
    let strays = strays_of(alloc, replies.as_slice(), groups.as_slice())?;
    Ok(Report {
        groups: List::from_vec(groups),
        replies: List::from_vec(replies),
        connects: List::from_vec(connects),
        strays: List::from_vec(strays),
        drops: drops as u32,
    })
}
