// The entries of a group among those of a report.
ghost use Rattle.std.specs.Prelude.{◌≡◌, ◌++◌, ◌<◌, ◌≤◌, ◌^◌, All, IfOk, OnOk, length, map, option_to_list, slice_get};
ghost use Rattle.ix_pcap.specs.Capture.{IsSpanOf, frames_of};
ghost use Rattle.ix_fits.specs.Card.{entry_of};
ghost use Rattle.ix_fits.specs.Cutting.{due_of, dues, frame_given, given_by, if_accepted};
ghost use Rattle.ix_fits.specs.Read.{core_of};
ghost use Rattle.ix_order.specs.Steppers.{stepper};
ghost use Rattle.ix_reta.specs.Table.{opening_core};
ghost use Rattle.ix_told.specs.Entries.{last_tag_of, stage_of};
ghost use Rattle.ix_told.specs.Short.{AreShort, IsHeldShort, IsShortIfAny, IsShortLine, IsShortlyGiven};

use crate::progress::Progress;
use ix_base::{Bytes, CoreId, GroupId, NoMemory, WireNo};
use ix_fits::opening_core;
use ix_groupdef::Taken;
use ix_lines::{EntryLine, Fate};
use ix_pcap::Span;
use ix_playdef::Given;
use std::alloc::Global;
use std::marker::Model;

/// An entry of a group: an accepted frame of at most 2,048 bytes, or a time.
#[derive(Drop)]
pub struct GroupEntry {
    /// What it gives the group.
    pub given: Given,
    /// The core that steps it, if one does.
    pub core: Option<CoreId>,
    /// How many tags of the group stand before it.
    pub tenure: usize,
    /// How many settles stand before it at which no tag of the group was open.
    pub settles: usize,
}

impl Model for GroupEntry {
    ghost use Rattle.ix_fits.specs.Cutting.{Due};
    ghost use Rattle.ix_told.specs.Entries.{core_number};
    ghost use Rattle.ix_told.specs.Short.{IsShortGiven};

    ghost Value = { Due };

    ghost view = { λ e. record { given = e.given; core = core_number e.core; tenure = e.tenure; settles = e.settles } };

    ghost invariant = { λ e. IsShortGiven e.given };
}

impl GroupEntry {
    /// The core that steps it, or core 0.
    #[tactic(auto, using(crate::proofs::CycleLaws::for_cores))]
    pub fn stepping_core(&self) -> CoreId
        ensures { result ≡ core_of self.now }
    {
        match self.core {
            Some(core) => core,
            None => CoreId(0),
        }
    }
}

// The frame of a record.
fn frame_given(
    alloc: Global,
    bytes: &[u8],
    spans: &[Span],
    w: WireNo,
    rec: u32,
) -> Result<Option<Given>, NoMemory>
    requires spans { All (IsSpanOf bytes.now) spans.now }
    requires short { IsShortIfAny (slice_get (frames_of bytes.now spans.now) rec) }
    ensures given { IfOk result (λ given. option_to_list given ≡ frame_given w.0 (slice_get (frames_of bytes.now spans.now) rec)) }
    ensures short { IfOk result IsShortlyGiven }
{
    match spans.get(rec as usize) {
        Some(span) => {
            let frame = Bytes::from_slice(alloc, &bytes[span.from..span.to])?;
            Ok(Some(Given::Frame(Taken { w, frame })))
        }
        None => Ok(None),
    }
}

// The frame of a record that the card accepted.
fn accepted_given(
    alloc: Global,
    bytes: &[u8],
    spans: &[Span],
    w: WireNo,
    rec: u32,
    fate: Fate,
) -> Result<Option<Given>, NoMemory>
    requires spans { All (IsSpanOf bytes.now) spans.now }
    requires short { IsHeldShort fate (slice_get (frames_of bytes.now spans.now) rec) }
    ensures given { IfOk result (λ given. option_to_list given ≡ if_accepted fate (frame_given w.0 (slice_get (frames_of bytes.now spans.now) rec))) }
    ensures short { IfOk result IsShortlyGiven }
{
    match fate {
        Fate::Buf(_) => frame_given(alloc, bytes, spans, w, rec),
        _ => Ok(None),
    }
}

// What an entry gives a group.
fn given_by(
    alloc: Global,
    bytes: &[u8],
    spans: &[Span],
    group: GroupId,
    w: WireNo,
    entry: &EntryLine,
) -> Result<Option<Given>, NoMemory>
    requires spans { All (IsSpanOf bytes.now) spans.now }
    requires short { IsShortLine (frames_of bytes.now spans.now) entry.now }
    ensures given { IfOk result (λ given. option_to_list given ≡ given_by (frames_of bytes.now spans.now) group.0 w.0 entry.now) }
    ensures short { IfOk result IsShortlyGiven }
{
    match entry {
        EntryLine::Frame {
            rec,
            group: of,
            fate,
            ..
        } => {
            if of.0 == group.0 {
                accepted_given(alloc, bytes, spans, w, *rec, *fate)
            } else {
                Ok(None)
            }
        }
        EntryLine::Time { t } => Ok(Some(Given::Time { w, t: *t })),
        _ => Ok(None),
    }
}

// Adds what an entry gives a group that has come so far and stood on a core at the opening: `rest` is the entry and what follows it.
fn push_given(
    group: GroupId,
    opening: CoreId,
    progress: Progress,
    rest: &[EntryLine],
    given: Option<Given>,
    entries: &mut Vec<GroupEntry>,
) -> Result<(), NoMemory>
    requires { IsShortlyGiven given }
    ensures { OnOk result (entries.new.items ≡ entries.old.items ++ map (due_of (stepper group.0 opening.0 (stage_of progress).last (map entry_of rest.now)) (stage_of progress)) (option_to_list given)) }
{
    let Some(given) = given else {
        return Ok(());
    };
    entries.push(GroupEntry {
        given,
        core: progress.stepper(group, opening, rest),
        tenure: progress.tags,
        settles: progress.settles,
    })?;
    Ok(())
}

/// The entries of a group, in wire order: its accepted frames, and all times.
#[tactic(auto, using(crate::proofs::EntryLaws::for_dues))]
pub fn entries_of(
    alloc: Global,
    bytes: &[u8],
    spans: &[Span],
    live: u8,
    group: GroupId,
    lines: &[EntryLine],
) -> Result<Vec<GroupEntry>, NoMemory>
    requires spans { All (IsSpanOf bytes.now) spans.now }
    requires live { 0 < live }
    requires numbers { length lines.now < 2 ^ 32 }
    requires short { AreShort (frames_of bytes.now spans.now) lines.now }
    ensures { IfOk result (λ entries. entries.items ≡ dues (frames_of bytes.now spans.now) group.0 (opening_core live group.0).0 lines.now) }
{
    let opening = opening_core(live, group);
    let mut entries = Vec::new(alloc);
    let mut progress = Progress::first();
    for (w, line) in lines.iter().enumerate() {
        let given = given_by(alloc, bytes, spans, group, WireNo(w as u32), line)?;
        push_given(group, opening, progress, &lines[w..], given, &mut entries)?;
        progress = progress.after(group, line);
    }
    Ok(entries)
}
