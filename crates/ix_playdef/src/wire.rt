// What each flow group is given of a wire list.
ghost use Rattle.std.specs.Prelude.{◌≡◌, ◌<◌, ◌^◌, All, IfOk, OnOk, length};
ghost use Rattle.ix_pcap.specs.Capture.{IsSpanOf, frames_of};
ghost use Rattle.ix_playdef.specs.Wire.{AreEmpty, GetFrame, GetTime, GetEntry, AreGiven};

use ix_base::{BUFFER_BYTES, Bytes, FLOW_GROUPS, List, NoMemory, WireNo};
use ix_groupdef::Taken;
use ix_pcap::{Capture, Span};
use ix_steer::frame_group;
use ix_wire::Entry;
use std::alloc::Global;

/// What a flow group is given of a wire list.
#[derive(Debug, Drop)]
pub enum Given {
    /// An accepted frame of the group.
    Frame(Taken),
    /// An entry that sets the clock, in ticks; it is of every group.
    Time { w: WireNo, t: u32 },
}

// Gives a frame to its group.
fn give_frame(
    alloc: Global,
    w: WireNo,
    frame: &[u8],
    lists: &mut [List<Given>],
) -> Result<(), NoMemory>
    requires { length lists.old ≡ 512 }
    ensures { OnOk result (GetFrame w.0 frame.now lists.old lists.new) }
{
    if frame.len() > BUFFER_BYTES {
        return Ok(());
    }
    let group = frame_group(frame).0 as usize;
    let taken = Taken {
        w,
        frame: Bytes::from_slice(alloc, frame)?,
    };
    let list = &mut lists[group];
    list.push(Given::Frame(taken))?;
    Ok(())
}

// Gives a time to every group.
#[tactic(auto, using(crate::proofs::Lists::for_time))]
fn give_time(w: WireNo, t: u32, lists: &mut [List<Given>]) -> Result<(), NoMemory>
    ensures { OnOk result (GetTime w.0 t lists.old lists.new) }
{
    for list in lists.iter_mut() {
        list.push(Given::Time { w, t })?;
    }
    Ok(())
}

// Gives one entry to the groups that it is of.
#[tactic(auto, using(crate::proofs::Lists::for_entry))]
fn give(
    alloc: Global,
    bytes: &[u8],
    spans: &[Span],
    w: WireNo,
    entry: Entry,
    lists: &mut [List<Given>],
) -> Result<(), NoMemory>
    requires spans { All (IsSpanOf bytes.now) spans.now }
    requires groups { length lists.old ≡ 512 }
    ensures { OnOk result (GetEntry (frames_of bytes.now spans.now) w.0 entry lists.old lists.new) }
{
    match entry {
        Entry::Frame { rec } => match spans.get(rec as usize) {
            Some(span) => give_frame(alloc, w, &bytes[span.from..span.to], lists),
            None => Ok(()),
        },
        Entry::Time { t } => give_time(w, t, lists),
        _ => Ok(()),
    }
}

// An empty list for each group.
fn empty_lists(alloc: Global) -> Result<Vec<List<Given>>, NoMemory>
    ensures count { IfOk result (λ lists. length lists.items ≡ 512) }
    ensures empty { IfOk result (λ lists. AreEmpty lists.items) }
{
    let mut lists = Vec::with_capacity(alloc, FLOW_GROUPS)?;
    for _group in 0..FLOW_GROUPS {
        lists.push(List::new(alloc))?;
    }
    Ok(lists)
}

// Gives all entries to the groups that they are of.
#[tactic(auto, using(crate::proofs::Lists::for_entries))]
fn give_all(
    alloc: Global,
    bytes: &[u8],
    spans: &[Span],
    entries: &[Entry],
    lists: &mut [List<Given>],
) -> Result<(), NoMemory>
    requires spans { All (IsSpanOf bytes.now) spans.now }
    requires numbers { length entries.now < 2 ^ 32 }
    requires groups { length lists.old ≡ 512 }
    requires empty { AreEmpty lists.old }
    ensures { OnOk result (AreGiven (frames_of bytes.now spans.now) entries.now lists.new) }
{
    for (i, entry) in entries.iter().enumerate() {
        give(alloc, bytes, spans, WireNo(i as u32), *entry, lists)?;
    }
    Ok(())
}

/// What each flow group is given of a wire list over a capture, group by group: its frames of at most 2,048 bytes with their wire
/// numbers, and all times, in wire order. An entry that names no record gives nothing.
pub fn entries_by_group(
    alloc: Global,
    bytes: &[u8],
    capture: &Capture,
    entries: &[Entry],
) -> Result<Vec<List<Given>>, NoMemory>
    requires spans { All (IsSpanOf bytes.now) capture.now }
    requires numbers { length entries.now < 2 ^ 32 }
    ensures groups { IfOk result (λ lists. length lists.items ≡ 512) }
    ensures given { IfOk result (λ lists. AreGiven (frames_of bytes.now capture.now) entries.now lists.items) }
{
    let mut lists = empty_lists(alloc)?;
    give_all(alloc, bytes, capture.spans(), entries, lists.as_mut_slice())?;
    Ok(lists)
}
