// The cutting of a group that the lines of a report tell.
ghost use Rattle.std.specs.Prelude.{◌≡◌, [], false, ◌++◌, ◌+◌, ◌<◌, ◌≤◌, ◌^◌, ◌&&◌, ◌==◌, IfOk, IfSome, MatchOption, drop, length, map, slice_range};
ghost use Rattle.std.specs.Bool.{Decides};
ghost use Rattle.std.specs.List.{list_all, list_any};
ghost use Rattle.ix_fits.specs.Cutting.{IsCutting};
ghost use Rattle.ix_told.specs.Entries.{core_number};
ghost use Rattle.ix_fits.specs.Read.{core_of, cutting_read, cycles_read, has_input, is_flush_at, is_flushed, is_heard, is_segment_at};
ghost use Rattle.ix_told.specs.Reading.{IsOfFrame, are_cycle, cycle_of, ending_by, ending_of, fits_read, goes_with, is_cycle_alone, steps_on};

use crate::cycle::{ReadCycle, cycle_with, push_alone};
use crate::group_entries::GroupEntry;
use ix_base::{CoreId, NoMemory, WireNo};
use ix_lines::{ConnLine, InputKind};
use ix_playdef::Given;
use std::alloc::Global;

/// What one more entry of a group makes of the entries that wait for the end of their cycle.
#[derive(Clone, Copy, Debug, PartialEq, Eq)]
pub enum Ending {
    /// It waits with them.
    Waits,
    /// It closes their cycle.
    Closes,
    /// Each is a cycle of its own.
    Alone,
}

fn is_flush_at(w: WireNo, kind: InputKind) -> bool
    ensures { result ≡ is_flush_at w.0 kind }
{
    match kind {
        InputKind::Flush { w: at } => at.0 == w.0,
        _ => false,
    }
}

fn is_segment_at(w: WireNo, kind: InputKind) -> bool
    ensures { result ≡ is_segment_at w.0 kind }
{
    match kind {
        InputKind::Seg { w: at, .. } => at.0 == w.0,
        _ => false,
    }
}

fn has_flush(w: WireNo, conn: &ConnLine) -> bool
    ensures { result ≡ has_input (is_flush_at w.0) conn.now }
{
    let inputs = conn.inputs.as_slice();
    inputs.iter().any(|input| is_flush_at(w, input.kind))
}

fn has_segment(w: WireNo, conn: &ConnLine) -> bool
    ensures { result ≡ has_input (is_segment_at w.0) conn.now }
{
    let inputs = conn.inputs.as_slice();
    inputs.iter().any(|input| is_segment_at(w, input.kind))
}

// Whether a connection is flushed at this entry.
fn is_flushed(conns: &[ConnLine], w: WireNo) -> bool
    ensures { result ≡ is_flushed conns.now w.0 }
{
    conns.iter().any(|conn| has_flush(w, conn))
}

// Whether this entry belongs to a connection.
fn is_heard(conns: &[ConnLine], w: WireNo) -> bool
    ensures { result ≡ is_heard conns.now w.0 }
{
    conns.iter().any(|conn| has_segment(w, conn))
}

fn ending_by(flushed: bool, heard: bool, waiting: bool) -> Ending
    ensures { result ≡ ending_by flushed heard waiting }
{
    if flushed {
        Ending::Closes
    } else if heard || waiting {
        Ending::Waits
    } else {
        Ending::Alone
    }
}

#[tactic(auto, using(crate::proofs::ReadingLaws::for_endings))]
fn ending_of(conns: &[ConnLine], waiting: bool, entry: &GroupEntry) -> Ending
    ensures ending { result ≡ ending_of conns.now waiting entry.now.given }
    ensures frame { IsOfFrame result entry.now.given }
{
    match &entry.given {
        Given::Frame(taken) => {
            ending_by(
                is_flushed(conns, taken.w),
                is_heard(conns, taken.w),
                waiting,
            )
        }
        Given::Time { .. } => Ending::Alone,
    }
}

// Adds the cycles that the entry with this place closes, where those from another place on wait, and answers from where on they wait
// behind it.
#[tactic(auto, using(crate::proofs::ReadingLaws::for_steps))]
fn push_closed(
    alloc: Global,
    conns: &[ConnLine],
    entries: &[GroupEntry],
    from: usize,
    at: usize,
    cycles: &mut Vec<ReadCycle>,
) -> Result<usize, NoMemory>
    requires from { from ≤ at }
    requires at { at < length entries.now }
    ensures within { IfOk result (λ next. next ≤ at + 1) }
    ensures cycles { IfOk result (λ next. map cycle_of cycles.new.items ++ cycles_read conns.now (slice_range entries.now next (at + 1)) (drop (at + 1) entries.now)
        ≡ map cycle_of cycles.old.items ++ cycles_read conns.now (slice_range entries.now from at) (drop at entries.now)) }
{
    let entry = &entries[at];
    match ending_of(conns, from < at, entry) {
        Ending::Waits => Ok(from),
        Ending::Closes => {
            let cycle = cycle_with(alloc, &entries[from..at], entry)?;
            cycles.push(cycle)?;
            Ok(at + 1)
        }
        Ending::Alone => {
            push_alone(alloc, &entries[from..at + 1], cycles)?;
            Ok(at + 1)
        }
    }
}

/// The cutting of a group's entries that the lines of its connections tell.
#[tactic(auto, using(crate::proofs::ReadingLaws::for_ends))]
pub fn cutting_read(
    alloc: Global,
    conns: &[ConnLine],
    entries: &[GroupEntry],
) -> Result<Vec<ReadCycle>, NoMemory>
    ensures { IfOk result (λ cycles. map cycle_of cycles.items ≡ cutting_read conns.now entries.now) }
{
    let mut cycles = Vec::new(alloc);
    let mut from = 0;
    for at in 0..entries.len() {
        from = push_closed(alloc, conns, entries, from, at, &mut cycles)?;
    }
    push_alone(alloc, &entries[from..], &mut cycles)?;
    Ok(cycles)
}

fn steps_on(core: CoreId, stepping: Option<CoreId>) -> bool
    ensures { result ≡ steps_on core (core_number stepping) }
{
    match stepping {
        Some(own) => own.0 == core.0,
        None => false,
    }
}

// Whether an entry may stand in one cycle with another one, on a core.
fn goes_with(core: CoreId, first: &GroupEntry, entry: &GroupEntry) -> bool
    ensures { result ≡ goes_with core first.now entry.now }
{
    (steps_on(core, entry.core) && entry.tenure == first.tenure) && entry.settles == first.settles
}

fn all_go_with(first: &GroupEntry, entries: &[GroupEntry]) -> bool
    ensures { result ≡ list_all (goes_with (core_of first.now) first.now) entries.now }
{
    let core = first.stepping_core();
    entries.iter().all(|entry| goes_with(core, first, entry))
}

// Whether some frames are a cycle.
fn are_cycle(batch: u16, entries: &[GroupEntry]) -> bool
    ensures { result ≡ are_cycle batch entries.now }
{
    match entries {
        [first, ..] => entries.len() <= batch as usize && all_go_with(first, entries),
        [] => false,
    }
}

// Whether an entry is a cycle of its own.
#[tactic(auto, using(crate::proofs::CycleLaws::for_tests))]
fn is_cycle_alone(batch: u16, entry: &GroupEntry) -> bool
    ensures { result ≡ is_cycle_alone batch entry.now }
{
    match &entry.given {
        Given::Frame(_) => 1 <= batch && goes_with(entry.stepping_core(), entry, entry),
        Given::Time { .. } => steps_on(entry.stepping_core(), entry.core),
    }
}

fn all_alone(batch: u16, entries: &[GroupEntry]) -> bool
    ensures { result ≡ list_all (is_cycle_alone batch) entries.now }
{
    entries.iter().all(|entry| is_cycle_alone(batch, entry))
}

// From where on entries wait behind the one with this place, where those from another place on wait; none where this one closes what is
// no cycle.
#[tactic(auto, using(crate::proofs::ReadingLaws::for_fits))]
fn waiting_behind(
    batch: u16,
    conns: &[ConnLine],
    entries: &[GroupEntry],
    from: usize,
    at: usize,
) -> Option<usize>
    requires from { from ≤ at }
    requires at { at < length entries.now }
    ensures within { IfSome result (λ next. next ≤ at + 1) }
    ensures fits { MatchOption result
        (fits_read batch conns.now (slice_range entries.now from at) (drop at entries.now) ≡ false)
        (λ next. fits_read batch conns.now (slice_range entries.now next (at + 1)) (drop (at + 1) entries.now) ≡ fits_read batch conns.now (slice_range entries.now from at) (drop at entries.now)) }
{
    let closed = &entries[from..at + 1];
    match ending_of(conns, from < at, &entries[at]) {
        Ending::Waits => Some(from),
        Ending::Closes => are_cycle(batch, closed).then_some(at + 1),
        Ending::Alone => all_alone(batch, closed).then_some(at + 1),
    }
}

#[tactic(auto, using(crate::proofs::ReadingLaws::for_fits_end))]
fn fits_read(batch: u16, conns: &[ConnLine], entries: &[GroupEntry]) -> bool
    ensures { result ≡ fits_read batch conns.now [] entries.now }
{
    let mut from = 0;
    for at in 0..entries.len() {
        match waiting_behind(batch, conns, entries, from, at) {
            Some(next) => from = next,
            None => return false,
        }
    }
    all_alone(batch, &entries[from..])
}

/// Whether the cycles that the lines of a group's connections tell are a cutting of the group's entries, where a turn takes so many frames.
pub fn is_cutting_read(batch: u16, conns: &[ConnLine], entries: &[GroupEntry]) -> bool
    ensures { Decides result (IsCutting batch entries.now (cutting_read conns.now entries.now)) }
{
    fits_read(batch, conns, entries)
}
