// What a settle tells of the buffers that are out.
ghost use Rattle.std.specs.Prelude.{◌≡◌, ◌+◌, ◌<◌, ◌^◌, ◌&&◌, ◌==◌, IfOk, count_by, length, map, not};
ghost use Rattle.std.specs.List.{list_all, list_any};
ghost use Rattle.ix_fits.specs.Journals.{buffer_of_line};
ghost use Rattle.ix_fits.specs.Owners.{are_apart, buffers_of, home_of, is_printed, same_buffer};
ghost use Rattle.ix_out.specs.Out.{all_stay_out, are_homes_of, count_out, is_home_of, is_out_at, is_same_frame, number_out, place_number, settle_fits, stays_out};

use crate::frames_out::{OutFrame, Place};
use ix_base::{BufId, CoreId, NoMemory, WireNo};
use ix_fits::{buffer_of, is_buffer};
use ix_lines::{EntryLine, Fate, HomeLine, SettleLine};
use std::alloc::Global;

fn buffer_of_line(line: &EntryLine) -> Option<BufId>
    ensures { result ≡ buffer_of_line line.now }
{
    match line {
        EntryLine::Frame { fate, .. } => match fate {
            Fate::Buf(buf) => Some(*buf),
            _ => None,
        },
        _ => None,
    }
}

fn home_of(entries: &[EntryLine], w: WireNo) -> CoreId
    ensures { result ≡ home_of entries.now w }
{
    match buffer_of(entries, w) {
        Some(buf) => buf.home,
        None => CoreId(0),
    }
}

fn place_number(place: Place) -> u8
    ensures { result ≡ place_number place }
{
    match place {
        Place::Desk => 0,
        Place::Held => 1,
        Place::App => 2,
        Place::Queue => 3,
    }
}

fn is_out_at(entries: &[EntryLine], core: usize, place: Place, out: &OutFrame) -> bool
    ensures { result ≡ is_out_at entries.now core place out.now }
{
    place_number(out.place) == place_number(place) && home_of(entries, out.w).0 as usize == core
}

fn count_out(entries: &[EntryLine], outs: &[OutFrame], core: usize, place: Place) -> usize
    ensures { result ≡ count_out entries.now outs.now core place }
{
    outs.iter()
        .filter(|out| is_out_at(entries, core, place, out))
        .count()
}

// Whether a home tells how many of its buffers are out, place by place.
fn is_home_of(entries: &[EntryLine], outs: &[OutFrame], core: usize, home: &HomeLine) -> bool
    ensures { result ≡ is_home_of entries.now outs.now core home.now }
{
    let desk = count_out(entries, outs, core, Place::Desk);
    let held = count_out(entries, outs, core, Place::Held);
    let app = count_out(entries, outs, core, Place::App);
    let queue = count_out(entries, outs, core, Place::Queue);
    (home.desk as usize == desk && home.held as usize == held)
        && (home.app as usize == app && home.queue as usize == queue)
}

#[tactic(auto, using(crate::proofs::SettleLaws::for_homes))]
fn are_homes_of(entries: &[EntryLine], outs: &[OutFrame], homes: &[HomeLine]) -> bool
    ensures { result ≡ are_homes_of entries.now outs.now 0 homes.now }
{
    for (core, home) in homes.iter().enumerate() {
        if !is_home_of(entries, outs, core, home) {
            return false;
        }
    }
    true
}

#[tactic(auto, using(crate::proofs::SettleLaws::for_buffers))]
fn buffers_of(
    alloc: Global,
    entries: &[EntryLine],
    outs: &[OutFrame],
) -> Result<Vec<Option<BufId>>, NoMemory>
    ensures { IfOk result (λ buffers. buffers.items ≡ buffers_of entries.now (map number_out outs.now)) }
{
    let mut buffers = Vec::with_capacity(alloc, outs.len())?;
    for out in outs {
        buffers.push(buffer_of(entries, out.w))?;
    }
    Ok(buffers)
}

fn same_buffer(a: Option<BufId>, b: Option<BufId>) -> bool
    ensures { result ≡ same_buffer a b }
{
    match a {
        Some(own) => is_buffer(own, b),
        None => false,
    }
}

fn is_among(buffer: Option<BufId>, buffers: &[Option<BufId>]) -> bool
    ensures { result ≡ list_any (same_buffer buffer) buffers.now }
{
    buffers.iter().any(|other| same_buffer(buffer, *other))
}

// Whether no two of these are one buffer.
#[tactic(auto, using(crate::proofs::SettleLaws::for_apart))]
fn are_apart(buffers: &[Option<BufId>]) -> bool
    ensures { result ≡ are_apart buffers.now }
{
    for (i, buffer) in buffers.iter().enumerate() {
        if is_among(*buffer, &buffers[i + 1..]) {
            return false;
        }
    }
    true
}

/// Whether a settle tells of these frames, which are out there: their buffers are counted by home and place, and are different ones.
pub fn settle_fits(
    alloc: Global,
    entries: &[EntryLine],
    outs: &[OutFrame],
    settle: &SettleLine,
) -> Result<bool, NoMemory>
    ensures { IfOk result (λ fits. fits ≡ settle_fits entries.now outs.now settle.now) }
{
    let counted = are_homes_of(entries, outs, settle.homes.as_slice());
    let buffers = buffers_of(alloc, entries, outs)?;
    Ok(counted && are_apart(buffers.as_slice()))
}

fn is_printed(buffer: Option<BufId>, between: &[EntryLine]) -> bool
    ensures { result ≡ is_printed buffer between.now }
{
    between
        .iter()
        .any(|line| same_buffer(buffer_of_line(line), buffer))
}

fn is_out(w: WireNo, outs: &[OutFrame]) -> bool
    ensures { result ≡ list_any (is_same_frame w) outs.now }
{
    outs.iter().any(|out| out.w.0 == w.0)
}

// Whether no entry between two settles prints the buffer of a frame that is out at both.
fn stays_out(entries: &[EntryLine], now: &[OutFrame], between: &[EntryLine], out: &OutFrame) -> bool
    ensures { result ≡ stays_out entries.now now.now between.now out.now }
{
    !(is_out(out.w, now) && is_printed(buffer_of(entries, out.w), between))
}

/// Whether no entry between two settles prints the buffer of a frame that is out at both, by the frames that are out at each.
pub fn all_stay_out(
    entries: &[EntryLine],
    before: &[OutFrame],
    now: &[OutFrame],
    between: &[EntryLine],
) -> bool
    ensures { result ≡ all_stay_out entries.now before.now now.now between.now }
{
    before
        .iter()
        .all(|out| stays_out(entries, now, between, out))
}
