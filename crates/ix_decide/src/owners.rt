// Where the buffers of a play are, settle by settle.
ghost use Rattle.std.specs.Prelude.{◌≡◌, ◌++◌, ◌<◌, ◌≤◌, ◌^◌, ◌&&◌, [], ℕ, List as Sequence, false, ◌+◌, IfOk, IfSome, MatchOption, OnOk, is_some, length, map, take};
ghost use Rattle.std.specs.Bool.{Decides};
ghost use Rattle.ix_fits.specs.Fits.{OwnersFit};
ghost use Rattle.ix_fits.specs.Owners.{all_settles, below, ends_below, group_after, is_below};
ghost use Rattle.ix_groupdef.specs.Group.{last_number};
ghost use Rattle.ix_groupdef.specs.Owners.{sends_parts};
ghost use Rattle.ix_playdef.specs.Setting.{application_of};
ghost use Rattle.ix_out.specs.Out.{all_out, all_stay_out, group_out, settle_fits};
ghost use Rattle.ix_out.specs.declared.frames_out.OutFrame.{OutFrame as AnOut};
ghost use Rattle.ix_decide.specs.Points.{IsPlay, cycles_in, frames_in, played, settings_in, sheet_in};
ghost use Rattle.ix_told.specs.Reading.{cycle_of};
ghost use Rattle.ix_decide.specs.Settles.{settle_at, settles_from};

use crate::groups::cycles_of;
use crate::play::Play;
use ix_base::{FLOW_GROUPS, GroupId, NoMemory};
use ix_conf::AppKind;
use ix_groupdef::{PlainGroup, Taken};
use ix_lines::{EntryLine, SettleLine};
use ix_out::{OutFrame, all_stay_out, push_out, reach, settle_fits};
use ix_told::{ReadCycle, group_behind, is_settle};
use std::alloc::Global;

// Whether an application sends the parts that it was told whole.
fn sends_parts(kind: AppKind, text: &[u8]) -> bool
    ensures { result ≡ sends_parts (application_of kind text.now) }
{
    matches!(kind, AppKind::Echo)
}

fn ends_below(reached: usize, frames: &[Taken]) -> bool
    ensures { result ≡ ends_below reached (last_number frames.now) }
{
    match frames.last() {
        Some(taken) => (taken.w.0 as usize) < reached,
        None => true,
    }
}

fn is_below(reached: usize, cycle: &ReadCycle) -> bool
    ensures { result ≡ is_below reached (cycle_of cycle.now) }
{
    match cycle {
        ReadCycle::Frames(batch) => ends_below(reached, batch.frames.as_slice()),
        ReadCycle::Time { w, .. } => (w.0 as usize) < reached,
    }
}

// The first cycles, whose entries have numbers below this.
#[tactic(auto, using(crate::proofs::OwnerLaws::for_below))]
fn below(reached: usize, cycles: &[ReadCycle]) -> &[ReadCycle]
    ensures { map cycle_of result.now ≡ below reached (map cycle_of cycles.now) }
{
    for (i, cycle) in cycles.iter().enumerate() {
        if !is_below(reached, cycle) {
            return &cycles[..i];
        }
    }
    cycles
}

// A group once the first entries of a play are carried out.
#[tactic(auto, using(crate::proofs::GroupLaws::for_after))]
fn group_after(
    alloc: Global,
    play: &Play<'_>,
    done: &[EntryLine],
    group: GroupId,
) -> Result<PlainGroup, NoMemory>
    requires { IsPlay play.now }
    ensures { IfOk result (λ plain. plain ≡ group_after (played play.now) done.now group.0) }
{
    let cycles = cycles_of(alloc, play, group)?;
    let stepped = below(reach(group, done), cycles.as_slice());
    group_behind(alloc, play.env, play.asked, group, stepped)
}

// Adds the frames of a group that are out then.
fn push_group(
    alloc: Global,
    play: &Play<'_>,
    done: &[EntryLine],
    group: GroupId,
    outs: &mut Vec<OutFrame>,
) -> Result<(), NoMemory>
    requires play { IsPlay play.now }
    requires numbers { length done.now < 2 ^ 32 }
    ensures { OnOk result (outs.new.items ≡ outs.old.items ++ group_out (played play.now) done.now group.0) }
{
    let conf = play.conf;
    let whole = sends_parts(conf.app, conf.text.as_slice());
    let plain = group_after(alloc, play, done, group)?;
    push_out(group, whole, done, plain.lives(), outs)
}

// The frames that are out once the first entries of a play are carried out.
#[tactic(auto, using(crate::proofs::OwnerLaws::for_groups))]
fn all_out(alloc: Global, play: &Play<'_>, done: &[EntryLine]) -> Result<Vec<OutFrame>, NoMemory>
    requires play { IsPlay play.now }
    requires numbers { length done.now < 2 ^ 32 }
    ensures { IfOk result (λ outs. outs.items ≡ all_out (played play.now) done.now) }
{
    let mut outs = Vec::new(alloc);
    for group in 0..FLOW_GROUPS {
        push_group(alloc, play, done, GroupId(group as u16), &mut outs)?;
    }
    Ok(outs)
}

// What was out at the last settle, how many entries stand before it and that settle itself, and how many settles are printed up to it.
#[derive(Drop)]
struct LastSettle {
    outs: Vec<OutFrame>,
    from: usize,
    next: usize,
}

// Whether a settle tells of these frames, which are out there, and none of those that were out at the last one was printed between.
fn settle_tells(
    alloc: Global,
    entries: &[EntryLine],
    before: &[OutFrame],
    outs: &[OutFrame],
    between: &[EntryLine],
    settle: &SettleLine,
) -> Result<bool, NoMemory>
    ensures { IfOk result (λ tells. tells ≡ (settle_fits entries.now outs.now settle.now && all_stay_out entries.now before.now outs.now between.now)) }
{
    let fits = settle_fits(alloc, entries, outs, settle)?;
    Ok(fits && all_stay_out(entries, before, outs, between))
}

// What is out at the next settle, where it is the entry with this number, if it fits.
#[tactic(auto, using(crate::proofs::OwnerLaws::for_settle))]
fn settle_at(
    alloc: Global,
    play: &Play<'_>,
    last: &LastSettle,
    w: usize,
) -> Result<Option<Vec<OutFrame>>, NoMemory>
    requires play { IsPlay play.now }
    requires from { last.now.from ≤ w }
    requires within { w ≤ length (sheet_in play.now).entries }
    ensures outs { IfOk result (λ o. IfSome o (λ outs. outs.items ≡ all_out (played play.now) (take w (sheet_in play.now).entries))) }
    ensures fits { IfOk result (λ outs. is_some outs ≡ settle_at (played play.now) (sheet_in play.now).settles last.now.outs.items last.now.from last.now.next w) }
{
    let report = play.report;
    let entries = report.entries.as_slice();
    match report.settles.get(last.next) {
        Some(settle) => {
            let outs = all_out(alloc, play, &entries[..w])?;
            let between = &entries[last.from..w];
            let before = last.outs.as_slice();
            if !settle_tells(alloc, entries, before, outs.as_slice(), between, settle)? {
                return Ok(None);
            }
            Ok(Some(outs))
        }
        None => Ok(None),
    }
}

// One entry on: none where it is a settle that doesn't fit.
#[tactic(auto, using(crate::proofs::OwnerLaws::for_entry))]
fn behind(
    alloc: Global,
    play: &Play<'_>,
    last: LastSettle,
    w: usize,
) -> Result<Option<LastSettle>, NoMemory>
    requires play { IsPlay play.now }
    requires from { last.from ≤ w }
    requires next { last.next ≤ w + 1 }
    requires within { w < length (sheet_in play.now).entries }
    ensures places { IfOk result (λ o. IfSome o (λ later. (later.from ≤ w + 1) × (later.next ≤ w + 2))) }
    ensures fits { IfOk result (λ o. MatchOption o
        (settles_from (played play.now) (sheet_in play.now).settles last.outs.items last.from last.next w ≡ false)
        (λ later. settles_from (played play.now) (sheet_in play.now).settles later.outs.items later.from later.next (w + 1) ≡ settles_from (played play.now) (sheet_in play.now).settles last.outs.items last.from last.next w)) }
{
    let report = play.report;
    if !is_settle(&report.entries.as_slice()[w]) {
        return Ok(Some(last));
    }
    match settle_at(alloc, play, &last, w)? {
        Some(outs) => Ok(Some(LastSettle {
            outs,
            from: w + 1,
            next: last.next + 1,
        })),
        None => Ok(None),
    }
}

// Whether the settles behind the first fit, where the first one told of these frames.
#[tactic(auto, using(crate::proofs::OwnerLaws::for_entries))]
fn later_settles_fit(alloc: Global, play: &Play<'_>, outs: Vec<OutFrame>) -> Result<bool, NoMemory>
    requires { IsPlay play.now }
    ensures { IfOk result (λ fit. fit ≡ settles_from (played play.now) (sheet_in play.now).settles outs.items 0 1 0) }
{
    let report = play.report;
    let mut last = LastSettle {
        outs,
        from: 0,
        next: 1,
    };
    for w in 0..report.entries.len() {
        match behind(alloc, play, last, w)? {
            Some(later) => last = later,
            None => return Ok(false),
        }
    }
    Ok(report.settles.len() <= last.next)
}

// Whether all settles fit, where this is the first.
fn all_fit(alloc: Global, play: &Play<'_>, opening: &SettleLine) -> Result<bool, NoMemory>
    requires { IsPlay play.now }
    ensures { IfOk result (λ fit. (outs : Sequence AnOut) → outs ≡ all_out (played play.now) []
        → fit ≡ (settle_fits (sheet_in play.now).entries outs opening.now && settles_from (played play.now) (sheet_in play.now).settles outs 0 1 0)) }
{
    let report = play.report;
    let entries = report.entries.as_slice();
    let outs = all_out(alloc, play, &entries[..0])?;
    if !settle_fits(alloc, entries, outs.as_slice(), opening)? {
        return Ok(false);
    }
    later_settles_fit(alloc, play, outs)
}

#[tactic(auto, using(crate::proofs::OwnerLaws::for_opening))]
fn settles_fit(alloc: Global, play: &Play<'_>) -> Result<bool, NoMemory>
    requires { IsPlay play.now }
    ensures { IfOk result (λ fit. fit ≡ all_settles (played play.now) (sheet_in play.now).settles) }
{
    let report = play.report;
    match report.settles.get(0) {
        Some(opening) => all_fit(alloc, play, opening),
        None => Ok(false),
    }
}

/// Whether the settles of a report tell where the buffers are, in the cycles that its lines tell: docs/FITS.md, "The four points",
/// the end of point 1. It runs each group anew at each settle.
pub fn owners_fit(alloc: Global, play: &Play<'_>) -> Result<bool, NoMemory>
    requires { IsPlay play.now }
    ensures { IfOk result (λ fit. Decides fit (OwnersFit (settings_in play.now) (frames_in play.now) (sheet_in play.now) (cycles_in play.now))) }
{
    settles_fit(alloc, play)
}
