// The lines of a report about one group.
ghost use Rattle.std.specs.Prelude.{◌≡◌, ◌+◌, ◌<◌, ◌≤◌, IfOk, All, count_by, filter, length, nat_lt, is_some, Some};
ghost use Rattle.std.specs.Bool.{Decides};
ghost use Rattle.std.specs.List.{AllByRecursion, list_all};
ghost use Rattle.ix_base.specs.declared.id.TheConstants.{FLOW_GROUPS};
ghost use Rattle.ix_fits.specs.Journals.{AreConnLines, AreStrayLines, IsConnLine, IsStrayLine, buffer_of_line, conns_of, is_conn_of, is_frame_of, is_stray_line, is_stray_of, strays_of};
ghost use Rattle.ix_lines.specs.declared.types.ConnLine.{ConnLine as ALine};
ghost use Rattle.ix_trace.specs.Sheet.{NeverFall};
ghost use Rattle.ix_decide.specs.Points.{is_before};

use ix_base::{Disposition, FLOW_GROUPS, GroupId, NoMemory};
use ix_groupdef::{ConnEnd, Stray};
use ix_lines::{ConnLine, EntryLine, Fate, StrayLine};
use ix_tcpdef::Left;
use std::alloc::Global;

fn count_before(group: GroupId, conns: &[ConnLine]) -> usize
    ensures { result ≡ count_by (is_before group.0) conns.now }
{
    conns.iter().filter(|conn| conn.group.0 < group.0).count()
}

fn count_of(group: GroupId, conns: &[ConnLine]) -> usize
    ensures { result ≡ count_by (is_conn_of group.0) conns.now }
{
    conns.iter().filter(|conn| conn.group.0 == group.0).count()
}

// The place of the first connection of a group, and that behind its last one, where the groups of connections never fall.
#[tactic(auto, using(crate::proofs::LineLaws::for_bounds))]
fn bounds_of(group: GroupId, conns: &[ConnLine]) -> (usize, usize)
    ensures from { result.0 ≡ count_by (is_before group.0) conns.now }
    ensures to { result.1 ≡ count_by (is_before group.0) conns.now + count_by (is_conn_of group.0) conns.now }
    ensures within { result.1 ≤ length conns.now }
{
    let from = count_before(group, conns);
    (from, from + count_of(group, conns))
}

/// The connections of a group, which stand together.
#[tactic(auto, using(crate::proofs::LineLaws::for_lines))]
pub fn conns_of(group: GroupId, conns: &[ConnLine]) -> &[ConnLine]
    requires { NeverFall 0 conns.now }
    ensures { result.now ≡ conns_of group.0 conns.now }
{
    let bounds = bounds_of(group, conns);
    let from = bounds.0;
    let to = bounds.1;
    &conns[from..to]
}

fn is_frame_of(group: GroupId, entry: &EntryLine) -> bool
    ensures { result ≡ is_frame_of group.0 (Some entry.now) }
{
    match entry {
        EntryLine::Frame { group: of, .. } => of.0 == group.0,
        _ => false,
    }
}

fn is_stray_of(group: GroupId, entries: &[EntryLine], line: &StrayLine) -> bool
    ensures { result ≡ is_stray_of group.0 entries.now line.now }
{
    match entries.get(line.w.0 as usize) {
        Some(entry) => is_frame_of(group, entry),
        None => false,
    }
}

/// The strays of a group.
pub fn strays_of(
    alloc: Global,
    group: GroupId,
    entries: &[EntryLine],
    strays: &[StrayLine],
) -> Result<Vec<StrayLine>, NoMemory>
    ensures { IfOk result (λ own. own.items ≡ strays_of group.0 entries.now strays.now) }
{
    let own = strays
        .iter()
        .filter(|line| is_stray_of(group, entries, line))
        .copied()
        .collect(alloc)?;
    Ok(own)
}

fn is_accepted(entry: &EntryLine) -> bool
    ensures { result ≡ is_some (buffer_of_line entry.now) }
{
    match entry {
        EntryLine::Frame { fate, .. } => matches!(fate, Fate::Buf(_)),
        _ => false,
    }
}

fn is_stray_line(entries: &[EntryLine], line: &StrayLine) -> bool
    ensures { result ≡ is_stray_line entries.now line.now }
{
    match entries.get(line.w.0 as usize) {
        Some(entry) => is_accepted(entry),
        None => false,
    }
}

/// Whether each stray is an accepted frame.
pub fn all_stray_lines(entries: &[EntryLine], strays: &[StrayLine]) -> bool
    ensures { result ≡ list_all (is_stray_line entries.now) strays.now }
{
    strays.iter().all(|line| is_stray_line(entries, line))
}

fn are_in_groups(conns: &[ConnLine]) -> bool
    ensures { result ≡ list_all (λ (l : ALine). nat_lt l.group.0 FLOW_GROUPS) conns.now }
{
    conns
        .iter()
        .all(|conn| (conn.group.0 as usize) < FLOW_GROUPS)
}

/// Whether each connection is of one of the 512 groups.
pub fn all_in_groups(conns: &[ConnLine]) -> bool
    ensures { Decides result (AllByRecursion (λ (l : ALine). l.group.0 < FLOW_GROUPS) conns.now) }
{
    are_in_groups(conns)
}

fn same_kind(a: Disposition, b: Disposition) -> bool
    ensures { Decides result (a ≡ b) }
{
    a == b
}

#[tactic(auto, using(crate::proofs::LineLaws::for_stray))]
fn is_stray(stray: &Stray, line: &StrayLine) -> bool
    ensures { Decides result (IsStrayLine stray.now line.now) }
{
    let same_place = line.w.0 == stray.w.0 && line.core.0 == stray.core.0;
    let answered = line.reply.is_some() == stray.reply.is_some();
    (same_place && same_kind(line.kind, stray.kind)) && answered
}

/// Whether the strays of a group are printed.
pub fn are_stray_lines(strays: &[Stray], lines: &[StrayLine]) -> bool
    ensures { Decides result (AreStrayLines strays.now lines.now) }
{
    if strays.len() != lines.len() {
        return false;
    }
    for (i, stray) in strays.iter().enumerate() {
        if !is_stray(stray, &lines[i]) {
            return false;
        }
    }
    true
}

fn same_left(a: Left, b: Left) -> bool
    ensures { Decides result (a ≡ b) }
{
    a == b
}

#[tactic(auto, using(crate::proofs::LineLaws::for_conn))]
fn is_conn(conn: &ConnEnd, line: &ConnLine) -> bool
    ensures { Decides result (IsConnLine conn.now line.now) }
{
    let flow = &conn.flow;
    let same_ends = (line.remote == flow.remote && line.remote_port == flow.remote_port)
        && line.local_port == flow.local_port;
    let same_answer = line.wrote == conn.wrote && line.taken == conn.taken;
    ((same_ends && line.iss == conn.iss) && same_left(line.left, conn.left)) && same_answer
}

/// Whether it is printed how each connection of a group was opened and left, and how long its answer was.
pub fn are_conn_lines(conns: &[ConnEnd], lines: &[ConnLine]) -> bool
    ensures { Decides result (AreConnLines conns.now lines.now) }
{
    if conns.len() != lines.len() {
        return false;
    }
    for (i, conn) in conns.iter().enumerate() {
        if !is_conn(conn, &lines[i]) {
            return false;
        }
    }
    true
}
