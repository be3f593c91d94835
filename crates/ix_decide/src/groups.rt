// The second and the third point of a report: its journals and strays, and its connections, group by group.
ghost use Rattle.std.specs.Prelude.{◌≡◌, ◌<◌, ℕ, IfOk, map};
ghost use Rattle.std.specs.Bool.{Decides};
ghost use Rattle.ix_fits.specs.Connects.{answers_of};
ghost use Rattle.ix_fits.specs.Cutting.{IsCutting};
ghost use Rattle.ix_fits.specs.Fits.{ConnectionsFit, GroupFits, GroupsFit, dues_of, left_by};
ghost use Rattle.ix_fits.specs.Journals.{AreConnLines, conns_of};
ghost use Rattle.ix_groupdef.specs.Env.{setting_of};
ghost use Rattle.ix_playdef.specs.Replies.{FitsGroup};
ghost use Rattle.ix_decide.specs.Points.{IsPlay, cycles_in, frames_in, settings_in, sheet_in};
ghost use Rattle.ix_told.specs.Reading.{cycle_of};

use crate::lines::{
    all_in_groups, all_stray_lines, are_conn_lines, are_stray_lines, conns_of, strays_of,
};
use crate::play::Play;
use ix_base::{FLOW_GROUPS, GroupId, NoMemory};
use ix_fits::are_journals;
use ix_groupdef::GroupRecord;
use ix_lines::{ConnLine, ConnectLine};
use ix_told::{GroupEntry, ReadCycle, cutting_read, entries_of, is_cutting_read, left_by};
use std::alloc::Global;

/// A group of a play, by its lines.
#[derive(Drop)]
pub struct GroupRead {
    /// Its entries.
    pub entries: Vec<GroupEntry>,
    /// The cycles that its lines tell.
    pub cycles: Vec<ReadCycle>,
    /// What it leaves of them.
    pub left: GroupRecord,
}

// The connections of a group.
fn group_conns<'a>(play: &Play<'a>, group: GroupId) -> &'a [ConnLine]
    ensures { result.now ≡ conns_of group.0 (sheet_in play.now).conns }
{
    let report = play.report;
    let _facts = report.head();
    conns_of(group, report.conns.as_slice())
}

fn group_entries(
    alloc: Global,
    play: &Play<'_>,
    group: GroupId,
) -> Result<Vec<GroupEntry>, NoMemory>
    requires { IsPlay play.now }
    ensures { IfOk result (λ entries. entries.items ≡ dues_of (settings_in play.now) (frames_in play.now) (sheet_in play.now) group.0) }
{
    let conf = play.conf;
    let report = play.report;
    let entries = report.entries.as_slice();
    entries_of(alloc, play.bytes, play.spans, conf.live, group, entries)
}

/// The cycles of a group that its lines tell.
pub fn cycles_of(alloc: Global, play: &Play<'_>, group: GroupId) -> Result<Vec<ReadCycle>, NoMemory>
    requires { IsPlay play.now }
    ensures { IfOk result (λ cycles. map cycle_of cycles.items ≡ cycles_in play.now group.0) }
{
    let entries = group_entries(alloc, play, group)?;
    cutting_read(alloc, group_conns(play, group), entries.as_slice())
}

/// A group, its cycles and what it leaves of them, which can be written and told.
#[tactic(auto, using(crate::proofs::GroupLaws::for_left))]
pub fn read_group(alloc: Global, play: &Play<'_>, group: GroupId) -> Result<GroupRead, NoMemory>
    requires { IsPlay play.now }
    ensures entries { IfOk result (λ read. read.entries.items ≡ dues_of (settings_in play.now) (frames_in play.now) (sheet_in play.now) group.0) }
    ensures cycles { IfOk result (λ read. map cycle_of read.cycles.items ≡ cycles_in play.now group.0) }
    ensures left { IfOk result (λ read. read.left ≡ left_by (settings_in play.now) (frames_in play.now) (cycles_in play.now) group.0) }
    ensures fit { IfOk result (λ read. FitsGroup read.left) }
{
    let entries = group_entries(alloc, play, group)?;
    let conns = group_conns(play, group);
    let cycles = cutting_read(alloc, conns, entries.as_slice())?;
    let left = left_by(alloc, play.env, play.asked, group, cycles.as_slice())?;
    Ok(GroupRead {
        entries,
        cycles,
        left,
    })
}

fn is_cut(alloc: Global, play: &Play<'_>, group: GroupId) -> Result<bool, NoMemory>
    requires { IsPlay play.now }
    ensures { IfOk result (λ cut. Decides cut (IsCutting (settings_in play.now).batch (dues_of (settings_in play.now) (frames_in play.now) (sheet_in play.now) group.0) (cycles_in play.now group.0))) }
{
    let entries = group_entries(alloc, play, group)?;
    let conns = group_conns(play, group);
    Ok(is_cutting_read(play.conf.batch, conns, entries.as_slice()))
}

/// Whether the cycles that the lines of a report tell are a cutting of each group's entries.
pub fn are_cut(alloc: Global, play: &Play<'_>) -> Result<bool, NoMemory>
    requires { IsPlay play.now }
    ensures { IfOk result (λ cut. Decides cut ((g : ℕ) → g < 512 → IsCutting (settings_in play.now).batch (dues_of (settings_in play.now) (frames_in play.now) (sheet_in play.now) g) (cycles_in play.now g))) }
{
    for group in 0..FLOW_GROUPS {
        if !is_cut(alloc, play, GroupId(group as u16))? {
            return Ok(false);
        }
    }
    Ok(true)
}

// Whether the journals and strays of a group are those of its run, and its cycles cut its entries.
fn group_fits(alloc: Global, play: &Play<'_>, group: GroupId) -> Result<bool, NoMemory>
    requires { IsPlay play.now }
    ensures { IfOk result (λ fits. Decides fits (GroupFits (settings_in play.now) (frames_in play.now) (sheet_in play.now) (cycles_in play.now) group.0)) }
{
    let read = read_group(alloc, play, group)?;
    let report = play.report;
    let lines = report.entries.as_slice();
    let conns = group_conns(play, group);
    let strays = strays_of(alloc, group, lines, report.strays.as_slice())?;
    let is_cut = is_cutting_read(play.conf.batch, conns, read.entries.as_slice());
    let printed = are_journals(
        lines,
        group,
        read.left.conns.as_slice(),
        report.conns.as_slice(),
    );
    let left_over = are_stray_lines(read.left.strays.as_slice(), strays.as_slice());
    Ok((is_cut && printed) && left_over)
}

fn all_groups_fit(alloc: Global, play: &Play<'_>) -> Result<bool, NoMemory>
    requires { IsPlay play.now }
    ensures { IfOk result (λ fit. Decides fit ((g : ℕ) → g < 512 → GroupFits (settings_in play.now) (frames_in play.now) (sheet_in play.now) (cycles_in play.now) g)) }
{
    for group in 0..FLOW_GROUPS {
        if !group_fits(alloc, play, GroupId(group as u16))? {
            return Ok(false);
        }
    }
    Ok(true)
}

/// Whether the groups of a report fit, in the cycles that its lines tell: docs/FITS.md, "The four points", point 2.
pub fn groups_fit(alloc: Global, play: &Play<'_>) -> Result<bool, NoMemory>
    requires { IsPlay play.now }
    ensures { IfOk result (λ fit. Decides fit (GroupsFit (settings_in play.now) (frames_in play.now) (sheet_in play.now) (cycles_in play.now))) }
{
    let report = play.report;
    let in_groups = all_in_groups(report.conns.as_slice());
    let are_accepted = all_stray_lines(report.entries.as_slice(), report.strays.as_slice());
    let fit = all_groups_fit(alloc, play)?;
    Ok((fit && in_groups) && are_accepted)
}

// Whether it is printed how the connections of a group were opened and left.
fn group_connections_fit(alloc: Global, play: &Play<'_>, group: GroupId) -> Result<bool, NoMemory>
    requires { IsPlay play.now }
    ensures { IfOk result (λ fit. Decides fit (AreConnLines (left_by (settings_in play.now) (frames_in play.now) (cycles_in play.now) group.0).conns (conns_of group.0 (sheet_in play.now).conns))) }
{
    let read = read_group(alloc, play, group)?;
    let conns = group_conns(play, group);
    Ok(are_conn_lines(read.left.conns.as_slice(), conns))
}

fn all_connections_fit(alloc: Global, play: &Play<'_>) -> Result<bool, NoMemory>
    requires { IsPlay play.now }
    ensures { IfOk result (λ fit. Decides fit ((g : ℕ) → g < 512 → AreConnLines (left_by (settings_in play.now) (frames_in play.now) (cycles_in play.now) g).conns (conns_of g (sheet_in play.now).conns))) }
{
    for group in 0..FLOW_GROUPS {
        if !group_connections_fit(alloc, play, GroupId(group as u16))? {
            return Ok(false);
        }
    }
    Ok(true)
}

fn same_answer(a: ConnectLine, b: ConnectLine) -> bool
    ensures { Decides result (a ≡ b) }
{
    a == b
}

fn same_answers(printed: &[ConnectLine], answers: &[ConnectLine]) -> bool
    ensures { Decides result (printed.now ≡ answers.now) }
{
    if printed.len() != answers.len() {
        return false;
    }
    for (i, answer) in answers.iter().enumerate() {
        if !same_answer(printed[i], *answer) {
            return false;
        }
    }
    true
}

/// Whether the connections and the connects of a report fit, in the cycles that its lines tell, where these answers are those of the
/// connects: docs/FITS.md, "The four points", point 3.
pub fn connections_fit(
    alloc: Global,
    play: &Play<'_>,
    answers: &[ConnectLine],
) -> Result<bool, NoMemory>
    requires play { IsPlay play.now }
    requires answers { answers.now ≡ answers_of (setting_of play.now.env.now) (settings_in play.now) }
    ensures { IfOk result (λ fit. Decides fit (ConnectionsFit (settings_in play.now) (frames_in play.now) (sheet_in play.now) (cycles_in play.now))) }
{
    let report = play.report;
    let answered = same_answers(report.connects.as_slice(), answers);
    let fit = all_connections_fit(alloc, play)?;
    Ok(fit && answered)
}
