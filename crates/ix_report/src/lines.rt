// The lines of a report's short text.
ghost use Rattle.std.specs.Prelude.{◌≡◌, ◌≤◌, ◌<◌, ◌^◌, ◌++◌, [], ◌∷◌, All, Some, IsSome, OnOk, IfOk, length, map, option_map};
ghost use Rattle.std.specs.List.Sorted.{IsSortedByKey};
ghost use Rattle.ix_groupdef.specs.Journal.{seen_entry, seen_input};
ghost use Rattle.ix_groupdef.specs.Sent.{CanBeWritten, IsCallAnswer};
ghost use Rattle.ix_groupdef.specs.Whole.{AreWhole, HasCore, HasEnd};
ghost use Rattle.ix_groupdef.specs.declared.types.JournalEntry.{JournalEntry as Entry};
ghost use Rattle.ix_lines.specs.declared.line.Line.TheVariants as kinds;
ghost use Rattle.ix_lines.specs.declared.types.InputKind.TheVariants as input_kinds;
ghost use Rattle.ix_playdef.specs.Order.{key_cmp, key_of, number_of};
ghost use Rattle.ix_playdef.specs.Placed.{placed};
ghost use Rattle.ix_playdef.specs.Replies.{CanAllBeWritten, CanBeTold, IsWhole, by_opening, end_at};
ghost use Rattle.ix_report.specs.Lines.{call_kind, conn_lines, given_line, group_lines, input_kind, input_lines, lines_of, opening_of, output_line, present, ret_line, told_line};

use crate::report::Report;
use ix_base::{BufId, CoreId, GroupId, NoMemory, Ret, WireNo};
use ix_groupdef::{ConnEnd, EntryView, GroupRecord, InputView, Journal};
use ix_lines::{InputKind, Line, Opening, OutputLine, RetLine, StrayLine};
use ix_playdef::{Reply, ReplyKey, end_at, key_at, number_of};
use ix_tcpdef::{Ask, Input, Output, Told};
use std::alloc::Global;

fn ret_line(ret: Ret) -> RetLine
    requires { IsCallAnswer ret }
    ensures { Some result ≡ ret_line ret }
{
    match ret {
        Ret::Done(n) => RetLine::Done(n),
        Ret::BadHandle => RetLine::BadHandle,
        Ret::NotKnocked => RetLine::NotKnocked,
        Ret::NotOpen => RetLine::NotOpen,
        Ret::TooMuch => RetLine::TooMuch,
        Ret::NoNeighbour | Ret::NoPort | Ret::TableFull => unreachable!(),
    }
}

fn told_line(told: Told) -> OutputLine
    ensures { result ≡ told_line told }
{
    match told {
        Told::Knock => OutputLine::Knock,
        Told::ConnectedUp => OutputLine::ConnectedUp,
        Told::ConnectedRefused => OutputLine::ConnectedRefused,
        Told::ConnectedTimeout => OutputLine::ConnectedTimeout,
        Told::Recv { from, len, .. } => OutputLine::Recv {
            buf: BufId {
                home: CoreId(0),
                slot: 0,
            },
            from,
            len,
        },
        Told::RecvEnd => OutputLine::RecvEnd,
        Told::Sent { bytes, window } => OutputLine::Sent { bytes, window },
        Told::DeadReset => OutputLine::DeadReset,
        Told::DeadTimeout => OutputLine::DeadTimeout,
    }
}

fn output_line(replies: &[Reply], key: &ReplyKey, output: &Output) -> OutputLine
    requires order { IsSortedByKey key_of key_cmp replies.now }
    requires few { length replies.now < 2 ^ 32 }
    requires written { CanBeWritten output.now }
    ensures { Some result ≡ output_line replies.now key.now output.now }
{
    match output {
        Output::Frame(_) => OutputLine::Reply(number_of(replies, key) as u32),
        Output::Told(told) => told_line(*told),
        Output::Ret(ret) => OutputLine::Ret(ret_line(*ret)),
    }
}

fn call_kind(ask: &Ask) -> InputKind
    ensures { result ≡ call_kind ask.now }
{
    match ask {
        Ask::Connect => InputKind::Connect,
        Ask::Accept => InputKind::Accept,
        Ask::Sendv { bytes } => InputKind::Sendv {
            n: bytes.len() as u64,
        },
        Ask::RecvDone { bytes } => InputKind::RecvDone { n: *bytes },
        Ask::Close => InputKind::Close,
    }
}

fn segment_kind(w: WireNo, core: Option<CoreId>) -> InputKind
    requires { IsSome core }
    ensures { Some result ≡ option_map (input_kinds.Seg w) core }
{
    match core {
        Some(core) => InputKind::Seg { w, core },
        None => unreachable!(),
    }
}

fn flush_kind(end: Option<WireNo>) -> InputKind
    requires { IsSome end }
    ensures { Some result ≡ option_map input_kinds.Flush end }
{
    match end {
        Some(w) => InputKind::Flush { w },
        None => unreachable!(),
    }
}

#[tactic(auto, using(crate::proofs::LineLaws::for_kinds))]
fn input_kind(view: &EntryView<'_>, end: Option<WireNo>) -> InputKind
    requires core { HasCore (seen_input view.now.input) view.now.core }
    requires end { HasEnd (seen_input view.now.input) end }
    ensures { Some result ≡ input_kind (seen_input view.now.input) view.now.clock view.now.core end }
{
    match view.input {
        InputView::Sendv(bytes) => InputKind::Sendv {
            n: bytes.len() as u64,
        },
        InputView::Other(input) => match input {
            Input::Segment { w, .. } => segment_kind(*w, view.core),
            Input::Timer => InputKind::Timer { t: view.clock },
            Input::Call(ask) => call_kind(ask),
            Input::Flush => flush_kind(end),
        },
    }
}

// Adds a line.
#[tactic(auto, using(crate::proofs::LineLaws::for_push))]
fn push_line(line: Line, lines: &mut Vec<Line>) -> Result<(), NoMemory>
    ensures { OnOk result (present lines.new.items ≡ present lines.old.items ++ Some line ∷ []) }
{
    lines.push(line)?;
    Ok(())
}

// Adds that of an output.
fn push_output(
    replies: &[Reply],
    key: &ReplyKey,
    output: &Output,
    lines: &mut Vec<Line>,
) -> Result<(), NoMemory>
    requires order { IsSortedByKey key_of key_cmp replies.now }
    requires few { length replies.now < 2 ^ 32 }
    requires written { CanBeWritten output.now }
    ensures { OnOk result (present lines.new.items ≡ present lines.old.items ++ given_line replies.now key.now output.now ∷ []) }
{
    push_line(Line::Output(output_line(replies, key, output)), lines)?;
    Ok(())
}

// Adds those of an input with what it gave.
#[tactic(auto, using(ix_playdef::specs::Placed::steps))]
fn push_input(
    replies: &[Reply],
    group: GroupId,
    opening: usize,
    ends: &[Option<WireNo>],
    at: usize,
    view: &EntryView<'_>,
    lines: &mut Vec<Line>,
) -> Result<(), NoMemory>
    requires order { IsSortedByKey key_of key_cmp replies.now }
    requires few { length replies.now < 2 ^ 32 }
    requires core { HasCore (seen_input view.now.input) view.now.core }
    requires end { HasEnd (seen_input view.now.input) (end_at ends.now at) }
    requires written { All CanBeWritten view.now.outputs.now }
    ensures { OnOk result (present lines.new.items ≡ present lines.old.items ++ input_lines by_opening replies.now group.0 opening ends.now at (seen_entry view.now)) }
{
    let end = end_at(ends, at);
    push_line(Line::Input(input_kind(view, end)), lines)?;
    let outputs = view.outputs.as_slice();
    for (i, output) in outputs.iter().enumerate() {
        let key = key_at(group, opening, at, view.input, end, i);
        push_output(replies, &key, output, lines)?;
    }
    Ok(())
}

// Adds those of a journal.
#[tactic(auto, using(ix_playdef::specs::Placed::steps))]
fn push_journal(
    replies: &[Reply],
    group: GroupId,
    opening: usize,
    ends: &[Option<WireNo>],
    journal: &Journal,
    lines: &mut Vec<Line>,
) -> Result<(), NoMemory>
    requires order { IsSortedByKey key_of key_cmp replies.now }
    requires few { length replies.now < 2 ^ 32 }
    requires written { All (λ (e : Entry). All CanBeWritten e.outputs) journal.now }
    requires whole { AreWhole journal.now ends.now }
    ensures { OnOk result (present lines.new.items ≡ present lines.old.items ++ placed (input_lines by_opening replies.now group.0 opening ends.now) 0 journal.now) }
{
    for i in 0..journal.len() {
        let view = journal.entry(i);
        push_input(replies, group, opening, ends, i, &view, lines)?;
    }
    Ok(())
}

fn opening_of(group: GroupId, conn: &ConnEnd) -> Opening
    ensures { result ≡ opening_of group.0 conn.now }
{
    Opening {
        group,
        remote: conn.flow.remote,
        remote_port: conn.flow.remote_port,
        local_port: conn.flow.local_port,
        iss: conn.iss,
    }
}

// Adds those of a connection.
fn push_conn(
    replies: &[Reply],
    group: GroupId,
    order: usize,
    conn: &ConnEnd,
    lines: &mut Vec<Line>,
) -> Result<(), NoMemory>
    requires order { IsSortedByKey key_of key_cmp replies.now }
    requires few { length replies.now < 2 ^ 32 }
    requires place { order < 2 ^ 63 }
    requires written { CanAllBeWritten conn.now }
    requires whole { IsWhole conn.now }
    ensures { OnOk result (present lines.new.items ≡ present lines.old.items ++ conn_lines by_opening replies.now group.0 order conn.now) }
{
    let line = Line::Conn {
        order: order as u64,
        opening: opening_of(group, conn),
    };
    push_line(line, lines)?;
    let ends = conn.ends.as_slice();
    push_journal(replies, group, order + 1, ends, &conn.journal, lines)?;
    push_line(Line::Left(conn.left), lines)?;
    let answer = Line::Answer {
        wrote: conn.wrote,
        taken: conn.taken,
    };
    push_line(answer, lines)?;
    Ok(())
}

// Adds those of the connections of a group.
#[tactic(auto, using(ix_playdef::specs::Placed::steps))]
fn push_group(
    replies: &[Reply],
    group: GroupId,
    conns: &[ConnEnd],
    lines: &mut Vec<Line>,
) -> Result<(), NoMemory>
    requires order { IsSortedByKey key_of key_cmp replies.now }
    requires few { length replies.now < 2 ^ 32 }
    requires written { All CanAllBeWritten conns.now }
    requires whole { All IsWhole conns.now }
    ensures { OnOk result (present lines.new.items ≡ present lines.old.items ++ placed (conn_lines by_opening replies.now group.0) 0 conns.now) }
{
    for (i, conn) in conns.iter().enumerate() {
        push_conn(replies, group, i, conn, lines)?;
    }
    Ok(())
}

// Adds those of all groups.
#[tactic(auto, using(ix_playdef::specs::Placed::steps))]
fn push_groups(
    replies: &[Reply],
    groups: &[GroupRecord],
    lines: &mut Vec<Line>,
) -> Result<(), NoMemory>
    requires order { IsSortedByKey key_of key_cmp replies.now }
    requires few { length replies.now < 2 ^ 32 }
    requires groups { length groups.now ≤ 512 }
    requires told { All CanBeTold groups.now }
    ensures { OnOk result (present lines.new.items ≡ present lines.old.items ++ placed (group_lines by_opening replies.now) 0 groups.now) }
{
    for (i, left) in groups.iter().enumerate() {
        push_group(replies, GroupId(i as u16), left.conns.as_slice(), lines)?;
    }
    Ok(())
}

// Adds those of the strays.
fn push_strays(strays: &[StrayLine], lines: &mut Vec<Line>) -> Result<(), NoMemory>
    ensures { OnOk result (lines.new.items ≡ lines.old.items ++ map kinds.Stray strays.now) }
{
    for stray in strays {
        lines.push(Line::Stray(*stray))?;
    }
    Ok(())
}

/// The lines behind the head of a report's short text: none is missing.
pub fn lines_of(alloc: Global, report: &Report) -> Result<Vec<Line>, NoMemory>
    requires order { IsSortedByKey key_of key_cmp report.now.replies }
    requires few { length report.now.replies < 2 ^ 32 }
    requires groups { length report.now.groups ≤ 512 }
    requires told { All CanBeTold report.now.groups }
    ensures { IfOk result (λ lines. present lines.items ≡ lines_of by_opening report.now) }
{
    let mut lines = Vec::new(alloc);
    let replies = report.replies.as_slice();
    push_strays(report.strays.as_slice(), &mut lines)?;
    push_groups(replies, report.groups.as_slice(), &mut lines)?;
    let end = Line::End {
        replies: replies.len() as u32,
        drops: report.drops,
    };
    push_line(end, &mut lines)?;
    Ok(lines)
}
