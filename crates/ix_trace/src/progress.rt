// What has been read, and the next line.
ghost use Rattle.std.specs.Prelude.{◌≡◌, ◌++◌, ◌∷◌, [], ◌&&◌, ◌==◌, length, Bool, IfOk, Some, None, if◌then◌else◌};
ghost use Rattle.ix_lines.specs.declared.types.EntryLine.TheVariants as entries;
ghost use Rattle.ix_trace.specs.declared.progress.Progress.TheVariants as states;
ghost use Rattle.ix_lines.specs.declared.line.Line.TheVariants as lines;
ghost use Rattle.ix_trace.specs.Machine.{GivesSettle, is_full, nothing_printed, settle_step, begun, begin_of, in_group, conn_of, with_settle, with_conn, no_closed, no_conns, no_strays, no_entries, entry_read, goes_on, between_step, input_step, output_step, answer_step, head_step, open_step, step, when, with_connect, with_stray, with_closed};

use crate::sheet::{Draft, Sheet};
use ix_base::{List, NoMemory};
use ix_lines::{
    ConnLine, ConnectLine, EntryLine, Head, InputKind, InputLine, Line, Opening, OutputLine,
    SettleLine, StrayLine,
};
use ix_tcpdef::Left;
use std::alloc::Global;

/// Where a reader of a trace stands.
#[derive(Drop)]
pub enum Progress {
    AtHead,
    AtOpen {
        head: Head,
    },
    /// In the settle before the first entry.
    InFirst {
        head: Head,
        settle: SettleLine,
    },
    /// Between whole entries, strays, connections or closed lines.
    Between {
        draft: Draft,
    },
    InSettle {
        draft: Draft,
        settle: SettleLine,
    },
    InConn {
        draft: Draft,
        opening: Opening,
        inputs: List<InputLine>,
    },
    InInput {
        draft: Draft,
        opening: Opening,
        inputs: List<InputLine>,
        kind: InputKind,
        outputs: List<OutputLine>,
    },
    /// Behind the line `left` of a connection.
    AtAnswer {
        draft: Draft,
        opening: Opening,
        inputs: List<InputLine>,
        left: Left,
    },
    Done {
        sheet: Sheet,
    },
}

fn is_full(cores: u8, settle: &SettleLine) -> bool
    ensures { result ≡ is_full cores settle.now }
{
    settle.rings.len() == cores as usize && settle.homes.len() == cores as usize
}

fn nothing_printed(alloc: Global) -> SettleLine
    ensures { result ≡ nothing_printed }
{
    SettleLine {
        rings: List::new(alloc),
        homes: List::new(alloc),
    }
}

// A settle with a ring or a home line more, where it is the next.
fn settle_step(cores: u8, settle: SettleLine, line: Line) -> Result<Option<SettleLine>, NoMemory>
    ensures { GivesSettle result cores settle line }
{
    let mut settle = settle;
    let rings = settle.rings.len();
    let homes = settle.homes.len();
    let all = cores as usize;
    match line {
        Line::Ring { core, ring } => {
            let fits = rings < all && core == rings as u64 && homes == 0;
            if !fits {
                return Ok(None);
            }
            settle.rings.push(ring)?;
            Ok(Some(settle))
        }
        Line::Home { core, home } => {
            let fits = rings == all && homes < all && core == homes as u64;
            if !fits {
                return Ok(None);
            }
            settle.homes.push(home)?;
            Ok(Some(settle))
        }
        _ => Ok(None),
    }
}

// What has been read when the settle before the first entry is full.
fn begun(alloc: Global, head: Head, settle: SettleLine) -> Result<Draft, NoMemory>
    ensures { IfOk result (λ d. d ≡ begun head settle) }
{
    let mut settles = List::new(alloc);
    settles.push(settle)?;
    Ok(Draft {
        sheet: Sheet {
            head,
            settles,
            connects: List::new(alloc),
            entries: List::new(alloc),
            strays: List::new(alloc),
            conns: List::new(alloc),
            closed: List::new(alloc),
            replies: 0,
            drops: 0,
        },
        group: 0,
        begin: 0,
        next: 0,
    })
}

// A settle that is full, behind the entries.
fn with_settle(draft: Draft, settle: SettleLine) -> Result<Draft, NoMemory>
    ensures { IfOk result (λ d. d ≡ with_settle draft settle) }
{
    let mut draft = draft;
    draft.sheet.entries.push(EntryLine::Settle)?;
    draft.sheet.settles.push(settle)?;
    Ok(draft)
}

fn no_closed(sheet: &Sheet) -> bool
    ensures { result ≡ (length sheet.now.closed == 0) }
{
    sheet.closed.len() == 0
}

fn no_conns(sheet: &Sheet) -> bool
    ensures { result ≡ (length sheet.now.conns == 0 && length sheet.now.closed == 0) }
{
    sheet.conns.len() == 0 && no_closed(sheet)
}

fn no_strays(sheet: &Sheet) -> bool
    ensures { result ≡ (length sheet.now.strays == 0 && (length sheet.now.conns == 0 && length sheet.now.closed == 0)) }
{
    sheet.strays.len() == 0 && no_conns(sheet)
}

fn no_entries(sheet: &Sheet) -> bool
    ensures { result ≡ (length sheet.now.entries == 0 && (length sheet.now.strays == 0 && (length sheet.now.conns == 0 && length sheet.now.closed == 0))) }
{
    sheet.entries.len() == 0 && no_strays(sheet)
}

fn connect_step(draft: Draft, peer: u64, answer: ConnectLine) -> Result<Option<Progress>, NoMemory>
    ensures { IfOk result (λ o. o ≡ when (no_entries draft && peer == length draft.sheet.connects) (states.Between (with_connect draft answer))) }
{
    let fits = no_entries(&draft.sheet) && peer == draft.sheet.connects.len() as u64;
    if !fits {
        return Ok(None);
    }
    let mut draft = draft;
    draft.sheet.connects.push(answer)?;
    Ok(Some(Progress::Between { draft }))
}

fn entry_step(
    alloc: Global,
    draft: Draft,
    wire: u64,
    entry: EntryLine,
) -> Result<Option<Progress>, NoMemory>
    ensures { IfOk result (λ o. o ≡ when (no_strays draft && wire == length draft.sheet.entries) (entry_read draft entry)) }
{
    let fits = no_strays(&draft.sheet) && wire == draft.sheet.entries.len() as u64;
    if !fits {
        return Ok(None);
    }
    match entry {
        EntryLine::Settle => Ok(Some(Progress::InSettle {
            draft,
            settle: nothing_printed(alloc),
        })),
        _ => {
            let mut draft = draft;
            draft.sheet.entries.push(entry)?;
            Ok(Some(Progress::Between { draft }))
        }
    }
}

fn stray_step(draft: Draft, stray: StrayLine) -> Result<Option<Progress>, NoMemory>
    ensures { IfOk result (λ o. o ≡ between_step draft (lines.Stray stray)) }
{
    let w = stray.w.0 as u64;
    let fits = no_conns(&draft.sheet) && draft.next <= w;
    if !fits {
        return Ok(None);
    }
    let mut draft = draft;
    draft.sheet.strays.push(stray)?;
    draft.next = w + 1;
    Ok(Some(Progress::Between { draft }))
}

// The place of the first connection of a group, where the next one is of it.
fn begin_of(draft: &Draft, group: u16) -> usize
    ensures { result ≡ begin_of draft.now group }
{
    if draft.group == group {
        draft.begin
    } else {
        draft.sheet.conns.len()
    }
}

fn goes_on(draft: &Draft, group: u16, order: u64) -> bool
    ensures { result ≡ goes_on draft.now group order }
{
    let begin = begin_of(draft, group);
    let place = draft.sheet.conns.len().saturating_sub(begin);
    draft.group <= group && order == place as u64
}

fn conn_step(
    alloc: Global,
    draft: Draft,
    order: u64,
    opening: Opening,
) -> Result<Option<Progress>, NoMemory>
    ensures { IfOk result (λ o. o ≡ between_step draft (lines.Conn order opening)) }
{
    let group = opening.group.0;
    let fits = no_closed(&draft.sheet) && goes_on(&draft, group, order);
    if !fits {
        return Ok(None);
    }
    let begin = begin_of(&draft, group);
    let mut draft = draft;
    draft.group = group;
    draft.begin = begin;
    Ok(Some(Progress::InConn {
        draft,
        opening,
        inputs: List::new(alloc),
    }))
}

fn closed_step(draft: Draft, core: u64, pool: u32) -> Result<Option<Progress>, NoMemory>
    ensures { IfOk result (λ o. o ≡ between_step draft (lines.Closed core pool)) }
{
    let closed = draft.sheet.closed.len();
    let fits = closed < draft.sheet.head.cores as usize && core == closed as u64;
    if !fits {
        return Ok(None);
    }
    let mut draft = draft;
    draft.sheet.closed.push(pool)?;
    Ok(Some(Progress::Between { draft }))
}

fn end_step(draft: Draft, replies: u32, drops: u32) -> Option<Progress>
    ensures { result ≡ between_step draft (lines.End replies drops) }
{
    let fits = draft.sheet.closed.len() == draft.sheet.head.cores as usize;
    if !fits {
        return None;
    }
    let mut sheet = draft.sheet;
    sheet.replies = replies;
    sheet.drops = drops;
    Some(Progress::Done { sheet })
}

// A line behind whole entries, strays, connections or closed lines.
fn between_step(alloc: Global, draft: Draft, line: Line) -> Result<Option<Progress>, NoMemory>
    ensures { IfOk result (λ o. o ≡ between_step draft line) }
{
    match line {
        Line::Connect { peer, answer } => connect_step(draft, peer, answer),
        Line::Entry { wire, entry } => entry_step(alloc, draft, wire, entry),
        Line::Stray(stray) => stray_step(draft, stray),
        Line::Conn { order, opening } => conn_step(alloc, draft, order, opening),
        Line::Closed { core, pool } => closed_step(draft, core, pool),
        Line::End { replies, drops } => Ok(end_step(draft, replies, drops)),
        _ => Ok(None),
    }
}

// A line of a connection, behind whole inputs.
fn input_step(
    alloc: Global,
    draft: Draft,
    opening: Opening,
    inputs: List<InputLine>,
    line: Line,
) -> Option<Progress>
    ensures { result ≡ input_step draft opening inputs line }
{
    match line {
        Line::Input(kind) => Some(Progress::InInput {
            draft,
            opening,
            inputs,
            kind,
            outputs: List::new(alloc),
        }),
        Line::Left(left) => Some(Progress::AtAnswer {
            draft,
            opening,
            inputs,
            left,
        }),
        _ => None,
    }
}

// A line of a connection, behind an input and some of its outputs.
fn output_step(
    alloc: Global,
    draft: Draft,
    opening: Opening,
    inputs: List<InputLine>,
    kind: InputKind,
    outputs: List<OutputLine>,
    line: Line,
) -> Result<Option<Progress>, NoMemory>
    ensures { IfOk result (λ o. o ≡ output_step draft opening inputs kind outputs line) }
{
    match line {
        Line::Output(output) => {
            let mut outputs = outputs;
            outputs.push(output)?;
            Ok(Some(Progress::InInput {
                draft,
                opening,
                inputs,
                kind,
                outputs,
            }))
        }
        _ => {
            let mut inputs = inputs;
            inputs.push(InputLine { kind, outputs })?;
            Ok(input_step(alloc, draft, opening, inputs, line))
        }
    }
}

// A line of a connection, behind how it was left.
fn answer_step(
    draft: Draft,
    opening: Opening,
    inputs: List<InputLine>,
    left: Left,
    line: Line,
) -> Result<Option<Progress>, NoMemory>
    ensures { IfOk result (λ o. o ≡ answer_step draft opening inputs left line) }
{
    match line {
        Line::Answer { wrote, taken } => {
            let mut draft = draft;
            draft.sheet.conns.push(ConnLine {
                group: opening.group,
                remote: opening.remote,
                remote_port: opening.remote_port,
                local_port: opening.local_port,
                iss: opening.iss,
                inputs,
                left,
                wrote,
                taken,
            })?;
            Ok(Some(Progress::Between { draft }))
        }
        _ => Ok(None),
    }
}

fn first_step(
    alloc: Global,
    head: Head,
    settle: SettleLine,
    line: Line,
) -> Result<Option<Progress>, NoMemory>
    ensures { IfOk result (λ o. o ≡ (if is_full head.cores settle then between_step (begun head settle) line else settle_step head.cores settle (states.InFirst head) line)) }
{
    if is_full(head.cores, &settle) {
        between_step(alloc, begun(alloc, head, settle)?, line)
    } else {
        match settle_step(head.cores, settle, line)? {
            Some(settle) => Ok(Some(Progress::InFirst { head, settle })),
            None => Ok(None),
        }
    }
}

fn late_step(
    alloc: Global,
    draft: Draft,
    settle: SettleLine,
    line: Line,
) -> Result<Option<Progress>, NoMemory>
    ensures { IfOk result (λ o. o ≡ (if is_full draft.sheet.head.cores settle then between_step (with_settle draft settle) line else settle_step draft.sheet.head.cores settle (states.InSettle draft) line)) }
{
    let cores = draft.sheet.head.cores;
    if is_full(cores, &settle) {
        between_step(alloc, with_settle(draft, settle)?, line)
    } else {
        match settle_step(cores, settle, line)? {
            Some(settle) => Ok(Some(Progress::InSettle { draft, settle })),
            None => Ok(None),
        }
    }
}

/// One line more: where the reader stands behind it, or None where no report goes on so.
#[tactic(auto, unfolding(crate::specs::Machine::step))]
pub fn step(alloc: Global, progress: Progress, line: Line) -> Result<Option<Progress>, NoMemory>
    ensures { IfOk result (λ o. o ≡ step progress line) }
{
    match progress {
        Progress::AtHead => match line {
            Line::Head(head) => Ok(Some(Progress::AtOpen { head })),
            _ => Ok(None),
        },
        Progress::AtOpen { head } => match line {
            Line::Open => Ok(Some(Progress::InFirst {
                head,
                settle: nothing_printed(alloc),
            })),
            _ => Ok(None),
        },
        Progress::InFirst { head, settle } => first_step(alloc, head, settle, line),
        Progress::Between { draft } => between_step(alloc, draft, line),
        Progress::InSettle { draft, settle } => late_step(alloc, draft, settle, line),
        Progress::InConn {
            draft,
            opening,
            inputs,
        } => Ok(input_step(alloc, draft, opening, inputs, line)),
        Progress::InInput {
            draft,
            opening,
            inputs,
            kind,
            outputs,
        } => output_step(alloc, draft, opening, inputs, kind, outputs, line),
        Progress::AtAnswer {
            draft,
            opening,
            inputs,
            left,
        } => answer_step(draft, opening, inputs, left, line),
        Progress::Done { sheet: _ } => Ok(None),
    }
}
