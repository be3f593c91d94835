// The text of a report.
ghost use Rattle.std.specs.Prelude.{◌≡◌, ◌≤◌, ◌++◌, [], ◌∷◌, OnOk, IfOk, string_bytes};
ghost use Rattle.ix_lines.specs.declared.line.Line.TheVariants as lines;
ghost use Rattle.ix_lines.specs.Words.{text_of};
ghost use Rattle.ix_trace.specs.Sheet.{ring_lines, home_lines, settle_lines, open_lines, later, connect_lines, entry_lines, stray_lines, output_lines, input_lines, no_conn, order_of, opening_of, conn_lines, closed_lines, sheet_lines};
ghost use Rattle.ix_trace.specs.Rule.{report_text};

use crate::report::Report;
use ix_base::{Bytes, NoMemory};
use ix_lines::{
    ConnLine, ConnectLine, EntryLine, HomeLine, InputLine, Line, Opening, OutputLine, RingLine,
    SettleLine, StrayLine, push_line,
};
use std::alloc::{AllocError, Global};

fn push_rings(out: &mut String, rings: &[RingLine]) -> Result<(), AllocError>
    ensures { OnOk result (string_bytes out.new ≡ string_bytes out.old ++ text_of (ring_lines 0 rings.now)) }
{
    for (core, ring) in rings.iter().enumerate() {
        let core = core as u64;
        push_line(out, Line::Ring { core, ring: *ring })?;
    }
    Ok(())
}

fn push_homes(out: &mut String, homes: &[HomeLine]) -> Result<(), AllocError>
    ensures { OnOk result (string_bytes out.new ≡ string_bytes out.old ++ text_of (home_lines 0 homes.now)) }
{
    for (core, home) in homes.iter().enumerate() {
        let core = core as u64;
        push_line(out, Line::Home { core, home: *home })?;
    }
    Ok(())
}

#[tactic(auto, using(crate::proofs::WriteLaws::text_steps))]
fn push_settle(out: &mut String, settle: &SettleLine) -> Result<(), AllocError>
    ensures { OnOk result (string_bytes out.new ≡ string_bytes out.old ++ text_of (settle_lines settle.now)) }
{
    push_rings(out, settle.rings.as_slice())?;
    push_homes(out, settle.homes.as_slice())
}

fn push_connects(out: &mut String, connects: &[ConnectLine]) -> Result<(), AllocError>
    ensures { OnOk result (string_bytes out.new ≡ string_bytes out.old ++ text_of (connect_lines 0 connects.now)) }
{
    for (peer, answer) in connects.iter().enumerate() {
        let peer = peer as u64;
        push_line(
            out,
            Line::Connect {
                peer,
                answer: *answer,
            },
        )?;
    }
    Ok(())
}

// The entries, each settle with what it printed.
#[tactic(auto, using(crate::proofs::WriteLaws::entry_steps))]
fn push_entries(
    out: &mut String,
    entries: &[EntryLine],
    settles: &[SettleLine],
) -> Result<(), AllocError>
    ensures { OnOk result (string_bytes out.new ≡ string_bytes out.old ++ text_of (entry_lines 0 entries.now settles.now)) }
{
    let mut rest = settles;
    for (wire, entry) in entries.iter().enumerate() {
        let wire = wire as u64;
        match *entry {
            EntryLine::Settle => match rest {
                [settle, more @ ..] => {
                    push_line(
                        out,
                        Line::Entry {
                            wire,
                            entry: EntryLine::Settle,
                        },
                    )?;
                    push_settle(out, settle)?;
                    rest = more;
                }
                [] => return Ok(()),
            },
            entry => push_line(out, Line::Entry { wire, entry })?,
        }
    }
    Ok(())
}

fn push_strays(out: &mut String, strays: &[StrayLine]) -> Result<(), AllocError>
    ensures { OnOk result (string_bytes out.new ≡ string_bytes out.old ++ text_of (stray_lines strays.now)) }
{
    for stray in strays {
        push_line(out, Line::Stray(*stray))?;
    }
    Ok(())
}

fn push_outputs(out: &mut String, outputs: &[OutputLine]) -> Result<(), AllocError>
    ensures { OnOk result (string_bytes out.new ≡ string_bytes out.old ++ text_of (output_lines outputs.now)) }
{
    for output in outputs {
        push_line(out, Line::Output(*output))?;
    }
    Ok(())
}

#[tactic(auto, using(crate::proofs::WriteLaws::text_steps))]
fn push_inputs(out: &mut String, inputs: &[InputLine]) -> Result<(), AllocError>
    ensures { OnOk result (string_bytes out.new ≡ string_bytes out.old ++ text_of (input_lines inputs.now)) }
{
    for input in inputs {
        push_line(out, Line::Input(input.kind))?;
        push_outputs(out, input.outputs.as_slice())?;
    }
    Ok(())
}

#[tactic(auto, using(crate::proofs::WriteLaws::conn_pieces))]
fn push_conn(out: &mut String, order: u64, conn: &ConnLine) -> Result<(), AllocError>
    ensures { OnOk result (string_bytes out.new ≡ string_bytes out.old ++ text_of (lines.Conn order (opening_of conn.now) ∷ input_lines conn.now.inputs ++ lines.Left conn.now.left ∷ lines.Answer conn.now.wrote conn.now.taken ∷ [])) }
{
    let opening = Opening {
        group: conn.group,
        remote: conn.remote,
        remote_port: conn.remote_port,
        local_port: conn.local_port,
        iss: conn.iss,
    };
    push_line(out, Line::Conn { order, opening })?;
    push_inputs(out, conn.inputs.as_slice())?;
    push_line(out, Line::Left(conn.left))?;
    push_line(
        out,
        Line::Answer {
            wrote: conn.wrote,
            taken: conn.taken,
        },
    )
}

// The place of the next connection of a group, where the last one was of a group and the next of that has a place.
fn order_of(last: u16, next: u64, group: u16) -> u64
    ensures is { result ≡ order_of (record { group = last; next = next }) group }
    ensures bound { result ≤ next }
{
    if last == group { next } else { 0 }
}

#[tactic(auto, using(crate::proofs::WriteLaws::conn_steps))]
fn push_conns(out: &mut String, conns: &[ConnLine]) -> Result<(), AllocError>
    ensures { OnOk result (string_bytes out.new ≡ string_bytes out.old ++ text_of (conn_lines no_conn conns.now)) }
{
    let mut group: u16 = 0;
    let mut next: u64 = 0;
    for conn in conns {
        let order = order_of(group, next, conn.group.0);
        push_conn(out, order, conn)?;
        group = conn.group.0;
        next = order + 1;
    }
    Ok(())
}

fn push_closed(out: &mut String, closed: &[u32]) -> Result<(), AllocError>
    ensures { OnOk result (string_bytes out.new ≡ string_bytes out.old ++ text_of (closed_lines 0 closed.now)) }
{
    for (core, pool) in closed.iter().enumerate() {
        let core = core as u64;
        push_line(out, Line::Closed { core, pool: *pool })?;
    }
    Ok(())
}

// The settle before the first entry, the connects and the entries.
#[tactic(auto, using(crate::proofs::WriteLaws::front_steps))]
fn push_front(
    out: &mut String,
    settles: &[SettleLine],
    connects: &[ConnectLine],
    entries: &[EntryLine],
) -> Result<(), AllocError>
    ensures { OnOk result (string_bytes out.new ≡ string_bytes out.old ++ text_of (open_lines settles.now ++ connect_lines 0 connects.now ++ entry_lines 0 entries.now (later settles.now))) }
{
    match settles {
        [settle, more @ ..] => {
            push_line(out, Line::Open)?;
            push_settle(out, settle)?;
            push_connects(out, connects)?;
            push_entries(out, entries, more)
        }
        [] => {
            push_connects(out, connects)?;
            push_entries(out, entries, settles)
        }
    }
}

#[tactic(auto, using(crate::proofs::WriteLaws::whole))]
fn text_of_report(alloc: Global, report: &Report) -> Result<String, AllocError>
    ensures { IfOk result (λ text. string_bytes text ≡ report_text report.now) }
{
    let mut out = String::new(alloc);
    push_line(&mut out, Line::Head(report.head))?;
    push_front(
        &mut out,
        report.settles.as_slice(),
        report.connects.as_slice(),
        report.entries.as_slice(),
    )?;
    push_strays(&mut out, report.strays.as_slice())?;
    push_conns(&mut out, report.conns.as_slice())?;
    push_closed(&mut out, report.closed.as_slice())?;
    push_line(
        &mut out,
        Line::End {
            replies: report.replies,
            drops: report.drops,
        },
    )?;
    Ok(out)
}

/// The text of a report. It takes a number of steps that grows as the text does.
pub fn trace_text(alloc: Global, report: &Report) -> Result<Bytes, NoMemory>
    ensures written { IfOk result (λ text. text ≡ report_text report.now) }
{
    let text = text_of_report(alloc, report)?;
    Ok(Bytes::from_vec(text.into_bytes()))
}
