// The line that tells how a generated play went.
ghost use Rattle.std.specs.Prelude.{◌≡◌, ◌+◌, ◌++◌, IfOk, OnOk, count_by, string_bytes};
ghost use Rattle.ix_gen.specs.Summary.{capped, counts_text, is_accepted, is_frame, names_text, summary_line, summary_text, sums_text, taken_of, told_by, told_in, told_to, total};

use ix_base::{Bytes, NoMemory};
use ix_trace::{ConnLine, EntryLine, Fate, InputLine, OutputLine, Report};
use std::alloc::{AllocError, Global};
use std::fmt::Write;

fn is_frame(entry: &EntryLine) -> bool
    ensures { result ≡ is_frame entry.now }
{
    matches!(entry, EntryLine::Frame { .. })
}

fn is_accepted(entry: &EntryLine) -> bool
    ensures { result ≡ is_accepted entry.now }
{
    matches!(
        entry,
        EntryLine::Frame {
            fate: Fate::Buf(_),
            ..
        }
    )
}

/// How many frames there are.
fn frames_in(entries: &[EntryLine]) -> usize
    ensures { result ≡ count_by is_frame entries.now }
{
    entries.iter().filter(|entry| is_frame(entry)).count()
}

/// How many of them were accepted.
fn accepted_in(entries: &[EntryLine]) -> usize
    ensures { result ≡ count_by is_accepted entries.now }
{
    entries.iter().filter(|entry| is_accepted(entry)).count()
}

/// The sum, or the greatest number where it is more.
#[tactic(auto, unfolding(crate::specs::Summary::capped))]
fn capped_sum(a: u64, b: u64) -> u64
    ensures { result ≡ capped (a + b) }
{
    match a.checked_add(b) {
        Some(sum) => sum,
        None => u64::MAX,
    }
}

/// The bytes that the application is told by an output.
fn told_by(output: &OutputLine) -> u64
    ensures { result ≡ told_by output.now }
{
    match output {
        OutputLine::Recv { len, .. } => *len as u64,
        _ => 0,
    }
}

/// A sum with the bytes that the application is told by these outputs.
fn with_outputs(sum: u64, outputs: &[OutputLine]) -> u64
    ensures { result ≡ capped (sum + total told_by outputs.now) }
{
    let mut told = sum;
    for output in outputs {
        told = capped_sum(told, told_by(output));
    }
    told
}

/// A sum with the bytes that the application is told behind these inputs.
fn with_inputs(sum: u64, inputs: &[InputLine]) -> u64
    ensures { result ≡ capped (sum + total told_in inputs.now) }
{
    let mut told = sum;
    for input in inputs {
        told = with_outputs(told, input.outputs.as_slice());
    }
    told
}

/// The bytes that the application is told.
fn told_to(conns: &[ConnLine]) -> u64
    ensures { result ≡ capped (total told_to conns.now) }
{
    let mut told = 0;
    for conn in conns {
        told = with_inputs(told, conn.inputs.as_slice());
    }
    told
}

/// The bytes of its answers that TCP took.
fn taken_of(conns: &[ConnLine]) -> u64
    ensures { result ≡ capped (total taken_of conns.now) }
{
    let mut taken = 0;
    for conn in conns {
        taken = capped_sum(taken, conn.taken);
    }
    taken
}

/// Which play it was.
#[tactic(auto, unfolding(crate::specs::Summary::names_text))]
fn push_names(out: &mut String, number: u32, conns: u16) -> Result<(), AllocError>
    ensures { OnOk result (string_bytes out.new ≡ string_bytes out.old ++ names_text number conns) }
{
    write!(out, "gen {number} conns {conns}")
}

/// How many frames came, and how many of them were accepted.
#[tactic(auto, unfolding(crate::specs::Summary::counts_text))]
fn push_counts(out: &mut String, frames: usize, accepted: usize) -> Result<(), AllocError>
    ensures { OnOk result (string_bytes out.new ≡ string_bytes out.old ++ counts_text frames accepted) }
{
    write!(out, " frames {frames} accepted {accepted}")
}

/// How many bytes went in, and how many of the answers went out.
#[tactic(auto, unfolding(crate::specs::Summary::sums_text))]
fn push_sums(out: &mut String, delivered: u64, answered: u64) -> Result<(), AllocError>
    ensures { OnOk result (string_bytes out.new ≡ string_bytes out.old ++ sums_text delivered answered) }
{
    write!(out, " delivered {delivered} answered {answered}\n")
}

/// The line of these numbers.
#[tactic(auto, unfolding(crate::specs::Summary::summary_line))]
fn line(
    alloc: Global,
    number: u32,
    conns: u16,
    frames: usize,
    accepted: usize,
    delivered: u64,
    answered: u64,
) -> Result<Bytes, NoMemory>
    ensures { IfOk result (λ text. text ≡ summary_line number conns frames accepted delivered answered) }
{
    let mut out = String::new(alloc);
    push_names(&mut out, number, conns)?;
    push_counts(&mut out, frames, accepted)?;
    push_sums(&mut out, delivered, answered)?;
    Ok(Bytes::from_vec(out.into_bytes()))
}

/// Writes the line that tells how the play of a number went, by its report: how many frames were sent and how many of them accepted, how
/// many bytes the application was told, and how many bytes of its answers TCP took.
pub fn summary(alloc: Global, number: u32, conns: u16, report: &Report) -> Result<Bytes, NoMemory>
    ensures { IfOk result (λ text. text ≡ summary_text number conns report.now) }
{
    let entries = report.entries.as_slice();
    let connections = report.conns.as_slice();
    line(
        alloc,
        number,
        conns,
        frames_in(entries),
        accepted_in(entries),
        told_to(connections),
        taken_of(connections),
    )
}
