// The reader of a trace.
ghost use Rattle.std.specs.Prelude.{Ok, IfOk, IfErr, ◌≡◌, ◌<◌, ◌^◌};
ghost use Rattle.ix_lines.specs.Words.{text_of};
ghost use Rattle.ix_trace.specs.declared.sheet.Sheet.{Sheet};
ghost use Rattle.ix_trace.specs.Reading.{ended, line_step, texts_read, trace_read, Gives, IsNumber};
ghost use Rattle.ix_trace.specs.Rule.{IsValue, report_text};

use crate::progress::{Progress, step};
use crate::report::Report;
use crate::sheet::Sheet;
use ix_base::NoMemory;
use ix_lines::{line_read, lines_are_exact};
use ix_words::split_part;
use std::alloc::Global;

/// Why there is no report.
#[derive(Clone, Copy, Debug, PartialEq, Eq)]
pub enum TraceFault {
    /// No report has this text. Lines are counted from 1, and this is the first that can't stand where it does, or one more than there
    /// are lines where the text ends too early.
    Line { line: u64 },
    /// Memory ran out.
    NoMemory,
}

fn line_step(alloc: Global, progress: Progress, bytes: &[u8]) -> Result<Option<Progress>, NoMemory>
    ensures { IfOk result (λ o. o ≡ line_step progress bytes.now) }
{
    match line_read(bytes) {
        Some(line) => step(alloc, progress, line),
        None => Ok(None),
    }
}

fn ended(progress: Progress, number: u64) -> Result<Sheet, TraceFault>
    requires { number < 2 ^ 63 }
    ensures { Gives result (ended number progress) }
{
    match progress {
        Progress::Done { sheet } => Ok(sheet),
        _ => Err(TraceFault::Line { line: number + 1 }),
    }
}

#[tactic(auto, using(crate::proofs::LoopLaws::loop_steps))]
fn read_all(alloc: Global, bytes: &[u8]) -> Result<Sheet, TraceFault>
    ensures { Gives result (trace_read bytes.now) }
{
    let mut rest = bytes;
    let mut number: u64 = 0;
    let mut progress = Progress::AtHead;
    loop {
        let (line, after) = split_part(rest, b'\n');
        let Some(after) = after else {
            if line.is_empty() {
                return ended(progress, number);
            }
            return Err(TraceFault::Line { line: number + 1 });
        };
        match line_step(alloc, progress, line) {
            Ok(Some(next)) => progress = next,
            Ok(None) => return Err(TraceFault::Line { line: number + 1 }),
            Err(_) => return Err(TraceFault::NoMemory),
        }
        number += 1;
        rest = after;
    }
}

/// The one report with a text, or the text's first bad line: each line counts with its line feed, and a last line that lacks it is bad.
pub fn read_trace(alloc: Global, bytes: &[u8]) -> Result<Report, TraceFault>
    // What is read is written so.
    ensures found { IfOk result (λ r. bytes.now ≡ report_text r) }
    // What is written so is read, unless memory runs out.
    ensures only { (s : Sheet) → IsValue s → bytes.now ≡ report_text s → Gives result (Ok s) }
    // The number is that of the first bad line.
    ensures line { IfErr result (λ f. IsNumber bytes.now f) }
{
    lines_are_exact();
    match read_all(alloc, bytes) {
        Ok(sheet) => Ok(Report::new(sheet)),
        Err(fault) => Err(fault),
    }
}

/// Two reports never have one text. It does nothing: its contract is the law, over all reports.
pub fn one_text(one: &Report, other: &Report)
    ensures { report_text one.now ≡ report_text other.now → one.now ≡ other.now }
{
    lines_are_exact();
    // What a report keeps is known where it is looked at.
    let _one = one.head();
    let _other = other.head();
}
