// The short text of a report.
ghost use Rattle.std.specs.Prelude.{◌≡◌, ◌≤◌, ◌<◌, ◌^◌, ◌++◌, All, Some, IfOk, OnOk, length, string_bytes};
ghost use Rattle.std.specs.List.Sorted.{IsSortedByKey};
ghost use Rattle.ix_lines.specs.Words.{text_of};
ghost use Rattle.ix_playdef.specs.Order.{key_cmp, key_of};
ghost use Rattle.ix_playdef.specs.Replies.{CanBeTold, by_opening};
ghost use Rattle.ix_report.specs.Lines.{short_text};

use crate::lines::lines_of;
use crate::report::Report;
use ix_base::{Bytes, NoMemory};
use ix_lines::{Line, push_line};
use std::alloc::{AllocError, Global};

/// The head of a text without lines on settles, single entries and buffers.
const BEGINNING: &str = "head 0\n";

// Adds lines, each with its line feed.
fn push_lines(text: &mut String, lines: &[Line]) -> Result<(), AllocError>
    ensures { OnOk result (string_bytes text.new ≡ string_bytes text.old ++ text_of lines.now) }
{
    for line in lines {
        push_line(text, *line)?;
    }
    Ok(())
}

/// The short text of a report: the strays, the connections with their journals, and the numbers of replies and drops.
#[tactic(auto, using(crate::proofs::LineLaws::for_text), unfolding(crate::specs::Lines::short_text))]
pub fn short_text(alloc: Global, report: &Report) -> Result<Bytes, NoMemory>
    requires order { IsSortedByKey key_of key_cmp report.now.replies }
    requires few { length report.now.replies < 2 ^ 32 }
    requires groups { length report.now.groups ≤ 512 }
    requires told { All CanBeTold report.now.groups }
    ensures { IfOk result (λ text. Some text ≡ short_text by_opening report.now) }
{
    let lines = lines_of(alloc, report)?;
    let mut text = String::from_str(alloc, BEGINNING)?;
    push_lines(&mut text, lines.as_slice())?;
    Ok(Bytes::from_vec(text.into_bytes()))
}
