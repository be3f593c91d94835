// The lines of the inputs of a connection.
ghost use Rattle.std.specs.Prelude.{◌≡◌, ◌<◌, ◌^◌, All, Some, IsSome, IfOk, length, option_map};
ghost use Rattle.std.specs.List.Sorted.{IsSortedByKey};
ghost use Rattle.ix_groupdef.specs.Journal.{seen_entry, seen_input};
ghost use Rattle.ix_groupdef.specs.Sent.{CanBeWritten};
ghost use Rattle.ix_groupdef.specs.Whole.{AreWhole, HasCore, HasEnd};
ghost use Rattle.ix_groupdef.specs.declared.types.JournalEntry.{JournalEntry as Entry};
ghost use Rattle.ix_lines.specs.declared.types.InputKind.TheVariants as input_kinds;
ghost use Rattle.ix_playdef.specs.Order.{key_cmp, key_of};
ghost use Rattle.ix_playdef.specs.Replies.{end_at};
ghost use Rattle.ix_sheet.specs.Lines.{by_place, call_kind, input_kind, input_line, present};
ghost use Rattle.ix_sheet.specs.Outcome.{NamesBuffer};

use crate::outputs::{ConnPlace, Source, outputs_of};
use ix_base::{CoreId, List, NoMemory, WireNo};
use ix_groupdef::{EntryView, InputView, Journal};
use ix_lines::{InputKind, InputLine};
use ix_playdef::end_at;
use ix_tcpdef::{Ask, Input};
use std::alloc::Global;

fn call_kind(ask: &Ask) -> InputKind
    ensures { result ≡ call_kind ask.now }
{
    match ask {
        Ask::Connect => InputKind::Connect,
        Ask::Accept => InputKind::Accept,
        Ask::Sendv { bytes } => InputKind::Sendv {
            n: bytes.len() as u64,
        },
        Ask::RecvDone { bytes } => InputKind::RecvDone { n: *bytes },
        Ask::Close => InputKind::Close,
    }
}

fn segment_kind(w: WireNo, core: Option<CoreId>) -> InputKind
    requires { IsSome core }
    ensures { Some result ≡ option_map (input_kinds.Seg w) core }
{
    match core {
        Some(core) => InputKind::Seg { w, core },
        None => unreachable!(),
    }
}

fn flush_kind(end: Option<WireNo>) -> InputKind
    requires { IsSome end }
    ensures { Some result ≡ option_map input_kinds.Flush end }
{
    match end {
        Some(w) => InputKind::Flush { w },
        None => unreachable!(),
    }
}

#[tactic(auto, using(crate::proofs::LineLaws::for_kinds))]
fn input_kind(view: &EntryView<'_>, end: Option<WireNo>) -> InputKind
    requires core { HasCore (seen_input view.now.input) view.now.core }
    requires end { HasEnd (seen_input view.now.input) end }
    ensures { Some result ≡ input_kind (seen_input view.now.input) view.now.clock view.now.core end }
{
    match view.input {
        InputView::Sendv(bytes) => InputKind::Sendv {
            n: bytes.len() as u64,
        },
        InputView::Other(input) => match input {
            Input::Segment { w, .. } => segment_kind(*w, view.core),
            Input::Timer => InputKind::Timer { t: view.clock },
            Input::Call(ask) => call_kind(ask),
            Input::Flush => flush_kind(end),
        },
    }
}

// An input with what it gave.
#[tactic(auto, using(crate::proofs::LineLaws::for_input))]
fn input_line(
    alloc: Global,
    source: &Source<'_>,
    place: ConnPlace,
    ends: &[Option<WireNo>],
    at: usize,
    view: &EntryView<'_>,
) -> Result<InputLine, NoMemory>
    requires order { IsSortedByKey key_of key_cmp source.now.replies.now }
    requires few { length source.now.replies.now < 2 ^ 32 }
    requires core { HasCore (seen_input view.now.input) view.now.core }
    requires end { HasEnd (seen_input view.now.input) (end_at ends.now at) }
    requires written { All CanBeWritten view.now.outputs.now }
    requires named { All (NamesBuffer source.now.entries.now) view.now.outputs.now }
    ensures { IfOk result (λ line. Some line ≡ input_line source.now.entries.now source.now.replies.now place.group.0 place.opening ends.now at (seen_entry view.now)) }
{
    let end = end_at(ends, at);
    let kind = input_kind(view, end);
    let outputs = outputs_of(alloc, source, place, at, view, end)?;
    Ok(InputLine { kind, outputs })
}

/// The lines of a journal, whose inputs have these last entries of their cycles.
#[tactic(auto, using(crate::proofs::LineLaws::steps))]
pub fn inputs_of(
    alloc: Global,
    source: &Source<'_>,
    place: ConnPlace,
    ends: &[Option<WireNo>],
    journal: &Journal,
) -> Result<List<InputLine>, NoMemory>
    requires order { IsSortedByKey key_of key_cmp source.now.replies.now }
    requires few { length source.now.replies.now < 2 ^ 32 }
    requires whole { AreWhole journal.now ends.now }
    requires written { All (λ (e : Entry). All CanBeWritten e.outputs) journal.now }
    requires named { All (λ (e : Entry). All (NamesBuffer source.now.entries.now) e.outputs) journal.now }
    ensures { IfOk result (λ lines. present lines ≡ by_place (input_line source.now.entries.now source.now.replies.now place.group.0 place.opening ends.now) 0 journal.now) }
{
    let mut lines = Vec::with_capacity(alloc, journal.len())?;
    for i in 0..journal.len() {
        let view = journal.entry(i);
        let line = input_line(alloc, source, place, ends, i, &view)?;
        lines.push(line)?;
    }
    Ok(List::from_vec(lines))
}
