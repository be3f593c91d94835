// The lines of what an input of a connection gave.
ghost use Rattle.std.specs.Prelude.{◌≡◌, ◌<◌, ◌^◌, All, Some, IsSome, IfOk, length};
ghost use Rattle.std.specs.List.Sorted.{IsSortedByKey};
ghost use Rattle.ix_groupdef.specs.Journal.{seen_input};
ghost use Rattle.ix_groupdef.specs.Sent.{CanBeWritten, IsCallAnswer};
ghost use Rattle.ix_playdef.specs.Order.{key_cmp, key_of};
ghost use Rattle.ix_sheet.specs.Lines.{given_lines, output_line, present, recv_line, ret_line, told_line};
ghost use Rattle.ix_sheet.specs.Outcome.{HasBuffer, NamesBuffer};

use ix_base::{BufId, GroupId, List, NoMemory, Ret, WireNo};
use ix_fits::buffer_of;
use ix_groupdef::EntryView;
use ix_lines::{EntryLine, OutputLine, RetLine};
use ix_playdef::{Reply, ReplyKey, key_at, number_of};
use ix_tcpdef::{Output, Told};
use std::alloc::Global;

/// What lines refer to: the entries of the wire list, and the replies in their order.
#[derive(Clone, Copy)]
pub struct Source<'a> {
    pub entries: &'a [EntryLine],
    pub replies: &'a [Reply],
}

/// The place of a connection: its group, and its opening order, which begins at 1.
#[derive(Clone, Copy)]
pub struct ConnPlace {
    pub group: GroupId,
    pub opening: usize,
}

fn ret_line(ret: Ret) -> RetLine
    requires { IsCallAnswer ret }
    ensures { Some result ≡ ret_line ret }
{
    match ret {
        Ret::Done(n) => RetLine::Done(n),
        Ret::BadHandle => RetLine::BadHandle,
        Ret::NotKnocked => RetLine::NotKnocked,
        Ret::NotOpen => RetLine::NotOpen,
        Ret::TooMuch => RetLine::TooMuch,
        Ret::NoNeighbour | Ret::NoPort | Ret::TableFull => unreachable!(),
    }
}

// A part in this buffer.
fn recv_line(buf: Option<BufId>, from: u16, len: u16) -> OutputLine
    requires { IsSome buf }
    ensures { Some result ≡ recv_line buf from len }
{
    match buf {
        Some(buf) => OutputLine::Recv { buf, from, len },
        None => unreachable!(),
    }
}

fn told_line(entries: &[EntryLine], told: Told) -> OutputLine
    requires { HasBuffer entries.now told }
    ensures { Some result ≡ told_line entries.now told }
{
    match told {
        Told::Knock => OutputLine::Knock,
        Told::ConnectedUp => OutputLine::ConnectedUp,
        Told::ConnectedRefused => OutputLine::ConnectedRefused,
        Told::ConnectedTimeout => OutputLine::ConnectedTimeout,
        Told::Recv { w, from, len } => recv_line(buffer_of(entries, w), from, len),
        Told::RecvEnd => OutputLine::RecvEnd,
        Told::Sent { bytes, window } => OutputLine::Sent { bytes, window },
        Told::DeadReset => OutputLine::DeadReset,
        Told::DeadTimeout => OutputLine::DeadTimeout,
    }
}

fn output_line(source: &Source<'_>, key: &ReplyKey, output: &Output) -> OutputLine
    requires order { IsSortedByKey key_of key_cmp source.now.replies.now }
    requires few { length source.now.replies.now < 2 ^ 32 }
    requires written { CanBeWritten output.now }
    requires named { NamesBuffer source.now.entries.now output.now }
    ensures { Some result ≡ output_line source.now.entries.now source.now.replies.now key.now output.now }
{
    match output {
        Output::Frame(_) => OutputLine::Reply(number_of(source.replies, key) as u32),
        Output::Told(told) => told_line(source.entries, *told),
        Output::Ret(ret) => OutputLine::Ret(ret_line(*ret)),
    }
}

/// The lines of what an input gave: the one with this place in the journal of its connection, in a cycle with this last entry.
#[tactic(auto, using(crate::proofs::LineLaws::steps))]
pub fn outputs_of(
    alloc: Global,
    source: &Source<'_>,
    place: ConnPlace,
    at: usize,
    view: &EntryView<'_>,
    end: Option<WireNo>,
) -> Result<List<OutputLine>, NoMemory>
    requires order { IsSortedByKey key_of key_cmp source.now.replies.now }
    requires few { length source.now.replies.now < 2 ^ 32 }
    requires written { All CanBeWritten view.now.outputs.now }
    requires named { All (NamesBuffer source.now.entries.now) view.now.outputs.now }
    ensures { IfOk result (λ lines. present lines ≡ given_lines source.now.entries.now source.now.replies.now place.group.0 place.opening at (seen_input view.now.input) end view.now.outputs.now) }
{
    let outputs = view.outputs.as_slice();
    let mut lines = Vec::with_capacity(alloc, outputs.len())?;
    for (i, output) in outputs.iter().enumerate() {
        let key = key_at(place.group, place.opening, at, view.input, end, i);
        let line = output_line(source, &key, output);
        lines.push(line)?;
    }
    Ok(List::from_vec(lines))
}
