// Whether the lines of a report print the journals of its connections.
ghost use Rattle.std.specs.Prelude.{◌≡◌, ◌==◌, ◌&&◌, length, filter};
ghost use Rattle.std.specs.List.{list_all, zip};
ghost use Rattle.ix_groupdef.specs.Journal.{seen_entry, seen_input};
ghost use Rattle.ix_groupdef.specs.declared.types.ConnEnd.{ConnEnd as AnEnd};
ghost use Rattle.ix_lines.specs.declared.types.ConnLine.{ConnLine as ALine};
ghost use Rattle.ix_lines.specs.declared.types.OutputLine.{OutputLine as AGiven};
ghost use Rattle.ix_tcpdef.specs.declared.types.Output.{Output as AnOutput};
ghost use Rattle.ix_fits.specs.Journals.{are_input_lines, are_journals, are_output_lines, buffer_of, buffer_of_fate, buffer_of_line, is_answer_line, is_buffer, conns_of, is_call_line, is_conn_of, is_core, is_done_line, is_entry, is_flush_line, is_input_line, is_journal, is_kind, is_output_line, is_recv_line, is_reply_line, is_ret_line, is_segment_line, is_sendv_line, is_sent_line, is_timer_line, is_told_line, same_id};

use ix_base::{BufId, CoreId, GroupId, Ret, WireNo};
use ix_groupdef::{ConnEnd, EntryView, InputView, Journal};
use ix_lines::{ConnLine, EntryLine, Fate, InputKind, InputLine, OutputLine, RetLine};
use ix_playdef::end_at;
use ix_tcpdef::{Ask, Input, Output, Told};

fn buffer_of_fate(fate: Fate) -> Option<BufId>
    ensures { result ≡ buffer_of_fate fate }
{
    match fate {
        Fate::Buf(buf) => Some(buf),
        _ => None,
    }
}

/// The buffer of an entry, where it is an accepted frame.
pub fn buffer_of_line(line: &EntryLine) -> Option<BufId>
    ensures { result ≡ buffer_of_line line.now }
{
    match line {
        EntryLine::Frame { fate, .. } => buffer_of_fate(*fate),
        _ => None,
    }
}

/// The buffer of the entry with this number, where it is an accepted frame.
pub fn buffer_of(entries: &[EntryLine], w: WireNo) -> Option<BufId>
    ensures { result ≡ buffer_of entries.now w.0 }
{
    match entries.get(w.0 as usize) {
        Some(line) => buffer_of_line(line),
        None => None,
    }
}

fn same_id(a: BufId, b: BufId) -> bool
    ensures { result ≡ same_id a b }
{
    a.home.0 == b.home.0 && a.slot == b.slot
}

/// Whether a buffer is this one.
pub fn is_buffer(buf: BufId, other: Option<BufId>) -> bool
    ensures { result ≡ is_buffer buf other }
{
    match other {
        Some(own) => same_id(own, buf),
        None => false,
    }
}

fn is_ret_line(ret: Ret, line: RetLine) -> bool
    ensures { result ≡ is_ret_line ret line }
{
    match ret {
        Ret::Done(n) => match line {
            RetLine::Done(m) => m == n,
            _ => false,
        },
        Ret::BadHandle => matches!(line, RetLine::BadHandle),
        Ret::NotKnocked => matches!(line, RetLine::NotKnocked),
        Ret::NotOpen => matches!(line, RetLine::NotOpen),
        Ret::TooMuch => matches!(line, RetLine::TooMuch),
        _ => false,
    }
}

// A part is printed with the buffer of the entry that it names.
fn is_recv_line(entries: &[EntryLine], w: WireNo, from: u16, len: u16, line: OutputLine) -> bool
    ensures { result ≡ is_recv_line entries.now w from len line }
{
    match line {
        OutputLine::Recv {
            buf,
            from: place,
            len: n,
        } => is_buffer(buf, buffer_of(entries, w)) && (place == from && n == len),
        _ => false,
    }
}

fn is_sent_line(bytes: u32, window: u32, line: OutputLine) -> bool
    ensures { result ≡ is_sent_line bytes window line }
{
    match line {
        OutputLine::Sent {
            bytes: n,
            window: room,
        } => n == bytes && room == window,
        _ => false,
    }
}

fn is_told_line(entries: &[EntryLine], told: Told, line: OutputLine) -> bool
    ensures { result ≡ is_told_line entries.now told line }
{
    match told {
        Told::Knock => matches!(line, OutputLine::Knock),
        Told::ConnectedUp => matches!(line, OutputLine::ConnectedUp),
        Told::ConnectedRefused => matches!(line, OutputLine::ConnectedRefused),
        Told::ConnectedTimeout => matches!(line, OutputLine::ConnectedTimeout),
        Told::Recv { w, from, len } => is_recv_line(entries, w, from, len, line),
        Told::RecvEnd => matches!(line, OutputLine::RecvEnd),
        Told::Sent { bytes, window } => is_sent_line(bytes, window, line),
        Told::DeadReset => matches!(line, OutputLine::DeadReset),
        Told::DeadTimeout => matches!(line, OutputLine::DeadTimeout),
    }
}

fn is_answer_line(ret: Ret, line: OutputLine) -> bool
    ensures { result ≡ is_answer_line ret line }
{
    match line {
        OutputLine::Ret(shown) => is_ret_line(ret, shown),
        _ => false,
    }
}

fn is_output_line(entries: &[EntryLine], output: &Output, line: OutputLine) -> bool
    ensures { result ≡ is_output_line entries.now output.now line }
{
    match output {
        Output::Frame(_) => matches!(line, OutputLine::Reply(_)),
        Output::Told(told) => is_told_line(entries, *told, line),
        Output::Ret(ret) => is_answer_line(*ret, line),
    }
}

fn all_output_lines(entries: &[EntryLine], outputs: &[Output], lines: &[OutputLine]) -> bool
    ensures { result ≡ list_all (λ (p : AnOutput × AGiven). is_output_line entries.now p.0 p.1) (zip outputs.now lines.now) }
{
    outputs
        .iter()
        .zip(lines.iter())
        .all(|(output, line)| is_output_line(entries, output, *line))
}

fn are_output_lines(entries: &[EntryLine], outputs: &[Output], lines: &[OutputLine]) -> bool
    ensures { result ≡ are_output_lines entries.now outputs.now lines.now }
{
    outputs.len() == lines.len() && all_output_lines(entries, outputs, lines)
}

fn is_sendv_line(len: usize, kind: InputKind) -> bool
    ensures { result ≡ is_sendv_line len kind }
{
    match kind {
        InputKind::Sendv { n } => n == len as u64,
        _ => false,
    }
}

fn is_done_line(bytes: u32, kind: InputKind) -> bool
    ensures { result ≡ is_done_line bytes kind }
{
    match kind {
        InputKind::RecvDone { n } => n == bytes,
        _ => false,
    }
}

fn is_call_line(ask: &Ask, kind: InputKind) -> bool
    ensures { result ≡ is_call_line ask.now kind }
{
    match ask {
        Ask::Connect => matches!(kind, InputKind::Connect),
        Ask::Accept => matches!(kind, InputKind::Accept),
        Ask::Sendv { bytes } => is_sendv_line(bytes.len(), kind),
        Ask::RecvDone { bytes } => is_done_line(*bytes, kind),
        Ask::Close => matches!(kind, InputKind::Close),
    }
}

fn is_core(core: CoreId, other: Option<CoreId>) -> bool
    ensures { result ≡ is_core core.0 other }
{
    match other {
        Some(own) => own.0 == core.0,
        None => false,
    }
}

fn is_entry(w: WireNo, other: Option<WireNo>) -> bool
    ensures { result ≡ is_entry w.0 other }
{
    match other {
        Some(own) => own.0 == w.0,
        None => false,
    }
}

fn is_segment_line(w: WireNo, core: Option<CoreId>, kind: InputKind) -> bool
    ensures { result ≡ is_segment_line w core kind }
{
    match kind {
        InputKind::Seg { w: v, core: c } => v.0 == w.0 && is_core(c, core),
        _ => false,
    }
}

fn is_timer_line(clock: u64, kind: InputKind) -> bool
    ensures { result ≡ is_timer_line clock kind }
{
    match kind {
        InputKind::Timer { t } => t == clock,
        _ => false,
    }
}

fn is_flush_line(end: Option<WireNo>, kind: InputKind) -> bool
    ensures { result ≡ is_flush_line end kind }
{
    match kind {
        InputKind::Flush { w } => is_entry(w, end),
        _ => false,
    }
}

fn is_kind(view: &EntryView<'_>, end: Option<WireNo>, kind: InputKind) -> bool
    ensures { result ≡ is_kind (seen_input view.now.input) view.now.clock view.now.core end kind }
{
    match view.input {
        InputView::Sendv(bytes) => is_sendv_line(bytes.len(), kind),
        InputView::Other(input) => match input {
            Input::Segment { w, .. } => is_segment_line(*w, view.core, kind),
            Input::Timer => is_timer_line(view.clock, kind),
            Input::Call(ask) => is_call_line(ask, kind),
            Input::Flush => is_flush_line(end, kind),
        },
    }
}

fn is_input_line(
    entries: &[EntryLine],
    end: Option<WireNo>,
    view: &EntryView<'_>,
    line: &InputLine,
) -> bool
    ensures { result ≡ is_input_line entries.now end (seen_entry view.now) line.now }
{
    is_kind(view, end, line.kind)
        && are_output_lines(entries, view.outputs.as_slice(), line.outputs.as_slice())
}

// The journal of a connection, whose inputs have these last entries of their cycles.
#[tactic(auto, using(crate::proofs::JournalLaws::for_inputs))]
fn are_input_lines(
    entries: &[EntryLine],
    ends: &[Option<WireNo>],
    journal: &Journal,
    lines: &[InputLine],
) -> bool
    ensures { result ≡ are_input_lines entries.now ends.now 0 journal.now lines.now }
{
    if journal.len() != lines.len() {
        return false;
    }
    for i in 0..lines.len() {
        let view = journal.entry(i);
        if !is_input_line(entries, end_at(ends, i), &view, &lines[i]) {
            return false;
        }
    }
    true
}

fn is_journal(entries: &[EntryLine], conn: &ConnEnd, line: &ConnLine) -> bool
    ensures { result ≡ is_journal entries.now conn.now line.now }
{
    let ends = conn.ends.as_slice();
    are_input_lines(entries, ends, &conn.journal, line.inputs.as_slice())
}

fn is_conn_of(group: GroupId, line: &ConnLine) -> bool
    ensures { result ≡ is_conn_of group.0 line.now }
{
    line.group.0 == group.0
}

// How many connections of a group are printed.
#[tactic(auto, using(crate::proofs::JournalLaws::lengths))]
fn count_of(group: GroupId, lines: &[ConnLine]) -> usize
    ensures { result ≡ length (conns_of group.0 lines.now) }
{
    lines.iter().filter(|line| is_conn_of(group, line)).count()
}

fn all_journals(
    entries: &[EntryLine],
    group: GroupId,
    conns: &[ConnEnd],
    lines: &[ConnLine],
) -> bool
    ensures { result ≡ list_all (λ (p : AnEnd × ALine). is_journal entries.now p.0 p.1) (zip conns.now (conns_of group.0 lines.now)) }
{
    conns
        .iter()
        .zip(lines.iter().filter(|line| is_conn_of(group, line)))
        .all(|(conn, line)| is_journal(entries, conn, line))
}

/// Whether the journals of a group's connections are printed.
pub fn are_journals(
    entries: &[EntryLine],
    group: GroupId,
    conns: &[ConnEnd],
    lines: &[ConnLine],
) -> bool
    ensures { result ≡ are_journals entries.now conns.now (conns_of group.0 lines.now) }
{
    conns.len() == count_of(group, lines) && all_journals(entries, group, conns, lines)
}
