// The replies of a play.
ghost use Rattle.std.specs.Prelude.{◌≡◌, ◌≤◌, ◌<◌, ◌^◌, ◌++◌, All, IfOk, OnOk, length};
ghost use Rattle.std.specs.List.{IsDistinct, range_with_len};
ghost use Rattle.std.specs.List.Sorted.{IsPermutation, IsSortedByKey};
ghost use Rattle.ix_groupdef.specs.Journal.{seen_entry, seen_input};
ghost use Rattle.ix_groupdef.specs.Sent.{CanBeWritten};
ghost use Rattle.ix_playdef.specs.Order.{is_before, key_cmp, key_of, number_of, numbers_among, same_key};
ghost use Rattle.ix_playdef.specs.Placed.{placed};
ghost use Rattle.ix_playdef.specs.Replies.{CanAllBeWritten, FitsGroup, IsShort, IsShortlyAnswered, all_replies, by_opening, conn_replies, end_at, entry_of, group_replies, input_replies, key_at, opened_replies, phase_of, reply_of, stray_key, stray_reply};
ghost use Rattle.ix_seg.specs.Written.{frame_bytes};

use crate::order::{Phase, Reply, ReplyKey, in_order};
use ix_base::{Bytes, GroupId, Local, NoMemory, Seg, WireNo};
use ix_groupdef::{ConnEnd, EntryView, GroupRecord, InputView, Stray};
use ix_seg::write_frame;
use ix_tcpdef::{Input, Output};
use std::alloc::Global;

/// The longest frame that is sent, in bytes: its headers, the option of a SYN, and a body of 1,460 bytes.
const LONGEST: usize = 1518;

fn phase_of(input: InputView<'_>) -> Phase
    ensures { result ≡ phase_of (seen_input input.entry) }
{
    match input {
        InputView::Sendv(_) => Phase::Connect,
        InputView::Other(other) => match other {
            Input::Segment { .. } => Phase::Taken,
            Input::Timer => Phase::Timer,
            Input::Call(_) => Phase::Connect,
            Input::Flush => Phase::Flush,
        },
    }
}

fn entry_of(input: InputView<'_>, end: Option<WireNo>) -> Option<WireNo>
    ensures { result ≡ entry_of (seen_input input.entry) end }
{
    match input {
        InputView::Sendv(_) => end,
        InputView::Other(other) => match other {
            Input::Segment { w, .. } => Some(*w),
            _ => end,
        },
    }
}

/// The last entry of the cycle of the input that has this place in a journal.
pub fn end_at(ends: &[Option<WireNo>], at: usize) -> Option<WireNo>
    ensures { result ≡ end_at ends.now at }
{
    match ends.get(at) {
        Some(end) => *end,
        None => None,
    }
}

/// The key of what an input of a connection gives at a place: of the connection's group, its opening order, which begins at 1, the place
/// of the input in its journal, and the last entry of the cycle of the input. Timers and flushes of a cycle go by the opening order.
pub fn key_at(
    group: GroupId,
    opening: usize,
    at: usize,
    input: InputView<'_>,
    end: Option<WireNo>,
    output: usize,
) -> ReplyKey
    ensures { result ≡ key_at by_opening group.0 opening at (seen_input input.entry) end output }
{
    ReplyKey {
        entry: entry_of(input, end),
        group,
        phase: phase_of(input),
        place: opening,
        opening,
        input: at,
        output,
    }
}

/// The key of the answer to the stray that has this place among those of its group.
pub fn stray_key(group: GroupId, at: usize, w: WireNo) -> ReplyKey
    ensures { result ≡ stray_key group.0 at w }
{
    ReplyKey {
        entry: Some(w),
        group,
        phase: Phase::Taken,
        place: 0,
        opening: 0,
        input: at,
        output: 0,
    }
}

// The frame of a segment.
fn frame_of(alloc: Global, local: &Local, seg: &Seg) -> Result<Bytes, NoMemory>
    requires len { seg.now.head.len ≡ length seg.now.body }
    requires fits { length seg.now.body ≤ 1460 }
    ensures written { IfOk result (λ frame. frame ≡ frame_bytes seg.now.head local.now seg.now.body) }
    ensures short { IfOk result (λ frame. length frame < 2 ^ 32) }
{
    let mut frame = [0; LONGEST];
    let len = write_frame(&seg.head, seg.body.as_slice(), local, &mut frame);
    Bytes::from_slice(alloc, &frame[..len])
}

// Adds the reply that an output is.
fn push_output(
    alloc: Global,
    local: &Local,
    key: ReplyKey,
    output: &Output,
    replies: &mut Vec<Reply>,
) -> Result<(), NoMemory>
    requires { CanBeWritten output.now }
    ensures replies { OnOk result (replies.new.items ≡ replies.old.items ++ reply_of local.now key output.now) }
    ensures short { All IsShort replies.old.items → OnOk result (All IsShort replies.new.items) }
{
    if let Output::Frame(seg) = output {
        let frame = frame_of(alloc, local, seg)?;
        replies.push(Reply { key, frame })?;
    }
    Ok(())
}

// The place of a connection: its group, and its opening order, which begins at 1.
#[derive(Clone, Copy)]
struct ConnPlace {
    group: GroupId,
    opening: usize,
}

// Adds those of an input.
#[tactic(auto, using(crate::specs::Placed::steps))]
fn push_input(
    alloc: Global,
    local: &Local,
    place: ConnPlace,
    ends: &[Option<WireNo>],
    at: usize,
    view: &EntryView<'_>,
    replies: &mut Vec<Reply>,
) -> Result<(), NoMemory>
    requires { All CanBeWritten view.now.outputs.now }
    ensures replies { OnOk result (replies.new.items ≡ replies.old.items ++ input_replies by_opening local.now place.group.0 place.opening ends.now at (seen_entry view.now)) }
    ensures short { All IsShort replies.old.items → OnOk result (All IsShort replies.new.items) }
{
    let end = end_at(ends, at);
    let outputs = view.outputs.as_slice();
    for (i, output) in outputs.iter().enumerate() {
        let key = key_at(place.group, place.opening, at, view.input, end, i);
        push_output(alloc, local, key, output, replies)?;
    }
    Ok(())
}

// Adds those of a connection.
#[tactic(auto, using(crate::specs::Placed::steps))]
fn push_conn(
    alloc: Global,
    local: &Local,
    place: ConnPlace,
    conn: &ConnEnd,
    replies: &mut Vec<Reply>,
) -> Result<(), NoMemory>
    requires { CanAllBeWritten conn.now }
    ensures replies { OnOk result (replies.new.items ≡ replies.old.items ++ conn_replies by_opening local.now place.group.0 place.opening conn.now) }
    ensures short { All IsShort replies.old.items → OnOk result (All IsShort replies.new.items) }
{
    let journal = &conn.journal;
    let ends = conn.ends.as_slice();
    for i in 0..journal.len() {
        let view = journal.entry(i);
        push_input(alloc, local, place, ends, i, &view, replies)?;
    }
    Ok(())
}

// Adds the answer to a stray.
fn push_stray(
    alloc: Global,
    group: GroupId,
    at: usize,
    stray: &Stray,
    replies: &mut Vec<Reply>,
) -> Result<(), NoMemory>
    requires { IsShortlyAnswered stray.now }
    ensures replies { OnOk result (replies.new.items ≡ replies.old.items ++ stray_reply group.0 at stray.now) }
    ensures short { All IsShort replies.old.items → OnOk result (All IsShort replies.new.items) }
{
    if let Some(frame) = &stray.reply {
        let key = stray_key(group, at, stray.w);
        let frame = Bytes::from_slice(alloc, frame.as_slice())?;
        replies.push(Reply { key, frame })?;
    }
    Ok(())
}

// Adds the answers to the strays of a group.
#[tactic(auto, using(crate::specs::Placed::steps))]
fn push_strays(
    alloc: Global,
    group: GroupId,
    strays: &[Stray],
    replies: &mut Vec<Reply>,
) -> Result<(), NoMemory>
    requires { All IsShortlyAnswered strays.now }
    ensures replies { OnOk result (replies.new.items ≡ replies.old.items ++ placed (stray_reply group.0) 0 strays.now) }
    ensures short { All IsShort replies.old.items → OnOk result (All IsShort replies.new.items) }
{
    for (i, stray) in strays.iter().enumerate() {
        push_stray(alloc, group, i, stray, replies)?;
    }
    Ok(())
}

// Adds those of the connections of a group.
#[tactic(auto, using(crate::specs::Placed::steps))]
fn push_conns(
    alloc: Global,
    local: &Local,
    group: GroupId,
    conns: &[ConnEnd],
    replies: &mut Vec<Reply>,
) -> Result<(), NoMemory>
    requires { All CanAllBeWritten conns.now }
    ensures replies { OnOk result (replies.new.items ≡ replies.old.items ++ placed (opened_replies by_opening local.now group.0) 0 conns.now) }
    ensures short { All IsShort replies.old.items → OnOk result (All IsShort replies.new.items) }
{
    for (i, conn) in conns.iter().enumerate() {
        let place = ConnPlace {
            group,
            opening: i + 1,
        };
        push_conn(alloc, local, place, conn, replies)?;
    }
    Ok(())
}

// Adds those of a group.
fn push_group(
    alloc: Global,
    local: &Local,
    group: GroupId,
    left: &GroupRecord,
    replies: &mut Vec<Reply>,
) -> Result<(), NoMemory>
    requires { FitsGroup left.now }
    ensures replies { OnOk result (replies.new.items ≡ replies.old.items ++ group_replies by_opening local.now group.0 left.now) }
    ensures short { All IsShort replies.old.items → OnOk result (All IsShort replies.new.items) }
{
    push_strays(alloc, group, left.strays.as_slice(), replies)?;
    push_conns(alloc, local, group, left.conns.as_slice(), replies)
}

// Adds those of all groups.
#[tactic(auto, using(crate::specs::Placed::steps))]
fn push_groups(
    alloc: Global,
    local: &Local,
    records: &[GroupRecord],
    replies: &mut Vec<Reply>,
) -> Result<(), NoMemory>
    requires groups { length records.now ≤ 512 }
    requires fit { All FitsGroup records.now }
    ensures replies { OnOk result (replies.new.items ≡ replies.old.items ++ all_replies by_opening local.now records.now) }
    ensures short { All IsShort replies.old.items → OnOk result (All IsShort replies.new.items) }
{
    for (i, left) in records.iter().enumerate() {
        push_group(alloc, local, GroupId(i as u16), left, replies)?;
    }
    Ok(())
}

/// The replies of what the groups of a play leave, in their order. No two of them have one key, and so the number of each is its place.
#[tactic(auto, using(crate::proofs::Numbers::for_replies))]
pub fn replies_of(
    alloc: Global,
    local: &Local,
    records: &[GroupRecord],
) -> Result<Vec<Reply>, NoMemory>
    requires groups { length records.now ≤ 512 }
    requires fit { All FitsGroup records.now }
    ensures same { IfOk result (λ replies. IsPermutation (all_replies by_opening local.now records.now) replies.items) }
    ensures order { IfOk result (λ replies. IsSortedByKey key_of key_cmp replies.items) }
    ensures distinct { IfOk result (λ replies. IsDistinct same_key replies.items) }
    ensures numbers { IfOk result (λ replies. numbers_among replies.items replies.items ≡ range_with_len 0 (length replies.items)) }
    ensures short { IfOk result (λ replies. All IsShort replies.items) }
{
    let mut replies = Vec::new(alloc);
    push_groups(alloc, local, records, &mut replies)?;
    in_order(replies)
}

// Whether a key comes before another.
fn is_before(a: &ReplyKey, b: &ReplyKey) -> bool
    ensures { result ≡ is_before a.now b.now }
{
    a.cmp(b).is_lt()
}

/// The number of the reply with this key: how many of the replies come before it.
pub fn number_of(replies: &[Reply], key: &ReplyKey) -> usize
    requires { IsSortedByKey key_of key_cmp replies.now }
    ensures number { result ≡ number_of replies.now key.now }
    ensures bound { result ≤ length replies.now }
{
    replies.partition_point(|reply| is_before(&reply.key, key))
}
