// The replies of a group, before their connections have places.
ghost use Rattle.std.specs.Prelude.{◌≡◌, ◌≤◌, ◌<◌, ◌^◌, ◌++◌, All, IfOk, OnOk, length};
ghost use Rattle.ix_groupdef.specs.Journal.{seen_entry};
ghost use Rattle.ix_groupdef.specs.Sent.{CanBeWritten};
ghost use Rattle.ix_playdef.specs.Placed.{placed};
ghost use Rattle.ix_playdef.specs.Replies.{CanAllBeWritten, FitsGroup, IsShort, IsShortlyAnswered, by_opening, conn_replies, group_replies, input_replies, opened_replies, reply_of, stray_reply};
ghost use Rattle.ix_seg.specs.Written.{frame_bytes};

use ix_base::{Bytes, GroupId, Local, NoMemory, Seg, WireNo};
use ix_groupdef::{ConnEnd, EntryView, GroupRecord, Stray};
use ix_playdef::{Reply, ReplyKey, end_at, key_at, stray_key};
use ix_seg::write_frame;
use ix_tcpdef::Output;
use std::alloc::Global;

/// The longest frame that is sent, in bytes: its headers, the option of a SYN, and a body of 1,460 bytes.
const LONGEST: usize = 1518;

// The frame of a segment.
fn frame_of(alloc: Global, local: &Local, seg: &Seg) -> Result<Bytes, NoMemory>
    requires len { seg.now.head.len ≡ length seg.now.body }
    requires fits { length seg.now.body ≤ 1460 }
    ensures written { IfOk result (λ frame. frame ≡ frame_bytes seg.now.head local.now seg.now.body) }
    ensures short { IfOk result (λ frame. length frame < 2 ^ 32) }
{
    let mut frame = [0; LONGEST];
    let len = write_frame(&seg.head, seg.body.as_slice(), local, &mut frame);
    Bytes::from_slice(alloc, &frame[..len])
}

// Adds the reply that an output is.
fn push_output(
    alloc: Global,
    local: &Local,
    key: ReplyKey,
    output: &Output,
    replies: &mut Vec<Reply>,
) -> Result<(), NoMemory>
    requires { CanBeWritten output.now }
    ensures replies { OnOk result (replies.new.items ≡ replies.old.items ++ reply_of local.now key output.now) }
    ensures short { All IsShort replies.old.items → OnOk result (All IsShort replies.new.items) }
{
    if let Output::Frame(seg) = output {
        let frame = frame_of(alloc, local, seg)?;
        replies.push(Reply { key, frame })?;
    }
    Ok(())
}

// The place of a connection: its group, and its opening order, which begins at 1.
#[derive(Clone, Copy)]
struct ConnPlace {
    group: GroupId,
    opening: usize,
}

// Adds those of an input.
#[tactic(auto, using(ix_playdef::specs::Placed::steps))]
fn push_input(
    alloc: Global,
    local: &Local,
    place: ConnPlace,
    ends: &[Option<WireNo>],
    at: usize,
    view: &EntryView<'_>,
    replies: &mut Vec<Reply>,
) -> Result<(), NoMemory>
    requires { All CanBeWritten view.now.outputs.now }
    ensures replies { OnOk result (replies.new.items ≡ replies.old.items ++ input_replies by_opening local.now place.group.0 place.opening ends.now at (seen_entry view.now)) }
    ensures short { All IsShort replies.old.items → OnOk result (All IsShort replies.new.items) }
{
    let end = end_at(ends, at);
    let outputs = view.outputs.as_slice();
    for (i, output) in outputs.iter().enumerate() {
        let key = key_at(place.group, place.opening, at, view.input, end, i);
        push_output(alloc, local, key, output, replies)?;
    }
    Ok(())
}

// Adds those of a connection.
#[tactic(auto, using(ix_playdef::specs::Placed::steps))]
fn push_conn(
    alloc: Global,
    local: &Local,
    place: ConnPlace,
    conn: &ConnEnd,
    replies: &mut Vec<Reply>,
) -> Result<(), NoMemory>
    requires { CanAllBeWritten conn.now }
    ensures replies { OnOk result (replies.new.items ≡ replies.old.items ++ conn_replies by_opening local.now place.group.0 place.opening conn.now) }
    ensures short { All IsShort replies.old.items → OnOk result (All IsShort replies.new.items) }
{
    let journal = &conn.journal;
    let ends = conn.ends.as_slice();
    for i in 0..journal.len() {
        let view = journal.entry(i);
        push_input(alloc, local, place, ends, i, &view, replies)?;
    }
    Ok(())
}

// Adds the answer to a stray.
fn push_stray(
    alloc: Global,
    group: GroupId,
    at: usize,
    stray: &Stray,
    replies: &mut Vec<Reply>,
) -> Result<(), NoMemory>
    requires { IsShortlyAnswered stray.now }
    ensures replies { OnOk result (replies.new.items ≡ replies.old.items ++ stray_reply group.0 at stray.now) }
    ensures short { All IsShort replies.old.items → OnOk result (All IsShort replies.new.items) }
{
    if let Some(frame) = &stray.reply {
        let key = stray_key(group, at, stray.w);
        let frame = Bytes::from_slice(alloc, frame.as_slice())?;
        replies.push(Reply { key, frame })?;
    }
    Ok(())
}

// Adds the answers to the strays of a group.
#[tactic(auto, using(ix_playdef::specs::Placed::steps))]
fn push_strays(
    alloc: Global,
    group: GroupId,
    strays: &[Stray],
    replies: &mut Vec<Reply>,
) -> Result<(), NoMemory>
    requires { All IsShortlyAnswered strays.now }
    ensures replies { OnOk result (replies.new.items ≡ replies.old.items ++ placed (stray_reply group.0) 0 strays.now) }
    ensures short { All IsShort replies.old.items → OnOk result (All IsShort replies.new.items) }
{
    for (i, stray) in strays.iter().enumerate() {
        push_stray(alloc, group, i, stray, replies)?;
    }
    Ok(())
}

// Adds those of the connections of a group.
#[tactic(auto, using(ix_playdef::specs::Placed::steps))]
fn push_conns(
    alloc: Global,
    local: &Local,
    group: GroupId,
    conns: &[ConnEnd],
    replies: &mut Vec<Reply>,
) -> Result<(), NoMemory>
    requires { All CanAllBeWritten conns.now }
    ensures replies { OnOk result (replies.new.items ≡ replies.old.items ++ placed (opened_replies by_opening local.now group.0) 0 conns.now) }
    ensures short { All IsShort replies.old.items → OnOk result (All IsShort replies.new.items) }
{
    for (i, conn) in conns.iter().enumerate() {
        let place = ConnPlace {
            group,
            opening: i + 1,
        };
        push_conn(alloc, local, place, conn, replies)?;
    }
    Ok(())
}

/// Adds those of a group, in the order in which its lines name them: its strays, and then its connections, journal by journal.
pub fn push_group(
    alloc: Global,
    local: &Local,
    group: GroupId,
    left: &GroupRecord,
    replies: &mut Vec<Reply>,
) -> Result<(), NoMemory>
    requires { FitsGroup left.now }
    ensures replies { OnOk result (replies.new.items ≡ replies.old.items ++ group_replies by_opening local.now group.0 left.now) }
    ensures short { All IsShort replies.old.items → OnOk result (All IsShort replies.new.items) }
{
    push_strays(alloc, group, left.strays.as_slice(), replies)?;
    push_conns(alloc, local, group, left.conns.as_slice(), replies)
}
