// The line that bytes are.
ghost use Rattle.std.specs.Prelude.{◌≡◌, codes};
ghost use Rattle.std.specs.Option.{option_map};
ghost use Rattle.ix_words.specs.Numbers.{number_of};
ghost use Rattle.ix_words.specs.Fields.{with_rest, field_of, named_field, at_end, place_of};
ghost use Rattle.ix_lines.specs.Words.{max8, max32, last_group};
ghost use Rattle.ix_lines.specs.Read.{buf_fate, amount_of, drop_fate, fate_of, head_line, open_line, settle_line, ring_line, home_line, answered_line, time_line, tag_line, move_line, frame_line, stray_line, conn_line, seg_line, timer_line, sendv_line, recv_done_line, flush_line, reply_line, done_line, refused_line, connected_line, ended_line, recv_line, sent_line, dead_line, left_line, answer_line, closed_line, end_line, call_line, event_line, journal_line, entry_line, by_verb, line_read};

use crate::line::Line;
use crate::names::{
    connect_answer_of, connected_of, dead_of, next_kind, refusal_of, reply_number_of, state_of,
};
use crate::types::{
    EntryLine, Fate, Head, HomeLine, InputKind, Opening, OutputLine, RetLine, RingLine, StrayLine,
};
use ix_base::{BufId, CoreId, FLOW_GROUPS, GroupId, WireNo};
use ix_tcpdef::Left;
use ix_words::Parts;

const LAST_GROUP: u64 = FLOW_GROUPS as u64 - 1;

// A group's number.
fn next_group(words: &mut Parts<'_>) -> Option<GroupId>
    ensures { with_rest words.new (option_map (λ group. group.0) result) ≡ field_of (number_of last_group) words.old }
{
    let number = words.number(LAST_GROUP)?;
    Some(GroupId(number as u16))
}

// A group's number, behind its name.
fn named_group(words: &mut Parts<'_>) -> Option<GroupId>
    ensures { with_rest words.new (option_map (λ group. group.0) result) ≡ named_field (codes "group") (number_of last_group) words.old }
{
    words.word("group")?;
    next_group(words)
}

// A buffer: its home and its slot there.
fn next_buf(words: &mut Parts<'_>) -> Option<BufId>
    ensures { with_rest words.new (option_map (λ buf. (buf.home.0, buf.slot)) result) ≡ field_of (place_of max8 max32) words.old }
{
    let (home, slot) = words.next_place(255, 4_294_967_295)?;
    Some(BufId {
        home: CoreId(home as u8),
        slot: slot as u32,
    })
}

#[tactic(auto, unfolding(crate::specs::Read::buf_fate))]
fn buf_fate(mut words: Parts<'_>) -> Option<Fate>
    ensures { result ≡ buf_fate words.entry }
{
    let buf = next_buf(&mut words)?;
    words.end()?;
    Some(Fate::Buf(buf))
}

#[tactic(auto, unfolding(crate::specs::Read::amount_of))]
fn amount_of(mut words: Parts<'_>) -> Option<u32>
    ensures { result ≡ amount_of words.entry }
{
    let amount = words.next_u32()?;
    words.end()?;
    Some(amount)
}

#[tactic(auto, unfolding(crate::specs::Read::drop_fate))]
fn drop_fate(mut words: Parts<'_>) -> Option<Fate>
    ensures { result ≡ drop_fate words.entry }
{
    let word = words.next_part()?;
    if word == b"ring-full".as_slice() {
        Some(Fate::RingFull(amount_of(words)?))
    } else if word == b"no-buffer".as_slice() {
        Some(Fate::NoBuffer(amount_of(words)?))
    } else if word == b"too-long".as_slice() {
        Some(Fate::TooLong(amount_of(words)?))
    } else {
        None
    }
}

#[tactic(auto, unfolding(crate::specs::Read::fate_of))]
fn fate_of(mut words: Parts<'_>) -> Option<Fate>
    ensures { result ≡ fate_of words.entry }
{
    let word = words.next_part()?;
    if word == b"buf".as_slice() {
        buf_fate(words)
    } else if word == b"drop".as_slice() {
        drop_fate(words)
    } else {
        None
    }
}

#[tactic(auto, unfolding(crate::specs::Read::head_line))]
fn head_line(mut words: Parts<'_>) -> Option<Line>
    ensures { result ≡ head_line words.entry }
{
    words.word("2")?;
    let cores = words.named_u8("cores")?;
    words.word("groups")?;
    words.word("512")?;
    let batch = words.named_u16("batch")?;
    let buffers = words.named_u32("buffers")?;
    words.end()?;
    Some(Line::Head(Head {
        cores,
        batch,
        buffers,
    }))
}

#[tactic(auto, unfolding(crate::specs::Read::open_line))]
fn open_line(mut words: Parts<'_>) -> Option<Line>
    ensures { result ≡ open_line words.entry }
{
    words.word("open")?;
    words.end()?;
    Some(Line::Open)
}

#[tactic(auto, unfolding(crate::specs::Read::settle_line))]
fn settle_line(mut words: Parts<'_>) -> Option<Line>
    ensures { result ≡ settle_line words.entry }
{
    let wire = words.next_u64()?;
    words.end()?;
    Some(Line::Entry {
        wire,
        entry: EntryLine::Settle,
    })
}

#[tactic(auto, unfolding(crate::specs::Read::ring_line))]
fn ring_line(mut words: Parts<'_>) -> Option<Line>
    ensures { result ≡ ring_line words.entry }
{
    let core = words.next_u64()?;
    let posted = words.named_u32("posted")?;
    let frames = words.named_u32("frames")?;
    let items = words.named_u32("items")?;
    words.end()?;
    let ring = RingLine {
        posted,
        frames,
        items,
    };
    Some(Line::Ring { core, ring })
}

#[tactic(auto, unfolding(crate::specs::Read::home_line))]
fn home_line(mut words: Parts<'_>) -> Option<Line>
    ensures { result ≡ home_line words.entry }
{
    let core = words.next_u64()?;
    let pool = words.named_u32("pool")?;
    let posted = words.named_u32("posted")?;
    let desk = words.named_u32("desk")?;
    let held = words.named_u32("held")?;
    let app = words.named_u32("app")?;
    let queue = words.named_u32("queue")?;
    words.end()?;
    let home = HomeLine {
        pool,
        posted,
        desk,
        held,
        app,
        queue,
    };
    Some(Line::Home { core, home })
}

#[tactic(auto, unfolding(crate::specs::Read::answered_line))]
fn answered_line(mut words: Parts<'_>) -> Option<Line>
    ensures { result ≡ answered_line words.entry }
{
    let peer = words.next_u64()?;
    let answer = connect_answer_of(words.next_part()?)?;
    words.end()?;
    Some(Line::Connect { peer, answer })
}

#[tactic(auto, unfolding(crate::specs::Read::time_line))]
fn time_line(mut words: Parts<'_>) -> Option<Line>
    ensures { result ≡ time_line words.entry }
{
    let wire = words.next_u64()?;
    let t = words.next_u32()?;
    words.end()?;
    Some(Line::Entry {
        wire,
        entry: EntryLine::Time { t },
    })
}

#[tactic(auto, unfolding(crate::specs::Read::tag_line))]
fn tag_line(mut words: Parts<'_>) -> Option<Line>
    ensures { result ≡ tag_line words.entry }
{
    let wire = words.next_u64()?;
    let group = next_group(&mut words)?;
    words.end()?;
    Some(Line::Entry {
        wire,
        entry: EntryLine::Tag { group },
    })
}

#[tactic(auto, unfolding(crate::specs::Read::move_line))]
fn move_line(mut words: Parts<'_>) -> Option<Line>
    ensures { result ≡ move_line words.entry }
{
    let wire = words.next_u64()?;
    let group = next_group(&mut words)?;
    let to = CoreId(words.next_u8()?);
    words.end()?;
    Some(Line::Entry {
        wire,
        entry: EntryLine::Move { group, to },
    })
}

#[tactic(auto, unfolding(crate::specs::Read::frame_line))]
fn frame_line(mut words: Parts<'_>) -> Option<Line>
    ensures { result ≡ frame_line words.entry }
{
    let wire = words.next_u64()?;
    let rec = words.named_u32("rec")?;
    let at = words.named_u32("at")?;
    let group = named_group(&mut words)?;
    let ring = CoreId(words.named_u8("ring")?);
    let fate = fate_of(words)?;
    Some(Line::Entry {
        wire,
        entry: EntryLine::Frame {
            rec,
            at,
            group,
            ring,
            fate,
        },
    })
}

#[tactic(auto, unfolding(crate::specs::Read::stray_line))]
fn stray_line(mut words: Parts<'_>) -> Option<Line>
    ensures { result ≡ stray_line words.entry }
{
    let w = WireNo(words.next_u32()?);
    let core = CoreId(words.named_u8("core")?);
    let kind = next_kind(&mut words)?;
    words.word("reply")?;
    let reply = reply_number_of(words.next_part()?)?;
    words.end()?;
    Some(Line::Stray(StrayLine {
        w,
        core,
        kind,
        reply,
    }))
}

#[tactic(auto, unfolding(crate::specs::Read::conn_line))]
fn conn_line(mut words: Parts<'_>) -> Option<Line>
    ensures { result ≡ conn_line words.entry }
{
    let group = next_group(&mut words)?;
    let order = words.next_u64()?;
    let remote = words.named_address("remote")?;
    let remote_port = words.next_u16()?;
    let local_port = words.named_u16("local")?;
    let iss = words.named_hex("iss")?;
    words.end()?;
    let opening = Opening {
        group,
        remote,
        remote_port,
        local_port,
        iss,
    };
    Some(Line::Conn { order, opening })
}

#[tactic(auto, unfolding(crate::specs::Read::seg_line))]
fn seg_line(mut words: Parts<'_>) -> Option<Line>
    ensures { result ≡ seg_line words.entry }
{
    let w = WireNo(words.next_u32()?);
    let core = CoreId(words.named_u8("core")?);
    words.end()?;
    Some(Line::Input(InputKind::Seg { w, core }))
}

#[tactic(auto, unfolding(crate::specs::Read::timer_line))]
fn timer_line(mut words: Parts<'_>) -> Option<Line>
    ensures { result ≡ timer_line words.entry }
{
    let t = words.next_u64()?;
    words.end()?;
    Some(Line::Input(InputKind::Timer { t }))
}

#[tactic(auto, unfolding(crate::specs::Read::sendv_line))]
fn sendv_line(mut words: Parts<'_>) -> Option<Line>
    ensures { result ≡ sendv_line words.entry }
{
    let n = words.next_u64()?;
    words.end()?;
    Some(Line::Input(InputKind::Sendv { n }))
}

#[tactic(auto, unfolding(crate::specs::Read::recv_done_line))]
fn recv_done_line(mut words: Parts<'_>) -> Option<Line>
    ensures { result ≡ recv_done_line words.entry }
{
    let n = words.next_u32()?;
    words.end()?;
    Some(Line::Input(InputKind::RecvDone { n }))
}

#[tactic(auto, unfolding(crate::specs::Read::flush_line))]
fn flush_line(mut words: Parts<'_>) -> Option<Line>
    ensures { result ≡ flush_line words.entry }
{
    let w = WireNo(words.next_u32()?);
    words.end()?;
    Some(Line::Input(InputKind::Flush { w }))
}

#[tactic(auto, unfolding(crate::specs::Read::reply_line))]
fn reply_line(mut words: Parts<'_>) -> Option<Line>
    ensures { result ≡ reply_line words.entry }
{
    let n = words.next_u32()?;
    words.end()?;
    Some(Line::Output(OutputLine::Reply(n)))
}

#[tactic(auto, unfolding(crate::specs::Read::done_line))]
fn done_line(mut words: Parts<'_>) -> Option<Line>
    ensures { result ≡ done_line words.entry }
{
    let n = words.named_u32("done")?;
    words.end()?;
    Some(Line::Output(OutputLine::Ret(RetLine::Done(n))))
}

#[tactic(auto, unfolding(crate::specs::Read::refused_line))]
fn refused_line(mut words: Parts<'_>) -> Option<Line>
    ensures { result ≡ refused_line words.entry }
{
    let ret = refusal_of(words.next_part()?)?;
    words.end()?;
    Some(Line::Output(OutputLine::Ret(ret)))
}

#[tactic(auto, unfolding(crate::specs::Read::connected_line))]
fn connected_line(mut words: Parts<'_>) -> Option<Line>
    ensures { result ≡ connected_line words.entry }
{
    let outcome = connected_of(words.next_part()?)?;
    words.end()?;
    Some(Line::Output(outcome))
}

#[tactic(auto, unfolding(crate::specs::Read::ended_line))]
fn ended_line(mut words: Parts<'_>) -> Option<Line>
    ensures { result ≡ ended_line words.entry }
{
    words.word("end")?;
    words.end()?;
    Some(Line::Output(OutputLine::RecvEnd))
}

#[tactic(auto, unfolding(crate::specs::Read::recv_line))]
fn recv_line(mut words: Parts<'_>) -> Option<Line>
    ensures { result ≡ recv_line words.entry }
{
    let buf = next_buf(&mut words)?;
    let from = words.next_u16()?;
    let len = words.next_u16()?;
    words.end()?;
    Some(Line::Output(OutputLine::Recv { buf, from, len }))
}

#[tactic(auto, unfolding(crate::specs::Read::sent_line))]
fn sent_line(mut words: Parts<'_>) -> Option<Line>
    ensures { result ≡ sent_line words.entry }
{
    let bytes = words.next_u32()?;
    let window = words.next_u32()?;
    words.end()?;
    Some(Line::Output(OutputLine::Sent { bytes, window }))
}

#[tactic(auto, unfolding(crate::specs::Read::dead_line))]
fn dead_line(mut words: Parts<'_>) -> Option<Line>
    ensures { result ≡ dead_line words.entry }
{
    let outcome = dead_of(words.next_part()?)?;
    words.end()?;
    Some(Line::Output(outcome))
}

#[tactic(auto, unfolding(crate::specs::Read::left_line))]
fn left_line(mut words: Parts<'_>) -> Option<Line>
    ensures { result ≡ left_line words.entry }
{
    let state = state_of(words.next_part()?)?;
    let una = words.named_u64("una")?;
    let nxt = words.named_u64("nxt")?;
    let rcv = words.named_u64("rcv")?;
    let cwnd = words.named_u32("cwnd")?;
    let ssthresh = words.named_u32("ssthresh")?;
    words.end()?;
    Some(Line::Left(Left {
        state,
        una,
        nxt,
        rcv,
        cwnd,
        ssthresh,
    }))
}

#[tactic(auto, unfolding(crate::specs::Read::answer_line))]
fn answer_line(mut words: Parts<'_>) -> Option<Line>
    ensures { result ≡ answer_line words.entry }
{
    let wrote = words.named_u64("wrote")?;
    let taken = words.named_u64("taken")?;
    words.end()?;
    Some(Line::Answer { wrote, taken })
}

#[tactic(auto, unfolding(crate::specs::Read::closed_line))]
fn closed_line(mut words: Parts<'_>) -> Option<Line>
    ensures { result ≡ closed_line words.entry }
{
    let core = words.next_u64()?;
    let pool = words.named_u32("pool")?;
    words.end()?;
    Some(Line::Closed { core, pool })
}

#[tactic(auto, unfolding(crate::specs::Read::end_line))]
fn end_line(mut words: Parts<'_>) -> Option<Line>
    ensures { result ≡ end_line words.entry }
{
    let replies = words.named_u32("replies")?;
    let drops = words.named_u32("drops")?;
    words.end()?;
    Some(Line::End { replies, drops })
}

// A line, where no word is left.
fn last(words: Parts<'_>, line: Line) -> Option<Line>
    ensures { result ≡ at_end words.entry line }
{
    words.end()?;
    Some(line)
}

#[tactic(auto, unfolding(crate::specs::Read::call_line))]
fn call_line(mut words: Parts<'_>) -> Option<Line>
    ensures { result ≡ call_line words.entry }
{
    let word = words.next_part()?;
    if word == b"accept".as_slice() {
        last(words, Line::Input(InputKind::Accept))
    } else if word == b"sendv".as_slice() {
        sendv_line(words)
    } else if word == b"recv_done".as_slice() {
        recv_done_line(words)
    } else if word == b"close".as_slice() {
        last(words, Line::Input(InputKind::Close))
    } else {
        None
    }
}

#[tactic(auto, unfolding(crate::specs::Read::event_line))]
fn event_line(mut words: Parts<'_>) -> Option<Line>
    ensures { result ≡ event_line words.entry }
{
    let word = words.next_part()?;
    if word == b"knock".as_slice() {
        last(words, Line::Output(OutputLine::Knock))
    } else if word == b"connected".as_slice() {
        connected_line(words)
    } else if word == b"recv".as_slice() {
        match ended_line(words.fork()) {
            Some(line) => Some(line),
            None => recv_line(words),
        }
    } else if word == b"sent".as_slice() {
        sent_line(words)
    } else if word == b"dead".as_slice() {
        dead_line(words)
    } else {
        None
    }
}

// A line of a connection's journal.
#[tactic(auto, unfolding(crate::specs::Read::journal_line))]
fn journal_line(verb: &[u8], words: Parts<'_>) -> Option<Line>
    ensures { result ≡ journal_line verb.now words.entry }
{
    if verb == b"seg".as_slice() {
        seg_line(words)
    } else if verb == b"flush".as_slice() {
        flush_line(words)
    } else if verb == b"call".as_slice() {
        call_line(words)
    } else if verb == b"ret".as_slice() {
        match done_line(words.fork()) {
            Some(line) => Some(line),
            None => refused_line(words),
        }
    } else if verb == b"event".as_slice() {
        event_line(words)
    } else if verb == b"reply".as_slice() {
        reply_line(words)
    } else if verb == b"timer".as_slice() {
        timer_line(words)
    } else {
        None
    }
}

// A line of a settle or of an entry.
#[tactic(auto, unfolding(crate::specs::Read::entry_line))]
fn entry_line(verb: &[u8], words: Parts<'_>) -> Option<Line>
    ensures { result ≡ entry_line verb.now words.entry }
{
    if verb == b"frame".as_slice() {
        frame_line(words)
    } else if verb == b"time".as_slice() {
        time_line(words)
    } else if verb == b"tag".as_slice() {
        tag_line(words)
    } else if verb == b"move".as_slice() {
        move_line(words)
    } else if verb == b"settle".as_slice() {
        match open_line(words.fork()) {
            Some(line) => Some(line),
            None => settle_line(words),
        }
    } else if verb == b"ring".as_slice() {
        ring_line(words)
    } else if verb == b"home".as_slice() {
        home_line(words)
    } else {
        journal_line(verb, words)
    }
}

#[tactic(auto, unfolding(crate::specs::Read::by_verb))]
fn by_verb(verb: &[u8], words: Parts<'_>) -> Option<Line>
    ensures { result ≡ by_verb verb.now words.entry }
{
    if verb == b"head".as_slice() {
        head_line(words)
    } else if verb == b"connect".as_slice() {
        match last(words.fork(), Line::Input(InputKind::Connect)) {
            Some(line) => Some(line),
            None => answered_line(words),
        }
    } else if verb == b"stray".as_slice() {
        stray_line(words)
    } else if verb == b"conn".as_slice() {
        conn_line(words)
    } else if verb == b"left".as_slice() {
        left_line(words)
    } else if verb == b"answer".as_slice() {
        answer_line(words)
    } else if verb == b"closed".as_slice() {
        closed_line(words)
    } else if verb == b"end".as_slice() {
        end_line(words)
    } else {
        entry_line(verb, words)
    }
}

/// The line that bytes without a line feed are, where they are one.
pub fn line_read(bytes: &[u8]) -> Option<Line>
    ensures read { result ≡ line_read bytes.now }
{
    let mut words = Parts::of(bytes, b' ');
    let verb = words.next_part()?;
    by_verb(verb, words)
}
