// The text of a line.
ghost use Rattle.std.specs.Prelude.{◌≡◌, ◌++◌, [], ◌∷◌, OnOk, string_bytes};
ghost use Rattle.ix_lines.specs.Words.{text_of};
ghost use Rattle.ix_lines.specs.declared.line.Line.TheVariants as lines;
ghost use Rattle.ix_lines.specs.declared.types.EntryLine.TheVariants as entries;
ghost use Rattle.ix_lines.specs.declared.types.OutputLine.TheVariants as outputs;

use crate::line::Line;
use crate::names::{connect_word, kind_text, state_word};
use crate::types::{
    ConnectLine, EntryLine, Fate, Head, HomeLine, InputKind, Opening, OutputLine, RetLine,
    RingLine, StrayLine,
};
use ix_base::{BufId, CoreId, GroupId};
use ix_tcpdef::Left;
use ix_words::{push_dotted, push_hex8};
use std::alloc::AllocError;
use std::fmt::Write;

#[tactic(auto, using(crate::proofs::WriteLaws::head_pieces), unfolding(crate::specs::Words::line_text))]
fn push_head(out: &mut String, head: Head) -> Result<(), AllocError>
    ensures { OnOk result (string_bytes out.new ≡ string_bytes out.old ++ text_of (lines.Head head ∷ [])) }
{
    let Head {
        cores,
        batch,
        buffers,
    } = head;
    write!(out, "head 2 cores {cores}")?;
    out.push_str(" groups 512")?;
    write!(out, " batch {batch} buffers {buffers}\n")
}

#[tactic(auto, unfolding(crate::specs::Words::line_text))]
fn push_ring(out: &mut String, core: u64, ring: RingLine) -> Result<(), AllocError>
    ensures { OnOk result (string_bytes out.new ≡ string_bytes out.old ++ text_of (lines.Ring core ring ∷ [])) }
{
    let RingLine {
        posted,
        frames,
        items,
    } = ring;
    write!(
        out,
        "ring {core} posted {posted} frames {frames} items {items}\n"
    )
}

#[tactic(auto, unfolding(crate::specs::Words::line_text))]
fn push_home(out: &mut String, core: u64, home: HomeLine) -> Result<(), AllocError>
    ensures { OnOk result (string_bytes out.new ≡ string_bytes out.old ++ text_of (lines.Home core home ∷ [])) }
{
    let HomeLine {
        pool,
        posted,
        desk,
        held,
        app,
        queue,
    } = home;
    write!(
        out,
        "home {core} pool {pool} posted {posted} desk {desk} held {held} app {app} queue {queue}\n"
    )
}

#[tactic(auto, unfolding(crate::specs::Words::line_text))]
fn push_connect(out: &mut String, peer: u64, answer: ConnectLine) -> Result<(), AllocError>
    ensures { OnOk result (string_bytes out.new ≡ string_bytes out.old ++ text_of (lines.Connect peer answer ∷ [])) }
{
    let word = connect_word(answer);
    write!(out, "connect {peer} {word}\n")
}

#[tactic(auto, unfolding(crate::specs::Words::line_text, ix_words::specs::Fields::place))]
fn push_frame(
    out: &mut String,
    wire: u64,
    rec: u32,
    at: u32,
    group: GroupId,
    ring: CoreId,
    fate: Fate,
) -> Result<(), AllocError>
    ensures { OnOk result (string_bytes out.new ≡ string_bytes out.old ++ text_of (lines.Entry wire (entries.Frame rec at group ring fate) ∷ [])) }
{
    let GroupId(group) = group;
    let CoreId(ring) = ring;
    match fate {
        Fate::Buf(
            BufId {
                home: CoreId(home),
                slot,
            },
        ) => write!(
            out,
            "frame {wire} rec {rec} at {at} group {group} ring {ring} buf {home}.{slot}\n"
        ),
        Fate::RingFull(items) => write!(
            out,
            "frame {wire} rec {rec} at {at} group {group} ring {ring} drop ring-full {items}\n"
        ),
        Fate::NoBuffer(frames) => write!(
            out,
            "frame {wire} rec {rec} at {at} group {group} ring {ring} drop no-buffer {frames}\n"
        ),
        Fate::TooLong(len) => write!(
            out,
            "frame {wire} rec {rec} at {at} group {group} ring {ring} drop too-long {len}\n"
        ),
    }
}

#[tactic(auto, unfolding(crate::specs::Words::line_text))]
fn push_entry(out: &mut String, wire: u64, entry: EntryLine) -> Result<(), AllocError>
    ensures { OnOk result (string_bytes out.new ≡ string_bytes out.old ++ text_of (lines.Entry wire entry ∷ [])) }
{
    match entry {
        EntryLine::Frame {
            rec,
            at,
            group,
            ring,
            fate,
        } => push_frame(out, wire, rec, at, group, ring, fate),
        EntryLine::Time { t } => write!(out, "time {wire} {t}\n"),
        EntryLine::Tag {
            group: GroupId(group),
        } => write!(out, "tag {wire} {group}\n"),
        EntryLine::Move {
            group: GroupId(group),
            to: CoreId(to),
        } => write!(out, "move {wire} {group} {to}\n"),
        EntryLine::Settle => write!(out, "settle {wire}\n"),
    }
}

#[tactic(auto, using(crate::proofs::WriteLaws::stray_steps), unfolding(crate::specs::Words::line_text))]
fn push_stray(out: &mut String, stray: StrayLine) -> Result<(), AllocError>
    ensures { OnOk result (string_bytes out.new ≡ string_bytes out.old ++ text_of (lines.Stray stray ∷ [])) }
{
    let w = stray.w.0;
    let core = stray.core.0;
    write!(out, "stray {w} core {core} ")?;
    out.push_str(kind_text(stray.kind))?;
    match stray.reply {
        None => write!(out, " reply -\n"),
        Some(n) => write!(out, " reply {n}\n"),
    }
}

#[tactic(auto, using(crate::proofs::WriteLaws::conn_pieces), unfolding(crate::specs::Words::line_text))]
fn push_conn(out: &mut String, order: u64, opening: Opening) -> Result<(), AllocError>
    ensures { OnOk result (string_bytes out.new ≡ string_bytes out.old ++ text_of (lines.Conn order opening ∷ [])) }
{
    let group = opening.group.0;
    let remote_port = opening.remote_port;
    let local_port = opening.local_port;
    write!(out, "conn {group} {order} remote ")?;
    push_dotted(out, opening.remote)?;
    write!(out, " {remote_port} local {local_port} iss ")?;
    push_hex8(out, opening.iss)?;
    write!(out, "\n")
}

#[tactic(auto, unfolding(crate::specs::Words::line_text))]
fn push_input(out: &mut String, kind: InputKind) -> Result<(), AllocError>
    ensures { OnOk result (string_bytes out.new ≡ string_bytes out.old ++ text_of (lines.Input kind ∷ [])) }
{
    match kind {
        InputKind::Connect => write!(out, "connect\n"),
        InputKind::Seg { w, core } => {
            let w = w.0;
            let core = core.0;
            write!(out, "seg {w} core {core}\n")
        }
        InputKind::Timer { t } => write!(out, "timer {t}\n"),
        InputKind::Accept => write!(out, "call accept\n"),
        InputKind::Sendv { n } => write!(out, "call sendv {n}\n"),
        InputKind::RecvDone { n } => write!(out, "call recv_done {n}\n"),
        InputKind::Close => write!(out, "call close\n"),
        InputKind::Flush { w } => {
            let w = w.0;
            write!(out, "flush {w}\n")
        }
    }
}

#[tactic(auto, unfolding(crate::specs::Words::line_text))]
fn push_ret(out: &mut String, ret: RetLine) -> Result<(), AllocError>
    ensures { OnOk result (string_bytes out.new ≡ string_bytes out.old ++ text_of (lines.Output (outputs.Ret ret) ∷ [])) }
{
    match ret {
        RetLine::Done(n) => write!(out, "ret done {n}\n"),
        RetLine::BadHandle => write!(out, "ret bad-handle\n"),
        RetLine::NotKnocked => write!(out, "ret not-knocked\n"),
        RetLine::NotOpen => write!(out, "ret not-open\n"),
        RetLine::TooMuch => write!(out, "ret too-much\n"),
    }
}

#[tactic(auto, unfolding(crate::specs::Words::line_text, ix_words::specs::Fields::place))]
fn push_output(out: &mut String, output: OutputLine) -> Result<(), AllocError>
    ensures { OnOk result (string_bytes out.new ≡ string_bytes out.old ++ text_of (lines.Output output ∷ [])) }
{
    match output {
        OutputLine::Reply(n) => write!(out, "reply {n}\n"),
        OutputLine::Ret(ret) => push_ret(out, ret),
        OutputLine::Knock => write!(out, "event knock\n"),
        OutputLine::ConnectedUp => write!(out, "event connected up\n"),
        OutputLine::ConnectedRefused => write!(out, "event connected refused\n"),
        OutputLine::ConnectedTimeout => write!(out, "event connected timeout\n"),
        OutputLine::Recv { buf, from, len } => {
            let home = buf.home.0;
            let slot = buf.slot;
            write!(out, "event recv {home}.{slot} {from} {len}\n")
        }
        OutputLine::RecvEnd => write!(out, "event recv end\n"),
        OutputLine::Sent { bytes, window } => write!(out, "event sent {bytes} {window}\n"),
        OutputLine::DeadReset => write!(out, "event dead reset\n"),
        OutputLine::DeadTimeout => write!(out, "event dead timeout\n"),
    }
}

#[tactic(auto, unfolding(crate::specs::Words::line_text))]
fn push_left(out: &mut String, left: Left) -> Result<(), AllocError>
    ensures { OnOk result (string_bytes out.new ≡ string_bytes out.old ++ text_of (lines.Left left ∷ [])) }
{
    let state = state_word(left.state);
    let Left {
        una,
        nxt,
        rcv,
        cwnd,
        ssthresh,
        ..
    } = left;
    write!(
        out,
        "left {state} una {una} nxt {nxt} rcv {rcv} cwnd {cwnd} ssthresh {ssthresh}\n"
    )
}

/// Adds a line with its line feed.
#[tactic(auto, unfolding(crate::specs::Words::line_text))]
pub fn push_line(out: &mut String, line: Line) -> Result<(), AllocError>
    ensures appended { OnOk result (string_bytes out.new ≡ string_bytes out.old ++ text_of (line ∷ [])) }
{
    match line {
        Line::Head(head) => push_head(out, head),
        Line::Open => write!(out, "settle open\n"),
        Line::Ring { core, ring } => push_ring(out, core, ring),
        Line::Home { core, home } => push_home(out, core, home),
        Line::Connect { peer, answer } => push_connect(out, peer, answer),
        Line::Entry { wire, entry } => push_entry(out, wire, entry),
        Line::Stray(stray) => push_stray(out, stray),
        Line::Conn { order, opening } => push_conn(out, order, opening),
        Line::Input(kind) => push_input(out, kind),
        Line::Output(output) => push_output(out, output),
        Line::Left(left) => push_left(out, left),
        Line::Answer { wrote, taken } => write!(out, "answer wrote {wrote} taken {taken}\n"),
        Line::Closed { core, pool } => write!(out, "closed {core} pool {pool}\n"),
        Line::End { replies, drops } => write!(out, "end replies {replies} drops {drops}\n"),
    }
}
