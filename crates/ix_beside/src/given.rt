// What a connection gives, and what a verdict says that it gives.
ghost use Rattle.std.specs.Prelude.{◌≤◌};

use ix_base::{List, NoMemory, SegHead, WireNo};
use ix_tcpdef::{BEHIND_HEADER, Output, Outputs, Piece, Told};
use ix_tcpin::{HeldUse, Take, Verdict};
use std::alloc::Global;

/// What a connection gives, without bodies.
#[derive(Clone, Copy, PartialEq, Eq)]
pub(crate) enum Given {
    Told(Told),
    Frame(SegHead),
}

/// A held segment: its wire number, and how many of its bytes are held.
#[derive(Clone, Copy)]
pub(crate) struct Waiting {
    pub(crate) w: WireNo,
    pub(crate) len: u16,
}

/// A part of a body that is delivered: the wire number of its segment, its first place in the body, and how many bytes.
#[derive(Clone, Copy)]
pub(crate) struct Part {
    pub(crate) w: WireNo,
    pub(crate) from: u16,
    pub(crate) len: u16,
}

/// Where the body of the segment with this wire number begins in its frame.
pub(crate) fn place_of(w: WireNo) -> u16
    ensures { result ≤ 1000 }
{
    BEHIND_HEADER + (w.0 % 40) as u16
}

/// The events that are the end of the stream, or those that are not.
fn push_told(verdict: &Verdict, ends: bool, given: &mut List<Given>) -> Result<(), NoMemory> {
    for event in verdict.told.as_slice() {
        if (*event == Told::RecvEnd) == ends {
            given.push(Given::Told(*event))?;
        }
    }
    Ok(())
}

/// The parts that a verdict on the segment with this wire number delivers: that of its body, and those of what was held.
pub(crate) fn parts_of(
    alloc: Global,
    verdict: &Verdict,
    w: WireNo,
    held: &List<Waiting>,
) -> Result<List<Part>, NoMemory> {
    let mut parts = List::new(alloc);
    if let Take::Deliver { from, to } = verdict.take {
        let len = to.wrapping_sub(from);
        parts.push(Part { w, from, len })?;
    }
    for (place, held_use) in verdict.held.as_slice().iter().enumerate() {
        if let (HeldUse::Deliver { from }, Some(waiting)) = (*held_use, held.get(place)) {
            let len = waiting.len.wrapping_sub(from);
            let w = waiting.w;
            parts.push(Part { w, from, len })?;
        }
    }
    Ok(parts)
}

/// What a verdict says beside these parts, which are told or not.
pub(crate) fn given_by(
    alloc: Global,
    verdict: &Verdict,
    parts: &List<Part>,
    told: bool,
) -> Result<List<Given>, NoMemory> {
    let mut given = List::new(alloc);
    push_told(verdict, false, &mut given)?;
    if told {
        for part in parts.as_slice() {
            let (w, len) = (part.w, part.len);
            let from = place_of(w).wrapping_add(part.from);
            given.push(Given::Told(Told::Recv { w, from, len }))?;
        }
    }
    if let Some(head) = verdict.reply {
        given.push(Given::Frame(head))?;
    }
    push_told(verdict, true, &mut given)?;
    Ok(given)
}

fn is_given(output: &Output, given: Given) -> bool {
    match output {
        Output::Frame(seg) => seg.body.is_empty() && given == Given::Frame(seg.head),
        Output::Told(told) => given == Given::Told(*told),
        Output::Ret(_) => false,
    }
}

/// Whether a piece of the connection is this part, where each body is the beginning of this text.
fn is_part(piece: &Piece, part: Part, text: &[u8]) -> bool {
    let from = usize::from(part.from);
    let to = from.wrapping_add(usize::from(part.len));
    let is_there = piece.w == part.w && piece.from == place_of(part.w).wrapping_add(part.from);
    match text.get(from..to) {
        Some(bytes) => is_there && piece.bytes.as_slice() == bytes,
        None => false,
    }
}

/// Whether the pieces behind so many are these parts.
pub(crate) fn are_parts(
    pieces: &List<Piece>,
    before: usize,
    parts: &List<Part>,
    text: &[u8],
) -> bool {
    for (place, part) in parts.as_slice().iter().enumerate() {
        match pieces.get(before.wrapping_add(place)) {
            Some(piece) if is_part(piece, *part, text) => {}
            _ => return false,
        }
    }
    pieces.len() == before.wrapping_add(parts.len())
}

pub(crate) fn are_given(outputs: &Outputs, given: &List<Given>) -> bool {
    for (place, output) in outputs.as_slice().iter().enumerate() {
        match given.get(place) {
            Some(one) if is_given(output, *one) => {}
            _ => return false,
        }
    }
    outputs.len() == given.len()
}
