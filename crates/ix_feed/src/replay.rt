// A wire list with the frames that it names, and how far it has come.
ghost use Rattle.std.specs.Prelude.{◌<◌, ◌≤◌, ◌^◌, All, length};

use ix_base::{Bytes, NoMemory, WireNo};
use ix_lines::EntryLine;
use ix_pcap::Capture;
use ix_wire::Entry;
use std::alloc::Global;
use std::marker::Model;

/// The wire list of a play over a capture, and a line for each entry that was carried out: what a trace says of it. An epoch is the entries up
/// to a settle, and is over once that is carried out. There is room for all lines from the start.
#[derive(Drop)]
pub struct Replay {
    entries: Vec<Entry>,
    bytes: Bytes,
    capture: Capture,
    lines: Vec<EntryLine>,
    clock: u32,
    ended: bool,
    waiting: usize,
}

impl Model for Replay {
    ghost use Rattle.std.specs.Prelude.{◌<◌, ◌≤◌, ◌^◌, All, length, vec_capacity, vec_len};
    ghost use Rattle.ix_pcap.specs.Capture.{IsSpanOf, frames_of};
    ghost use Rattle.ix_feed.specs.Replays.{ReplayView};

    ghost Value = { ReplayView };

    ghost view = { λ r. record {
      entries = r.entries.items;
      frames = frames_of r.bytes r.capture;
      lines = r.lines.items;
      clock = r.clock;
      ended = r.ended;
      waiting = r.waiting;
    } };

    ghost invariant = { λ r. (All (IsSpanOf r.bytes) r.capture × (length r.bytes < 2 ^ 32)) × ((vec_len r.lines ≤ vec_len r.entries) × (vec_len r.entries ≤ vec_capacity r.lines) × (vec_len r.entries < 2 ^ 32)) };
}

impl Replay {
    ghost use Rattle.std.specs.Prelude.{◌≡◌, ◌<◌, ◌≤◌, ◌^◌, ◌++◌, ◌∷◌, [], All, length, true, false, Some, slice_get, count_by, IfOk, IfSome, IfNone};
    ghost use Rattle.ix_pcap.specs.Capture.{IsSpanOf, frames_of};
    ghost use Rattle.ix_feed.specs.Replays.{NextIs, NoneIsNext, is_move};

    /// A wire list of which nothing was carried out yet, over the records of a capture that lie in these bytes. No epoch is under way.
    pub fn new(
        alloc: Global,
        entries: Vec<Entry>,
        bytes: Bytes,
        capture: Capture,
    ) -> Result<Replay, NoMemory>
        requires spans { All (IsSpanOf bytes) capture }
        requires bytes { length bytes < 2 ^ 32 }
        requires entries { length entries.items < 2 ^ 32 }
        ensures { IfOk result (λ r. r ≡ record { entries = entries.items; frames = frames_of bytes capture; lines = []; clock = 0; ended = true; waiting = 0 }) }
    {
        let lines = Vec::with_capacity(alloc, entries.len())?;
        Ok(Replay {
            entries,
            bytes,
            capture,
            lines,
            clock: 0,
            ended: true,
            waiting: 0,
        })
    }

    /// The wire list.
    pub fn entries(&self) -> &[Entry]
        ensures { result.now ≡ self.now.entries }
    {
        self.entries.as_slice()
    }

    /// How many turns of the redirection table the wire list takes.
    pub fn moves(&self) -> usize
        ensures { result ≡ count_by is_move self.now.entries }
    {
        self.entries
            .iter()
            .filter(|entry| matches!(entry, Entry::Move { .. }))
            .count()
    }

    /// What a trace says of each entry that was carried out, in order.
    pub fn lines(&self) -> &[EntryLine]
        ensures lines { result.now ≡ self.now.lines }
        ensures few { length result.now ≤ length self.now.entries }
    {
        self.lines.as_slice()
    }

    /// The lines, by value.
    pub fn into_lines(self) -> Vec<EntryLine>
        ensures { result.items ≡ self.lines }
    {
        self.lines
    }

    /// Whether the epoch is over: its end was put on the rings, or none was begun.
    pub fn has_ended(&self) -> bool
        ensures { result ≡ self.now.ended }
    {
        self.ended
    }

    /// Begins the next epoch, of which an entry is left.
    pub fn begin(&mut self)
        requires { length self.old.lines < length self.old.entries }
        ensures { self.new ≡ record self.old { ended = false } }
    {
        self.ended = false;
    }

    /// The entry that is to be carried out next, where the epoch is not over.
    pub(crate) fn next(&self) -> Option<Entry>
        ensures some { IfSome result (λ e. NextIs e self.now) }
        ensures none { IfNone result (NoneIsNext self.now) }
    {
        if self.ended {
            return None;
        }
        self.entries.get(self.lines.len()).copied()
    }

    /// The number of the next entry.
    pub(crate) fn number(&self) -> WireNo
        requires { length self.now.lines < length self.now.entries }
        ensures { result.0 ≡ length self.now.lines }
    {
        WireNo(self.lines.len() as u32)
    }

    /// The time, in ticks.
    pub(crate) fn clock(&self) -> u32
        ensures { result ≡ self.now.clock }
    {
        self.clock
    }

    /// The frame of a record of the capture.
    pub(crate) fn frame(&self, rec: u32) -> &[u8]
        requires { rec < length self.now.frames }
        ensures frame { slice_get self.now.frames rec ≡ Some result.now }
        ensures size { length result.now < 2 ^ 32 }
    {
        let span = self.capture.spans()[rec as usize];
        &self.bytes.as_slice()[span.from..span.to]
    }

    /// How many items stood behind the rings when that was last looked at.
    pub(crate) fn waiting(&self) -> usize
        ensures { result ≡ self.now.waiting }
    {
        self.waiting
    }

    /// Notes how many items stand behind the rings.
    pub(crate) fn wait(&mut self, waiting: usize)
        ensures { self.new ≡ record self.old { waiting = waiting } }
    {
        self.waiting = waiting;
    }

    /// Notes that the next entry was carried out.
    pub(crate) fn note(&mut self, line: EntryLine)
        requires { length self.old.lines < length self.old.entries }
        ensures { self.new ≡ record self.old { lines = self.old.lines ++ line ∷ [] } }
    {
        self.lines.push_reserved(line);
    }

    /// Sets the clock.
    pub(crate) fn tick(&mut self, t: u32)
        ensures { self.new ≡ record self.old { clock = t } }
    {
        self.clock = t;
    }

    /// Notes that the epoch is over, with so many items behind the rings.
    pub(crate) fn end(&mut self, waiting: usize)
        ensures { self.new ≡ record self.old { ended = true; waiting = waiting } }
    {
        self.ended = true;
        self.waiting = waiting;
    }
}
