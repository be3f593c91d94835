// The journal of a connection, which stores the bytes that were given to be sent once.
ghost use Rattle.std.specs.Prelude.{◌≡◌, ◌+◌, ◌-◌, ◌<◌, ◌≤◌, [], ◌∷◌, ◌++◌, length, drop, false, OnOk, OnErr, IfOk, IfErr, IsTrue, ◌↔◌};
ghost use Rattle.std.specs.Option.{option_copied};
ghost use Rattle.ix_groupdef.specs.Journal.{sendv_of, is_sendv, done_in, taken_by, place_of, segment_kept, segment_stored};
ghost use Rattle.ix_groupdef.specs.Life.{segment_in};

use crate::types::JournalEntry;
use ix_base::{Bytes, CoreId, NoMemory, Ret, Seg, WireNo};
use ix_tcpdef::{Ask, Input, Output, Outputs};
use std::alloc::Global;
use std::marker::Model;

// What an entry keeps of its input: the input, or which bytes of the stream a call to send carried.
#[derive(Drop)]
enum Kept {
    Whole(Input),
    Sent { from: usize, to: usize },
}

#[derive(Drop)]
struct Stored {
    kept: Kept,
    clock: u64,
    core: Option<CoreId>,
    outputs: Outputs,
}

/// The inputs of a connection with what they gave, in order. It is seen as the list of its entries. A call to send carries all that was
/// not taken of the one before, and more: only what is new is stored.
#[derive(Drop)]
pub struct Journal {
    stream: Vec<u8>,
    entries: Vec<Stored>,
    // where what was not taken of the last call to send begins in the stream; it ends where the stream ends
    left: usize,
}

impl Model for Journal {
    ghost use Rattle.std.specs.Prelude.{List};
    ghost use Rattle.ix_groupdef.specs.declared.types.JournalEntry.{JournalEntry as Entry};

    ghost Value = { List Entry };

    ghost use Rattle.ix_groupdef.specs.Journal.{entries_of, IsStored};

    ghost view = { λ j. entries_of j.stream.items j.entries.items };

    ghost invariant = { λ j. IsStored j.stream.items j.entries.items j.left };
}

/// An entry as it is read.
#[derive(Clone, Copy)]
pub struct EntryView<'a> {
    pub input: InputView<'a>,
    pub clock: u64,
    pub core: Option<CoreId>,
    pub outputs: &'a Outputs,
}

/// An input as it is read: the bytes of a call to send, or another input.
#[derive(Clone, Copy)]
pub enum InputView<'a> {
    Sendv(&'a [u8]),
    Other(&'a Input),
}

impl Journal {
    ghost use Rattle.ix_groupdef.specs.Journal.{stored_of, seen_entry};
    ghost use Rattle.std.specs.Prelude.{slice_index_or};
    ghost use Rattle.ix_groupdef.specs.declared.types.JournalEntry.{JournalEntry as Entry};
    ghost use Rattle.ix_groupdef.specs.Life.{segment_named};

    /// A journal without entries; it takes no memory yet.
    pub fn new(alloc: Global) -> Journal
        ensures { result ≡ [] }
    {
        Journal {
            stream: Vec::new(alloc),
            entries: Vec::new(alloc),
            left: 0,
        }
    }

    /// How many entries there are.
    pub fn len(&self) -> usize
        ensures { result ≡ length self.now }
    {
        self.entries.len()
    }

    /// Whether there is no entry.
    pub fn is_empty(&self) -> bool
        ensures { IsTrue result ↔ (self.now ≡ []) }
    {
        self.entries.is_empty()
    }

    /// How many bytes are stored for calls to send: of each call those that were not left of the one before.
    pub fn stored(&self) -> usize
        ensures { result ≡ stored_of self.now }
    {
        self.stream.len()
    }

    /// Puts one more entry at the end, or leaves the journal as it was.
    pub fn push(&mut self, entry: JournalEntry) -> Result<(), NoMemory>
        ensures ok { OnOk result (self.new ≡ self.old ++ entry ∷ []) }
        ensures err { OnErr result (self.new ≡ self.old) }
    {
        let JournalEntry {
            input,
            clock,
            core,
            outputs,
        } = entry;
        match bytes_given(input) {
            Ok(bytes) => self.push_sendv(bytes.as_slice(), clock, core, outputs),
            Err(input) => self.push_other(input, clock, core, outputs),
        }
    }

    fn push_other(
        &mut self,
        input: Input,
        clock: u64,
        core: Option<CoreId>,
        outputs: Outputs,
    ) -> Result<(), NoMemory>
        requires { is_sendv input ≡ false }
        ensures ok { OnOk result (self.new ≡ self.old ++ record { input = input; clock = clock; core = core; outputs = outputs } ∷ []) }
        ensures err { OnErr result (self.new ≡ self.old) }
    {
        self.entries.push(Stored {
            kept: Kept::Whole(input),
            clock,
            core,
            outputs,
        })?;
        Ok(())
    }

    fn push_sendv(
        &mut self,
        bytes: &[u8],
        clock: u64,
        core: Option<CoreId>,
        outputs: Outputs,
    ) -> Result<(), NoMemory>
        ensures ok { OnOk result (self.new ≡ self.old ++ record { input = sendv_of bytes.now; clock = clock; core = core; outputs = outputs } ∷ []) }
        ensures err { OnErr result (self.new ≡ self.old) }
    {
        let stored = self.stream.len();
        let from = place_of(self.stream.as_slice(), self.left, bytes);
        let taken = taken_by(outputs.as_slice()) as usize;
        self.entries.reserve(1)?;
        self.stream.extend_from_slice(&bytes[stored - from..])?;
        let to = self.stream.len();
        self.entries.push_reserved(Stored {
            kept: Kept::Sent { from, to },
            clock,
            core,
            outputs,
        });
        self.left = from.saturating_add(taken).min(to);
        Ok(())
    }

    /// The entry at a place, counted from 0.
    pub fn entry(&self, at: usize) -> EntryView<'_>
        requires { at < length self.now }
        ensures { (d : Entry) → seen_entry result ≡ slice_index_or self.now at d }
    {
        let stored = &self.entries[at];
        EntryView {
            input: seen_input(self.stream.as_slice(), &stored.kept),
            clock: stored.clock,
            core: stored.core,
            outputs: &stored.outputs,
        }
    }

    /// The first segment with this wire number.
    #[tactic(auto, using(crate::proofs::JournalLaws::named_stored))]
    pub fn segment(&self, w: WireNo) -> Option<&Seg>
        ensures { option_copied result ≡ segment_named w self.now }
    {
        segment_stored(w, self.entries.as_slice())
    }
}

// The bytes of a call to send, or an input that is none.
fn bytes_given(input: Input) -> Result<Bytes, Input>
    ensures sendv { IfOk result (λ b. input ≡ sendv_of b) }
    ensures other { IfErr result (λ i. (i ≡ input) × (is_sendv i ≡ false)) }
{
    match input {
        Input::Call(Ask::Sendv { bytes }) => Ok(bytes),
        other => Err(other),
    }
}

// Where the bytes of a call to send begin in the stream: at what was left of the one before where they begin with that, else at its end.
fn place_of(stream: &[u8], left: usize, bytes: &[u8]) -> usize
    requires { left ≤ length stream.now }
    ensures { result ≡ place_of stream.now left bytes.now }
{
    if bytes.starts_with(&stream[left..]) {
        left
    } else {
        stream.len()
    }
}

// How many bytes an output says to be taken.
fn done_in(output: &Output) -> Option<u32>
    ensures { result ≡ done_in output.now }
{
    match output {
        Output::Ret(Ret::Done(bytes)) => Some(*bytes),
        _ => None,
    }
}

// How many bytes a call took, by its return.
#[tactic(auto, using(crate::proofs::JournalLaws::for_taken))]
fn taken_by(outputs: &[Output]) -> u32
    ensures { result ≡ taken_by outputs.now }
{
    for output in outputs {
        if let Some(bytes) = done_in(output) {
            return bytes;
        }
    }
    0
}

// The segment that is kept, if it has this wire number.
fn segment_kept(w: WireNo, kept: &Kept) -> Option<&Seg>
    ensures { option_copied result ≡ segment_kept w kept.now }
{
    match kept {
        Kept::Whole(input) => segment_in(w, input),
        Kept::Sent { .. } => None,
    }
}

// The first segment with this wire number.
#[tactic(auto, using(crate::proofs::JournalLaws::for_kept))]
fn segment_stored(w: WireNo, entries: &[Stored]) -> Option<&Seg>
    ensures { option_copied result ≡ segment_stored w entries.now }
{
    for stored in entries {
        if let Some(seg) = segment_kept(w, &stored.kept) {
            return Some(seg);
        }
    }
    None
}

/// The segment that an input is, if it has this wire number.
pub fn segment_in(w: WireNo, input: &Input) -> Option<&Seg>
    ensures { option_copied result ≡ segment_in w input.now }
{
    match input {
        Input::Segment { w: v, seg } => {
            if v.0 == w.0 {
                return Some(seg);
            }
            None
        }
        _ => None,
    }
}

ghost use Rattle.ix_groupdef.specs.Journal.{input_of, seen_input, IsWithin};

// What is kept, as it is read.
fn seen_input<'a>(stream: &'a [u8], kept: &'a Kept) -> InputView<'a>
    requires { IsWithin (length stream.now) kept.now }
    ensures { seen_input result ≡ input_of stream.now kept.now }
{
    match kept {
        Kept::Whole(input) => InputView::Other(input),
        Kept::Sent { from, to } => {
            let rest = &stream[*from..];
            InputView::Sendv(&rest[..*to - *from])
        }
    }
}
