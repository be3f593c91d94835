// The entries so far, with the settles that are added.

use crate::entry::Entry;
use crate::fault::{Refused, ScriptKind};
use std::alloc::Global;
use std::marker::Model;

/// The most frames of a script.
const MAX_FRAMES: u64 = 262_144;

/// The most tags and moves of a script, both together.
const MAX_MOVES: u64 = 16_777_216;

/// After so many tags, moves and times in a row a settle is added.
const MAX_CONTROLS: u64 = 1000;

/// The entries so far. After the `pace`-th frame since the last settle one is added, and after the 1,000th tag, move or time.
#[derive(Drop)]
pub struct Wire {
    entries: Vec<Entry>,
    pace: u64,
    /// The frames since the last settle.
    paced: u64,
    /// The tags, moves and times since the last settle.
    controls: u64,
    frames: u64,
    moves: u64,
}

/// A place in the entries, to which they can be taken back: how many there are, and the counts there.
#[derive(Clone, Copy, Debug, PartialEq, Eq)]
pub struct Mark {
    pub count: usize,
    pub paced: u64,
    pub controls: u64,
    pub frames: u64,
    pub moves: u64,
}

impl Model for Wire {
    ghost use Rattle.std.specs.Prelude.{◌≤◌, vec_len};
    ghost use Rattle.ix_wire.specs.Wire.{Written};

    ghost Value = { Written };

    ghost view = { λ w. record { entries = w.entries.items; pace = w.pace; paced = w.paced; controls = w.controls; frames = w.frames; moves = w.moves } };

    ghost invariant = { λ w. (w.paced ≤ vec_len w.entries) × (w.controls ≤ vec_len w.entries) × (w.frames ≤ 262144) × (w.moves ≤ 16777216) };
}

impl Wire {
    ghost use Rattle.std.specs.Prelude.{◌≡◌, ◌<◌, ◌≤◌, ◌^◌, All, Ok, length};
    ghost use Rattle.ix_wire.specs.Saved.{GoesOn, IsMark, mark_of, rewound};
    ghost use Rattle.ix_wire.specs.Chain.{Leaves};
    ghost use Rattle.ix_wire.specs.Wire.{settled, start, with_all_each, with_control, with_each, with_frame, with_frames, with_move};

    /// No entry yet.
    #[tactic(auto, unfolding(crate::specs::Wire::start))]
    pub fn new(alloc: Global, pace: u32) -> Wire
        ensures { result ≡ start pace }
    {
        Wire {
            entries: Vec::new(alloc),
            pace: pace as u64,
            paced: 0,
            controls: 0,
            frames: 0,
            moves: 0,
        }
    }

    pub fn into_entries(self) -> Vec<Entry>
        ensures { result.items ≡ self.entries }
    {
        let Wire { entries, .. } = self;
        entries
    }

    /// This place.
    pub fn mark(&self) -> Mark
        ensures is { result ≡ mark_of self.now }
        ensures counts { IsMark result }
    {
        Mark {
            count: self.entries.len(),
            paced: self.paced,
            controls: self.controls,
            frames: self.frames,
            moves: self.moves,
        }
    }

    /// Takes the entries back to a place.
    pub fn rewind(&mut self, mark: Mark)
        requires within { mark.count ≤ length self.old.entries }
        requires counts { IsMark mark }
        ensures { self.new ≡ rewound mark self.old }
    {
        self.entries.truncate(mark.count);
        self.paced = mark.paced;
        self.controls = mark.controls;
        self.frames = mark.frames;
        self.moves = mark.moves;
    }

    #[tactic(auto, unfolding(crate::specs::Wire::settled))]
    pub fn settle(&mut self) -> Result<(), Refused>
        ensures is { Leaves result self.new (Ok (settled self.old)) }
        ensures onward { GoesOn self.old self.new }
    {
        if self.entries.push(Entry::Settle).is_err() {
            return Err(Refused::NoMemory);
        }
        self.paced = 0;
        self.controls = 0;
        Ok(())
    }

    /// A frame of a record.
    #[tactic(auto, unfolding(crate::specs::Wire::with_frame))]
    fn frame(&mut self, rec: u32) -> Result<(), Refused>
        ensures is { Leaves result self.new (with_frame rec self.old) }
        ensures onward { GoesOn self.old self.new }
    {
        if self.frames == MAX_FRAMES {
            return Err(Refused::Kind(ScriptKind::TooMany));
        }
        if self.entries.push(Entry::Frame { rec }).is_err() {
            return Err(Refused::NoMemory);
        }
        self.frames += 1;
        self.paced += 1;
        if self.paced == self.pace {
            return self.settle();
        }
        Ok(())
    }

    /// A time, a tag or a move.
    #[tactic(auto, unfolding(crate::specs::Wire::with_control))]
    pub fn control(&mut self, entry: Entry) -> Result<(), Refused>
        ensures is { Leaves result self.new (Ok (with_control entry self.old)) }
        ensures onward { GoesOn self.old self.new }
    {
        if self.entries.push(entry).is_err() {
            return Err(Refused::NoMemory);
        }
        self.controls += 1;
        if self.controls == MAX_CONTROLS {
            return self.settle();
        }
        Ok(())
    }

    /// A tag or a move.
    #[tactic(auto, unfolding(crate::specs::Wire::with_move))]
    pub fn step(&mut self, entry: Entry) -> Result<(), Refused>
        ensures is { Leaves result self.new (with_move entry self.old) }
        ensures onward { GoesOn self.old self.new }
    {
        if self.moves == MAX_MOVES {
            return Err(Refused::Kind(ScriptKind::TooMany));
        }
        self.moves += 1;
        self.control(entry)
    }

    /// The frames of these records.
    pub fn frames(&mut self, records: &[usize]) -> Result<(), Refused>
        requires { All (λ rec. rec < 2 ^ 32) records.now }
        ensures is { Leaves result self.new (with_frames records.now self.old) }
        ensures onward { GoesOn self.old self.new }
    {
        for rec in records {
            self.frame(*rec as u32)?;
        }
        Ok(())
    }

    #[tactic(auto, unfolding(crate::specs::Wire::with_each))]
    fn frame_and_settle(&mut self, rec: u32) -> Result<(), Refused>
        ensures is { Leaves result self.new (with_each rec self.old) }
        ensures onward { GoesOn self.old self.new }
    {
        self.frame(rec)?;
        self.settle()
    }

    /// The frames of these records, with a settle behind each.
    pub fn each(&mut self, records: &[usize]) -> Result<(), Refused>
        requires { All (λ rec. rec < 2 ^ 32) records.now }
        ensures is { Leaves result self.new (with_all_each records.now self.old) }
        ensures onward { GoesOn self.old self.new }
    {
        for rec in records {
            self.frame_and_settle(*rec as u32)?;
        }
        Ok(())
    }
}
