// How much a core does in one turn.

use std::marker::Model;

/// The most frames that a core takes, and steps, in one turn: 1 to 256. Contracts see the number.
#[derive(Drop)]
pub struct Batch {
    frames: u16,
}

impl Model for Batch {
    ghost use Rattle.std.specs.Prelude.{◌≤◌, ℕ};

    ghost Value = { ℕ };

    ghost view = { λ b. b.frames };

    ghost invariant = { λ b. (1 ≤ b.frames) × (b.frames ≤ 256) };
}

impl Batch {
    ghost use Rattle.std.specs.Prelude.{◌≡◌, ◌≤◌};

    /// So many frames.
    pub fn new(frames: u16) -> Batch
        requires some { 1 ≤ frames }
        requires most { frames ≤ 256 }
        ensures { result ≡ frames }
    {
        Batch { frames }
    }

    /// How many frames these are.
    pub fn frames(&self) -> usize
        ensures is { result ≡ self.now }
        ensures some { 1 ≤ result }
        ensures most { result ≤ 256 }
    {
        usize::from(self.frames)
    }
}
