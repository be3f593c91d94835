// What all holders read.
ghost use Rattle.std.specs.Prelude.{◌≡◌, ◌≤◌};

use std::marker::Model;

/// How many buffers a holder holds: 1 to 8.
#[derive(Drop)]
pub struct Room {
    keep: u8,
}

impl Model for Room {
    ghost use Rattle.std.specs.Prelude.{◌≤◌, ℕ};

    ghost Value = { ℕ };

    ghost view = { λ r. r.keep };

    ghost invariant = { λ r. (1 ≤ r.keep) × (r.keep ≤ 8) };
}

impl Room {
    /// Room for so many buffers.
    pub fn new(keep: u8) -> Room
        requires { (1 ≤ keep) × (keep ≤ 8) }
        ensures { result ≡ keep }
    {
        Room { keep }
    }

    /// How many buffers a holder holds.
    pub fn keep(&self) -> usize
        ensures same { result ≡ self.now }
        ensures range { (1 ≤ self.now) × (self.now ≤ 8) }
    {
        usize::from(self.keep)
    }
}
