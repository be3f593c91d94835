// What all holders read.
use std::marker::Model;

/// How many buffers a holder holds: 1 to 8.
#[derive(Drop)]
pub struct Room {
    places: u8,
}

impl Model for Room {
    ghost use Rattle.std.specs.Prelude.{◌≤◌, ℕ};

    ghost Value = { ℕ };

    ghost view = { λ r. r.places };

    ghost invariant = { λ r. (1 ≤ r.places) × (r.places ≤ 8) };
}

impl Room {
    ghost use Rattle.std.specs.Prelude.{◌≡◌, ◌≤◌};

    /// Room for so many buffers.
    pub fn new(places: u8) -> Room
        requires least { 1 ≤ places }
        requires most { places ≤ 8 }
        ensures { result ≡ places }
    {
        Room { places }
    }

    /// The number of buffers that there is room for.
    pub fn places(&self) -> usize
        ensures same { result ≡ self.now }
        ensures least { 1 ≤ self.now }
        ensures most { self.now ≤ 8 }
    {
        usize::from(self.places)
    }
}
