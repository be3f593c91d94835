// The entries of one place.
ghost use Rattle.std.specs.Prelude.{◌≡◌, ◌==◌, ◌<◌, ◌-◌, ◌++◌, ◌∷◌, [], ℕ, length, take, slice_get, OnOk, OnErr};
ghost use Rattle.ix_time.specs.Slots.{taken};

use ix_base::NoMemory;
use std::alloc::Global;
use std::marker::Model;

/// Keys with their ticks, in no order.
#[derive(Drop)]
pub struct Slot {
    entries: Vec<(u32, u64)>,
}

impl Model for Slot {
    ghost use Rattle.std.specs.Prelude.{List, ℕ};

    ghost Value = { List (ℕ × ℕ) };

    ghost view = { λ s. s.entries.items };
}

impl Slot {
    /// No entry. It takes no memory yet.
    pub fn new(alloc: Global) -> Slot
        ensures { result ≡ [] }
    {
        Slot {
            entries: Vec::new(alloc),
        }
    }

    /// The entries.
    pub fn entries(&self) -> &[(u32, u64)]
        ensures { result.now ≡ self.now }
    {
        self.entries.as_slice()
    }

    /// The number of entries.
    pub fn len(&self) -> usize
        ensures { result ≡ length self.now }
    {
        self.entries.len()
    }

    /// Whether there is none.
    pub fn is_empty(&self) -> bool
        ensures { result ≡ (length self.now == 0) }
    {
        self.entries.is_empty()
    }

    /// Puts an entry behind the others.
    pub fn push(&mut self, key: u32, tick: u64) -> Result<(), NoMemory>
        ensures ok { OnOk result (self.new ≡ self.old ++ (key, tick) ∷ []) }
        ensures err { OnErr result (self.new ≡ self.old) }
    {
        self.entries.push((key, tick))?;
        Ok(())
    }

    /// Takes the last entry away.
    pub fn pop(&mut self)
        ensures { self.new ≡ take (length self.old - 1) self.old }
    {
        let _last = self.entries.pop();
    }

    /// Takes the entry at an index away, puts the last one there, and gives what stands there then.
    pub fn swap_remove(&mut self, index: usize) -> Option<(u32, u64)>
        requires { index < length self.old }
        ensures rest { (i : ℕ) → slice_get self.new i ≡ taken self.old index i }
        ensures there { result ≡ taken self.old index index }
    {
        self.entries.swap_remove(index);
        self.entries.get(index).copied()
    }
}
