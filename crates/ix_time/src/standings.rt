// Where each key stands in the wheel.
ghost use Rattle.std.specs.Prelude.{◌≡◌, ◌==◌, [], ℕ, Some, None, IfOk, OnOk, OnErr, if◌then◌else◌};
ghost use Rattle.std.specs.Option.{option_map};
ghost use Rattle.ix_time.specs.Standings.{standing_of};

use ix_base::NoMemory;
use std::alloc::Global;
use std::collections::HashMap;
use std::marker::Model;

/// Where a key stands: its tick, which names its place, and its index among the entries of that place.
#[derive(Clone, Copy)]
pub struct Standing {
    pub tick: u64,
    pub index: usize,
}

/// The standing of each key.
#[derive(Drop)]
pub struct Standings {
    map: HashMap<u32, Standing>,
}

impl Model for Standings {
    ghost use Rattle.std.specs.Prelude.{List, ℕ};
    ghost use Rattle.ix_time.specs.declared.standings.Standing.{Standing};

    ghost Value = { List (ℕ × Standing) };

    ghost view = { λ s. s.map.entries };
}

impl Standings {
    /// No key. It takes no memory yet.
    pub fn new(alloc: Global) -> Standings
        ensures { result ≡ [] }
    {
        Standings {
            map: HashMap::new(alloc),
        }
    }

    /// Puts a key, or replaces its standing, and gives what it was. Only a new key can want memory.
    pub fn insert(&mut self, key: u32, standing: Standing) -> Result<Option<Standing>, NoMemory>
        ensures before { IfOk result (λ before. before ≡ standing_of key self.old) }
        ensures ok { OnOk result ((q : ℕ) → standing_of q self.new ≡ (if key == q then Some standing else standing_of q self.old)) }
        ensures err { OnErr result (self.new ≡ self.old) }
    {
        match self.map.insert(key, standing) {
            Ok(before) => Ok(before),
            Err(_) => Err(NoMemory),
        }
    }

    /// Replaces the standing of a key that is there.
    pub fn replace(&mut self, key: u32, standing: Standing)
        ensures { (q : ℕ) → standing_of q self.new ≡ (if key == q then option_map (λ s. standing) (standing_of q self.old) else standing_of q self.old) }
    {
        if let Some(old) = self.map.get_mut(&key) {
            *old = standing;
        }
    }

    /// Takes a key out, and gives its standing.
    pub fn remove(&mut self, key: u32) -> Option<Standing>
        ensures standing { result ≡ standing_of key self.old }
        ensures rest { (q : ℕ) → standing_of q self.new ≡ (if key == q then None else standing_of q self.old) }
    {
        self.map.remove(&key)
    }
}
