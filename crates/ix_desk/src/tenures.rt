// The numbers of the tenures that have arrived.
ghost use Rattle.std.specs.Prelude.{◌≡◌, true};

use ix_base::NoMemory;
use std::alloc::Global;
use std::marker::Model;

/// A list of tenures. Those of a group arrive in rising order, so the greatest is kept beside them: most searches end there.
#[derive(Drop)]
pub struct Tenures {
    numbers: Vec<u32>,
    greatest: u32,
}

impl Model for Tenures {
    ghost use Rattle.std.specs.Prelude.{List, ℕ};
    ghost use Rattle.ix_desk.specs.Tenures.{AtMost};

    ghost Value = { List ℕ };

    ghost view = { λ t. t.numbers.items };

    ghost invariant = { λ t. AtMost t.greatest t.numbers.items };
}

impl Tenures {
    ghost use Rattle.std.specs.Prelude.{◌≡◌, [], ◌∷◌, ◌++◌, OnOk, OnErr};
    ghost use Rattle.ix_desk.specs.Tenures.{has_arrived};

    /// No tenure.
    pub fn new(alloc: Global) -> Tenures
        ensures { result ≡ [] }
    {
        Tenures {
            numbers: Vec::new(alloc),
            greatest: 0,
        }
    }

    /// Whether this tenure is among them.
    pub fn contains(&self, tenure: u32) -> bool
        ensures { result ≡ has_arrived tenure self.now }
    {
        if tenure > self.greatest {
            return false;
        }
        self.numbers.as_slice().contains(&tenure)
    }

    /// Puts one more at the end, or changes nothing for want of memory.
    pub fn add(&mut self, tenure: u32) -> Result<(), NoMemory>
        ensures ok { OnOk result (self.new ≡ self.old ++ tenure ∷ []) }
        ensures err { OnErr result (self.new ≡ self.old) }
    {
        self.numbers.push(tenure)?;
        if tenure > self.greatest {
            self.greatest = tenure;
        }
        Ok(())
    }
}
