// The records of a capture that make entries.

use ix_base::NoMemory;
use std::alloc::Global;
use std::marker::Model;

/// The records of a capture, of which those of the local side itself make no entry. A contract sees for each record whether it is such a
/// one.
#[derive(Drop)]
pub struct Records<'a> {
    own: &'a [bool],
    /// The numbers of the others, rising.
    others: Vec<usize>,
    /// For each record, and for the end, how many of the others stand before it.
    before: Vec<usize>,
}

impl<'a> Model for Records<'a> {
    ghost use Rattle.std.specs.Prelude.{Bool, List};
    ghost use Rattle.ix_wire.specs.Records.{AreOthers};

    ghost Value = { List Bool };

    ghost view = { λ r. r.own.now };

    ghost invariant = { λ r. AreOthers r.own.now r.others.items r.before.items };
}

impl<'a> Records<'a> {
    ghost use Rattle.std.specs.Prelude.{◌≡◌, ◌<◌, ◌≤◌, All, IfOk, length};
    ghost use Rattle.ix_wire.specs.Records.{records_in};

    /// Looks at each record once.
    pub fn new(alloc: Global, own: &'a [bool]) -> Result<Records<'a>, NoMemory>
        ensures { IfOk result (λ r. r ≡ own.now) }
    {
        let mut others = Vec::new(alloc);
        let mut before = Vec::new(alloc);
        for (rec, is_own) in own.iter().enumerate() {
            before.push(others.len())?;
            if !*is_own {
                others.push(rec)?;
            }
        }
        before.push(others.len())?;
        Ok(Records {
            own,
            others,
            before,
        })
    }

    /// The number of records.
    pub fn len(&self) -> usize
        ensures { result ≡ length self.now }
    {
        self.own.len()
    }

    /// The records from one to another that make entries.
    pub fn between(&self, from: u32, to: u32) -> &[usize]
        requires order { from ≤ to }
        requires within { to < length self.now }
        ensures records { result.now ≡ records_in self.now from to }
        ensures bound { All (λ rec. rec ≤ to) result.now }
    {
        let start = self.before[from as usize];
        let end = self.before[to as usize + 1];
        &self.others[start..end]
    }
}
