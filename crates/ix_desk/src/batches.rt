// Work: a desk's items go to its unit in batches.
ghost use Rattle.std.specs.Prelude.{◌≡◌, true, false};

use crate::desk::Desk;
use crate::unit::Unit;
use ix_base::{CoreId, NoMemory};
use std::alloc::Global;

impl<U: Unit> Desk<U, U::Item> {
    ghost use Rattle.std.specs.Prelude.{◌≡◌, ◌-◌, ◌++◌, ◌∷◌, [], count_by, OnOk, OnErr, IfOk, MatchOption};
    ghost use Rattle.ix_desk.specs.Pieces.{ready, is_nil};
    ghost use Rattle.ix_desk.specs.Steps.{up_to, piece_leaves, PieceWorked};
    ghost use Rattle.ix_desk.specs.Failures.{PieceFailed};

    /// Steps items that are ready, where the unit is here, until a budget of items that count is used up or none is left. Answers what is
    /// left of the budget. After a step that found no memory its items are gone.
    pub fn work(
        &mut self,
        alloc: Global,
        env: &U::Env,
        core: CoreId,
        budget: usize,
    ) -> Result<usize, NoMemory>
        ensures worked { OnOk result (PieceWorked U.counted U.name U.stepped U.advanced env.now core.0 budget self.old self.new) }
        ensures left { IfOk result (λ left. left ≡ piece_leaves U.counted budget self.old) }
        ensures failed { OnErr result (PieceFailed U.counted budget self.old self.new) }
    {
        if budget == 0 || self.unit.is_none() {
            return Ok(budget);
        }
        let (batch, left) = self.batch(alloc, budget)?;
        if batch.is_empty() {
            return Ok(left);
        }
        if let Some(unit) = &mut self.unit {
            unit.step(env, core, batch)?;
        }
        Ok(left)
    }

    // Takes out the items that are to be stepped. Memory for them is taken first.
    fn batch(&mut self, alloc: Global, budget: usize) -> Result<(Vec<U::Item>, usize), NoMemory>
        ensures same { (self.new.tenure ≡ self.old.tenure) × (self.new.tagged ≡ self.old.tagged) × (self.new.unit ≡ self.old.unit) × (self.new.behind ≡ self.old.behind) }
        ensures waited { IfOk result (λ r. ready self.old ≡ r.0.items ++ ready self.new) }
        ensures batch { IfOk result (λ r. r.0.items ≡ up_to U.counted budget (ready self.old)) }
        ensures left { IfOk result (λ r. r.1 ≡ budget - count_by U.counted r.0.items) }
        ensures err { OnErr result ((self.new ≡ self.old) × (is_nil (ready self.old) ≡ false)) }
    {
        let room = self
            .remote
            .len()
            .checked_add(self.local.len())
            .ok_or(NoMemory)?;
        let mut batch = Vec::with_capacity(alloc, room)?;
        let mut left = budget;
        while left > 0 {
            let Some(item) = self.next_item() else {
                break;
            };
            if U::counts(&item) {
                left -= 1;
            }
            batch.push_reserved(item);
        }
        Ok((batch, left))
    }

    // Takes the first item that is ready.
    fn next_item(&mut self) -> Option<U::Item>
        ensures same { (self.new.tenure ≡ self.old.tenure) × (self.new.tagged ≡ self.old.tagged) × (self.new.unit ≡ self.old.unit) × (self.new.behind ≡ self.old.behind) }
        ensures item { MatchOption result ((ready self.old ≡ []) × (ready self.new ≡ [])) (λ x. ready self.old ≡ x ∷ ready self.new) }
    {
        if let Some(item) = self.remote.pop_front() {
            return Some(item);
        }
        self.local.pop_front()
    }
}
