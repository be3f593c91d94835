// The cores of all places while a plan is made, with how many places each core has.
ghost use Rattle.std.specs.Prelude.{◌≡◌, ◌<◌, ◌≤◌, ◌+◌, ℕ, length, slice_index};
ghost use Rattle.ix_cp.specs.Plan.{Counts, one_on};

use crate::plan::PlanMove;
use ix_base::{CoreId, GroupId, NoMemory};
use std::alloc::Global;
use std::marker::Model;

/// The core of each place, of which there are at most 512. A contract sees it as the list of these cores.
#[derive(Drop)]
pub struct Places {
    at: Vec<CoreId>,
    counts: [u16; 8],
}

impl Model for Places {
    ghost use Rattle.std.specs.Prelude.{◌≤◌, List, length};
    ghost use Rattle.ix_base.specs.declared.id.CoreId.{CoreId};

    ghost Value = { List CoreId };

    ghost use Rattle.ix_cp.specs.Plan.{Counts};

    ghost view = { λ p. p.at.items };

    ghost invariant = { λ p. (length p.at.items ≤ 512) × Counts p.at.items p.counts };
}

impl Places {
    ghost use Rattle.std.specs.Prelude.{◌≡◌, ◌<◌, ◌≤◌, IfOk, IfSome, length, slice_set};
    ghost use Rattle.ix_cp.specs.Plan.{busiest, count_on, due, emptier, fuller, idlest, lowest_on};

    pub fn new(alloc: Global, at: &[CoreId]) -> Result<Places, NoMemory>
        requires { length at.now ≤ 512 }
        ensures { IfOk result (λ p. p ≡ at.now) }
    {
        let counts = counts_of(at);
        Ok(Places {
            at: Vec::from_slice(alloc, at)?,
            counts,
        })
    }

    #[tactic(auto, using(crate::proofs::PlanLaws::count_on_bound))]
    fn count_on(&self, core: u8) -> u16
        requires { core < 8 }
        ensures count { result ≡ count_on self.now core }
        ensures bound { result ≤ 512 }
    {
        self.counts[core as usize]
    }

    /// The lowest place of a core.
    #[tactic(auto, unfolding(crate::specs::Plan::lowest_on))]
    fn lowest_on(&self, core: u8) -> Option<usize>
        ensures place { result ≡ lowest_on self.now core }
        ensures within { IfSome result (λ place. place < length self.now) }
        ensures bound { length self.now ≤ 512 }
    {
        self.at.iter().position(|place| place.0 == core)
    }

    fn fuller(&self, best: Option<u8>, core: u8) -> Option<u8>
        requires best { IfSome best (λ b. b < 8) }
        requires core { core < 8 }
        ensures core { result ≡ fuller self.now best core }
        ensures bound { IfSome result (λ b. b < 8) }
    {
        match best {
            Some(best) if self.count_on(best) >= self.count_on(core) => Some(best),
            _ => Some(core),
        }
    }

    fn emptier(&self, best: Option<u8>, core: u8) -> Option<u8>
        requires best { IfSome best (λ b. b < 8) }
        requires core { core < 8 }
        ensures core { result ≡ emptier self.now best core }
        ensures bound { IfSome result (λ b. b < 8) }
    {
        match best {
            Some(best) if self.count_on(best) <= self.count_on(core) => Some(best),
            _ => Some(core),
        }
    }

    /// The live core with the most places, the lowest at a tie.
    #[tactic(auto, using(crate::proofs::PlanLaws::busiest_steps))]
    fn busiest(&self, live: &[bool; 8]) -> Option<u8>
        ensures core { result ≡ busiest self.now live.now 8 }
        ensures bound { IfSome result (λ core. core < 8) }
    {
        let mut best: Option<u8> = None;
        for core in 0..8u8 {
            if live[core as usize] {
                best = self.fuller(best, core);
            }
        }
        best
    }

    /// The live core with the fewest places, the lowest at a tie.
    #[tactic(auto, using(crate::proofs::PlanLaws::idlest_steps))]
    pub fn idlest(&self, live: &[bool; 8]) -> Option<u8>
        ensures core { result ≡ idlest self.now live.now 8 }
        ensures bound { IfSome result (λ core. core < 8) }
    {
        let mut best: Option<u8> = None;
        for core in 0..8u8 {
            if live[core as usize] {
                best = self.emptier(best, core);
            }
        }
        best
    }

    /// The next move of a plan that evens out the live cores, or nothing where none has two places more than another.
    #[tactic(auto, unfolding(crate::specs::Plan::due))]
    pub fn due(&self, live: &[bool; 8]) -> Option<PlanMove>
        ensures due { result ≡ due live.now self.now }
        ensures group { IfSome result (λ m. m.group.0 < length self.now) }
        ensures to { IfSome result (λ m. m.to.0 < 8) }
    {
        let from = self.busiest(live)?;
        let to = self.idlest(live)?;
        if self.count_on(from) < self.count_on(to) + 2 {
            return None;
        }
        let place = self.lowest_on(from)?;
        Some(PlanMove {
            group: GroupId(place as u16),
            to: CoreId(to),
        })
    }

    /// Puts a place on another core.
    #[tactic(auto, using(crate::proofs::PlanLaws::put_steps))]
    pub fn put(&mut self, place: usize, to: CoreId)
        requires place { place < length self.old }
        requires to { to.0 < 8 }
        ensures { self.new ≡ slice_set self.old place to }
    {
        let from = self.at[place];
        leave(&mut self.counts, from);
        enter(&mut self.counts, to);
        self.at[place] = to;
    }
}

// Counts one place more of a core, if it is one of the eight.
fn enter(counts: &mut [u16; 8], core: CoreId)
    requires { (i : ℕ) → i < 8 → slice_index counts.old i ≤ 512 }
    ensures { (i : ℕ) → i < 8 → slice_index counts.new i ≡ slice_index counts.old i + one_on core i }
{
    if core.0 < 8 {
        counts[core.0 as usize] += 1;
    }
}

// Counts one place less of a core, if it is one of the eight.
fn leave(counts: &mut [u16; 8], core: CoreId)
    requires { (i : ℕ) → i < 8 → one_on core i ≤ slice_index counts.old i }
    ensures { (i : ℕ) → i < 8 → slice_index counts.new i + one_on core i ≡ slice_index counts.old i }
{
    if core.0 < 8 {
        counts[core.0 as usize] -= 1;
    }
}

// How many places each core has.
#[tactic(auto, using(crate::proofs::PlanLaws::counts_steps))]
fn counts_of(at: &[CoreId]) -> [u16; 8]
    requires { length at.now ≤ 512 }
    ensures { Counts at.now result }
{
    let mut counts = [0; 8];
    for core in at {
        enter(&mut counts, *core);
    }
    counts
}
