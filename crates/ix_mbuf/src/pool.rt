// The buffers of one core.
ghost use Rattle.std.specs.Prelude.{◌≡◌, ◌≢◌, ◌≤◌, ◌+◌, ◌==◌, ◌&&◌, ◌++◌, [], ◌∷◌, ℕ, nat_lt, length, IfOk, MatchOption, true, if◌then◌else◌};
ghost use Rattle.ix_base.specs.declared.id.BufId.{BufId};
ghost use Rattle.ix_mbuf.specs.Owners.{times, at_home};
ghost use Rattle.ix_mbuf.specs.Pools.{Stock, is_out_of, all_names};

use crate::mbuf::Mbuf;
use ix_base::{BufId, CoreId, NoMemory};
use std::alloc::Global;
use std::marker::Model;

/// The buffers of one core: those that are free stand in a list, and each slot has a flag that is up while its buffer is given out.
#[derive(Drop)]
pub struct Pool {
    home: CoreId,
    free: Vec<Mbuf>,
    out: Vec<bool>,
}

impl Model for Pool {
    ghost use Rattle.std.specs.Prelude.{length, vec_capacity};
    ghost use Rattle.ix_mbuf.specs.Buffers.{names_of};
    ghost use Rattle.ix_mbuf.specs.Pools.{Stock, FreeAndOut};

    ghost Value = { Stock };

    ghost view = { λ p. record { home = p.home; n = length p.out.items; free = names_of p.free.items } };

    ghost invariant = { λ p. FreeAndOut p.home p.out.items (names_of p.free.items) (vec_capacity p.free) };
}

impl Pool {
    /// A pool of n buffers of 2,048 bytes with slots 0 to n - 1, all free. Their memory is taken at once.
    pub fn new(alloc: Global, home: CoreId, n: u32) -> Result<Pool, NoMemory>
        ensures all { IfOk result (λ p. p ≡ record { home = home; n = n; free = all_names home n }) }
        ensures each { IfOk result (λ p. (id : BufId) → times id p.free ≡ (if id.home.0 == home.0 && nat_lt id.slot n then 1 else 0)) }
        ensures homes { IfOk result (λ p. (core : ℕ) → at_home core p.free ≡ (if home.0 == core then n else 0)) }
    {
        let count = n as usize;
        let mut free = Vec::with_capacity(alloc, count)?;
        let mut out = Vec::with_capacity(alloc, count)?;
        for slot in 0..n {
            let buf = Mbuf::new(alloc, BufId { home, slot })?;
            free.push_reserved(buf);
            out.push_reserved(false);
        }
        Ok(Pool { home, free, out })
    }

    /// The core whose buffers these are.
    pub fn home(&self) -> CoreId
        ensures { result ≡ self.now.home }
    {
        self.home
    }

    /// The number of free buffers.
    pub fn free(&self) -> u32
        ensures count { result ≡ length self.now.free }
        ensures bound { length self.now.free ≤ self.now.n }
        ensures homes { at_home self.now.home.0 self.now.free ≡ result }
        ensures foreign { (core : ℕ) → core ≢ self.now.home.0 → at_home core self.now.free ≡ 0 }
        ensures together { (id : BufId) → times id self.now.free + (if is_out_of self.now id then 1 else 0) ≡ times id (all_names self.now.home self.now.n) }
        ensures elsewhere { (id : BufId) → times id self.now.free + 1 ≤ times id (all_names self.now.home self.now.n) → is_out_of self.now id ≡ true }
    {
        let _home = self.home;
        self.free.len() as u32
    }

    /// Whether this is a buffer of this pool that is given out: its home is this core, its slot is below n, and it isn't free.
    pub fn is_out(&self, id: BufId) -> bool
        ensures { result ≡ is_out_of self.now id }
    {
        let slot = id.slot as usize;
        id.home == self.home && slot < self.out.len() && self.out[slot]
    }

    /// A free buffer, or none exactly where none is free. It takes no memory.
    pub fn take(&mut self) -> Option<Mbuf>
        ensures { MatchOption result ((self.old.free ≡ []) × (self.new ≡ self.old)) (λ b. (self.old.free ≡ self.new.free ++ b.name ∷ []) × (self.new ≡ record self.old { free = self.new.free })) }
    {
        let Some(buf) = self.free.pop() else {
            return None;
        };
        let slot = buf.id().slot as usize;
        self.out[slot] = true;
        Some(buf)
    }

    /// Takes back a buffer of this pool that is given out. It takes no memory.
    pub fn give(&mut self, buf: Mbuf)
        requires { is_out_of self.old buf.name.id ≡ true }
        ensures { self.new ≡ record self.old { free = self.old.free ++ buf.name ∷ [] } }
    {
        let slot = buf.id().slot as usize;
        self.out[slot] = false;
        self.free.push_reserved(buf);
    }
}
