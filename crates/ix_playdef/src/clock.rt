// The clocks of the entries of a wire list.
ghost use Rattle.std.specs.Prelude.{◌≡◌, ℕ, ◌<◌, ◌^◌, All, IfOk, length, slice_index};
ghost use Rattle.ix_playdef.specs.Clock.{clock_after, clock_of};

use ix_base::NoMemory;
use ix_wire::Entry;
use std::alloc::Global;

fn clock_after(clock: u64, entry: Entry) -> u64
    requires { clock < 2 ^ 32 }
    ensures after { result ≡ clock_after clock entry }
    ensures below { result < 2 ^ 32 }
{
    match entry {
        Entry::Time { t } => t as u64,
        _ => clock,
    }
}

/// The clock of each entry in ticks: what the last time at or before it sets, or 0 where there is none.
#[tactic(auto, using(crate::proofs::Loops::for_clocks))]
pub fn clocks_of(alloc: Global, entries: &[Entry]) -> Result<Vec<u64>, NoMemory>
    ensures count { IfOk result (λ clocks. length clocks.items ≡ length entries.now) }
    ensures each { IfOk result (λ clocks. (w : ℕ) → w < length entries.now → slice_index clocks.items w ≡ clock_of entries.now w) }
    ensures below { IfOk result (λ clocks. All (λ (clock : ℕ). clock < 2 ^ 32) clocks.items) }
{
    let mut clock = 0;
    let mut clocks = Vec::with_capacity(alloc, entries.len())?;
    for entry in entries {
        clock = clock_after(clock, *entry);
        clocks.push(clock)?;
    }
    Ok(clocks)
}
