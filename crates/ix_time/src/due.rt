// What a due call gives and moves: read first, and kept in memory taken for it, so that nothing is changed before.
ghost use Rattle.std.specs.Prelude.{◌≡◌, ◌≤◌, [], ℕ, length, map, filter, slice_index_or, IfOk, if◌then◌else◌};
ghost use Rattle.ix_time.specs.Places.{stands_at, empties};
ghost use Rattle.ix_time.specs.Entries.{is_later};
ghost use Rattle.ix_time.specs.Standings.{standing_of};
ghost use Rattle.ix_time.specs.Due.{GivesDue, due_of, emptied, renumbered, renumbered_from, without_keys};

use crate::places::{Clock, PLACES, empties, place_of};
use crate::slots::Slot;
use crate::standings::{Standing, Standings};
use crate::wheel::{empty_places, put_at};
use ix_base::NoMemory;
use std::alloc::Global;

/// The entries of the places that a due call empties.
pub fn emptied(
    alloc: Global,
    places: &[Slot],
    clock: Clock,
    now: u64,
) -> Result<Vec<(u32, u64)>, NoMemory>
    ensures { IfOk result (λ entries. entries.items ≡ emptied clock now 0 places.now) }
{
    let mut entries = Vec::new(alloc);
    for (place, slot) in places.iter().enumerate() {
        if !slot.is_empty() && empties(clock, now, place) {
            entries.extend_from_slice(slot.entries())?;
        }
    }
    Ok(entries)
}

/// Those entries that are due, as ticks and keys.
fn due_entries(alloc: Global, entries: &[(u32, u64)], now: u64) -> Result<Vec<(u64, u32)>, NoMemory>
    ensures { IfOk result (λ due. due.items ≡ due_of now entries.now) }
{
    let due = entries
        .iter()
        .filter(|(_, tick)| *tick <= now)
        .map(|(key, tick)| (*tick, *key))
        .collect(alloc)?;
    Ok(due)
}

/// The keys alone.
fn keys_of(alloc: Global, due: &[(u64, u32)]) -> Result<Vec<u32>, NoMemory>
    ensures { IfOk result (λ keys. keys.items ≡ map (λ d. d.1) due.now) }
{
    let keys = due.iter().map(|(_, key)| *key).collect(alloc)?;
    Ok(keys)
}

/// The keys of those entries that are due, in order of tick, and of key within a tick.
pub fn due_keys(alloc: Global, entries: &[(u32, u64)], now: u64) -> Result<Vec<u32>, NoMemory>
    ensures { IfOk result (λ keys. GivesDue now entries.now keys.items) }
{
    let mut due = due_entries(alloc, entries, now)?;
    due.sort_unstable();
    keys_of(alloc, due.as_slice())
}

/// The entries later than `now`, at their places once the clock is `next`.
pub fn moved(
    alloc: Global,
    entries: &[(u32, u64)],
    now: u64,
    next: Clock,
) -> Result<Vec<Slot>, NoMemory>
    ensures places { IfOk result (λ places. (p : ℕ) → slice_index_or places.items p [] ≡ filter (stands_at next p) (filter (is_later now) entries.now)) }
    ensures len { IfOk result (λ places. length places.items ≡ 1408) }
{
    let mut places = empty_places(alloc, PLACES)?;
    for (key, tick) in entries {
        if *tick > now {
            put_at(&mut places, place_of(next, *tick), *key, *tick)?;
        }
    }
    Ok(places)
}

/// Takes the keys out.
pub fn take_keys(standings: &mut Standings, keys: &[u32])
    ensures { (q : ℕ) → standing_of q standings.new ≡ without_keys q keys.now (standing_of q standings.old) }
{
    for key in keys {
        standings.remove(*key);
    }
}

/// Gives each key of these places the index that it has there.
pub fn renumber(standings: &mut Standings, places: &[Slot])
    ensures { (q : ℕ) → standing_of q standings.new ≡ renumbered q places.now (standing_of q standings.old) }
{
    for slot in places {
        renumber_slot(standings, slot.entries());
    }
}

fn renumber_slot(standings: &mut Standings, entries: &[(u32, u64)])
    ensures { (q : ℕ) → standing_of q standings.new ≡ renumbered_from q 0 entries.now (standing_of q standings.old) }
{
    for (index, (key, tick)) in entries.iter().enumerate() {
        let tick = *tick;
        standings.replace(*key, Standing { tick, index });
    }
}

/// Puts new places in the place of those that a due call empties.
pub fn replace_emptied(places: &mut Vec<Slot>, mut new: Vec<Slot>, clock: Clock, now: u64)
    requires { length new.items ≡ length places.old.items }
    ensures places { (p : ℕ) → slice_index_or places.new.items p [] ≡ (if empties clock now p then slice_index_or new.items p [] else slice_index_or places.old.items p []) }
    ensures len { length places.new.items ≡ length places.old.items }
{
    while let Some(slot) = new.pop() {
        let place = new.len();
        if slot.is_empty() && places[place].is_empty() {
            continue;
        }
        if empties(clock, now, place) {
            places[place] = slot;
        }
    }
}
