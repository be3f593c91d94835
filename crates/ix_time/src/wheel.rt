// The places of the wheel as a list, and the change of one of them.
ghost use Rattle.std.specs.Prelude.{◌≡◌, ◌<◌, ◌-◌, ◌++◌, ◌∷◌, [], ℕ, length, take, slice_set, slice_index_or, replicate, IfOk, OnOk, OnErr, ◌⊎◌};
ghost use Rattle.ix_time.specs.Slots.{entry_at, taken_at};
ghost use Rattle.ix_time.specs.Standings.{tick_in};
ghost use Rattle.ix_time.specs.Wheel.{KeepsPlaces, IsLoose};
ghost use Rattle.ix_time.specs.declared.places.Clock.{Clock};

use crate::places::PLACES;
use crate::slots::Slot;
use crate::standings::{Standing, Standings};
use ix_base::NoMemory;
use std::alloc::Global;

/// So many places with nothing in them.
pub fn empty_places(alloc: Global, count: usize) -> Result<Vec<Slot>, NoMemory>
    ensures { IfOk result (λ places. places.items ≡ replicate count []) }
{
    let mut places = Vec::with_capacity(alloc, count)?;
    for _ in 0..count {
        places.push_reserved(Slot::new(alloc));
    }
    Ok(places)
}

/// Makes the places, where they aren't there yet.
pub fn make_places(alloc: Global, places: &mut Vec<Slot>) -> Result<(), NoMemory>
    requires { (length places.old.items ≡ 1408) ⊎ (places.old.items ≡ []) }
    ensures len { OnOk result (length places.new.items ≡ 1408) }
    ensures same { (p : ℕ) → slice_index_or places.new.items p [] ≡ slice_index_or places.old.items p [] }
    ensures err { OnErr result (places.new.items ≡ places.old.items) }
{
    if places.is_empty() {
        *places = empty_places(alloc, PLACES)?;
    }
    Ok(())
}

/// Puts an entry into a place, and gives its index there.
pub fn put_at(places: &mut Vec<Slot>, place: usize, key: u32, tick: u64) -> Result<usize, NoMemory>
    requires { place < length places.old.items }
    ensures ok { OnOk result (places.new.items ≡ slice_set places.old.items place (slice_index_or places.old.items place [] ++ (key, tick) ∷ [])) }
    ensures index { IfOk result (λ index. index ≡ length (slice_index_or places.old.items place [])) }
    ensures err { OnErr result (places.new.items ≡ places.old.items) }
{
    let slot = &mut places[place];
    let index = slot.len();
    slot.push(key, tick)?;
    Ok(index)
}

/// Takes the last entry of a place away.
pub fn take_last(places: &mut Vec<Slot>, place: usize)
    requires { place < length places.old.items }
    ensures { places.new.items ≡ slice_set places.old.items place (take (length (slice_index_or places.old.items place []) - 1) (slice_index_or places.old.items place [])) }
{
    let slot = &mut places[place];
    slot.pop();
}

/// Takes the entry at an index of a place away. The last entry of that place takes its index, and its key's standing says so.
pub fn take_out(standings: &mut Standings, places: &mut Vec<Slot>, place: usize, index: usize)
    requires place { place < length places.old.items }
    requires index { index < length (slice_index_or places.old.items place []) }
    ensures kept { (clock : Clock) → IsLoose clock standings.old places.old.items place index → KeepsPlaces clock standings.new places.new.items }
    ensures ticks { (clock : Clock) → IsLoose clock standings.old places.old.items place index → (q : ℕ) → tick_in q standings.new ≡ tick_in q standings.old }
{
    if let Some((key, tick)) = swap_out(places, place, index) {
        standings.replace(key, Standing { tick, index });
    }
}

fn swap_out(places: &mut Vec<Slot>, place: usize, index: usize) -> Option<(u32, u64)>
    requires place { place < length places.old.items }
    requires index { index < length (slice_index_or places.old.items place []) }
    ensures rest { (p i : ℕ) → entry_at places.new.items p i ≡ taken_at places.old.items place index p i }
    ensures there { result ≡ taken_at places.old.items place index place index }
    ensures len { length places.new.items ≡ length places.old.items }
{
    let slot = &mut places[place];
    slot.swap_remove(index)
}
