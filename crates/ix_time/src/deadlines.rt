// The map, and the wheel that holds it.
ghost use Rattle.std.specs.Prelude.{◌≡◌, ◌==◌, [], ℕ, filter, count_by, IfOk, OnOk, OnErr, if◌then◌else◌};
ghost use Rattle.ix_time.specs.Entries.{tick_of, put, without, is_later, later_tick, is_reached};
ghost use Rattle.ix_time.specs.Due.{GivesDue};

use crate::due::{due_keys, emptied, moved, renumber, replace_emptied, take_keys};
use crate::places::{Clock, place_of};
use crate::slots::Slot;
use crate::standings::{Standing, Standings};
use crate::wheel::{make_places, put_at, take_last, take_out};
use ix_base::NoMemory;
use std::alloc::Global;
use std::marker::Model;

/// A finite map from keys to ticks, which are kept in a hierarchical wheel: each deadline stands at the place that the clock and its tick name. The
/// clock begins at 0 and is the greatest tick to which `due` has brought it.
///
/// `set` and `clear` take a constant number of steps, as std's hash map counts them. `due` looks at each place of the wheel, and else takes a step for
/// each deadline that it gives or moves; only the keys that it gives are sorted.
#[derive(Drop)]
pub struct Deadlines {
    alloc: Global,
    clock: Clock,
    standings: Standings,
    places: Vec<Slot>,
}

impl Model for Deadlines {
    ghost use Rattle.std.specs.Prelude.{List, ℕ};
    ghost use Rattle.ix_time.specs.Standings.{in_order};
    ghost use Rattle.ix_time.specs.Wheel.{KeepsPlaces};

    ghost Value = { List (ℕ × ℕ) };

    ghost view = { λ d. in_order d.standings };

    ghost invariant = { λ d. KeepsPlaces d.clock d.standings d.places.items };
}

impl Deadlines {
    /// No deadline, at clock 0. It takes no memory yet.
    pub fn new(alloc: Global) -> Deadlines
        ensures { result ≡ [] }
    {
        Deadlines {
            alloc,
            clock: Clock { latest: 0, last: 0 },
            standings: Standings::new(alloc),
            places: Vec::new(alloc),
        }
    }

    /// Puts a key with its tick, in the place of the tick that it had. After `NoMemory` the map is as before.
    pub fn set(&mut self, key: u32, at: u64) -> Result<(), NoMemory>
        ensures ok { OnOk result (self.new ≡ put key at self.old) }
        ensures ticks { OnOk result ((q : ℕ) → tick_of q self.new ≡ (if q == key then Some at else tick_of q self.old)) }
        ensures err { OnErr result (self.new ≡ self.old) }
    {
        make_places(self.alloc, &mut self.places)?;
        let place = place_of(self.clock, at);
        let index = put_at(&mut self.places, place, key, at)?;
        match self.standings.insert(key, Standing { tick: at, index }) {
            Ok(None) => Ok(()),
            Ok(Some(old)) => {
                let old_place = place_of(self.clock, old.tick);
                take_out(&mut self.standings, &mut self.places, old_place, old.index);
                Ok(())
            }
            Err(failed) => {
                take_last(&mut self.places, place);
                Err(failed)
            }
        }
    }

    /// Takes a key out, where it is there. It takes no memory.
    pub fn clear(&mut self, key: u32)
        ensures entries { self.new ≡ without key self.old }
        ensures ticks { (q : ℕ) → tick_of q self.new ≡ (if q == key then None else tick_of q self.old) }
    {
        if let Some(old) = self.standings.remove(key) {
            let place = place_of(self.clock, old.tick);
            take_out(&mut self.standings, &mut self.places, place, old.index);
        }
    }

    /// Takes out exactly the keys whose tick is at most `now`, and gives them in order of tick, and of key within a tick. After `NoMemory` the map is as
    /// before, and so is the clock.
    pub fn due(&mut self, now: u64) -> Result<Vec<u32>, NoMemory>
        ensures given { IfOk result (λ keys. GivesDue now self.old keys.items) }
        ensures times { IfOk result (λ keys. (q : ℕ) → count_by (λ k. k == q) keys.items ≡ (if is_reached now (tick_of q self.old) then 1 else 0)) }
        ensures ok { OnOk result (self.new ≡ filter (is_later now) self.old) }
        ensures ticks { OnOk result ((q : ℕ) → tick_of q self.new ≡ later_tick now (tick_of q self.old)) }
        ensures err { OnErr result (self.new ≡ self.old) }
    {
        let latest = self.clock.latest.max(now);
        let next = Clock { latest, last: now };
        let entries = emptied(self.alloc, self.places.as_slice(), self.clock, now)?;
        if entries.is_empty() {
            self.clock = next;
            return Ok(Vec::new(self.alloc));
        }
        let keys = due_keys(self.alloc, entries.as_slice(), now)?;
        let new = moved(self.alloc, entries.as_slice(), now, next)?;
        take_keys(&mut self.standings, keys.as_slice());
        renumber(&mut self.standings, new.as_slice());
        replace_emptied(&mut self.places, new, self.clock, now);
        self.clock = next;
        Ok(keys)
    }
}
