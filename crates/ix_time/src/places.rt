// The rule of places: where in the wheel a tick stands, and which places a due call empties.
ghost use Rattle.std.specs.Prelude.{◌≡◌, ◌<◌};
ghost use Rattle.ix_time.specs.Places.{place_in, place_of, empties_in, empties};

/// The levels of a wheel: six for the ticks that differ from its clock in their low 36 bits alone, and five more up to all 64 bits.
pub const LEVELS: u64 = 11;

/// The slots of a level.
pub const SLOTS: u64 = 64;

/// The places of a wheel, level by level from the lowest on.
pub const WHEEL: usize = 704;

/// All places: those of the wheel for the ticks after the clock, and behind them those of the wheel for the others.
pub const PLACES: usize = 1408;

/// The clocks of the two wheels.
#[derive(Clone, Copy)]
pub struct Clock {
    /// The greatest tick of all due calls. What comes after it stands in the first wheel.
    pub latest: u64,
    /// The tick of the last due call. What is at most `latest` stands in the second wheel, which has this clock.
    pub last: u64,
}

/// The place of a tick in a wheel with this clock: on the level of the highest group of six bits in which the two differ, or on the lowest
/// where they are the same, in the slot that these six bits of the tick name.
pub fn place_in(clock: u64, tick: u64) -> usize
    ensures place { result ≡ place_in clock tick }
    ensures within { result < 704 }
{
    let mut first = 0;
    let mut clock_groups = clock;
    let mut tick_groups = tick;
    for _ in 1..LEVELS {
        let slot = (tick_groups % SLOTS) as usize;
        clock_groups /= SLOTS;
        tick_groups /= SLOTS;
        if clock_groups == tick_groups {
            return first + slot;
        }
        first += SLOTS as usize;
    }
    first + (tick_groups % SLOTS) as usize
}

/// The place of a tick.
pub fn place_of(clock: Clock, tick: u64) -> usize
    ensures place { result ≡ place_of clock tick }
    ensures within { result < 1408 }
{
    if tick <= clock.latest {
        return WHEEL + place_in(clock.last, tick);
    }
    place_in(clock.latest, tick)
}

/// Whether a wheel's turn from its clock to `now` empties a place: on the levels below the highest group in which the two differ each one, and
/// from that level on those up to the slot of `now`, and the one where the old clock stands once the clock is `now`.
pub fn empties_in(clock: u64, now: u64, place: usize) -> bool
    ensures { result ≡ empties_in 10 clock now place }
{
    let mut slot = place as u64;
    let mut clock_groups = clock;
    let mut now_groups = now;
    for _ in 1..LEVELS {
        if slot < SLOTS {
            return clock_groups / SLOTS != now_groups / SLOTS
                || slot <= now_groups % SLOTS
                || slot == clock_groups % SLOTS;
        }
        slot -= SLOTS;
        clock_groups /= SLOTS;
        now_groups /= SLOTS;
    }
    slot <= now_groups || slot == clock_groups % SLOTS
}

/// Whether a due call empties a place: of the first wheel where `now` is after its clock, and of the second one each place where `now` is not
/// behind the first one's clock.
pub fn empties(clock: Clock, now: u64, place: usize) -> bool
    ensures { result ≡ empties clock now place }
{
    if place < WHEEL {
        return clock.latest < now && empties_in(clock.latest, now, place);
    }
    clock.latest <= now || empties_in(clock.last, now, place - WHEEL)
}
