// The entries of a report against a wire list, from settle to settle.
ghost use Rattle.std.specs.Prelude.{◌≡◌, ◌+◌, ◌<◌, ◌^◌, drop};
ghost use Rattle.ix_conf.specs.Settings.{settings_of};
ghost use Rattle.ix_fits.specs.Behind.{behind_at, card_of, place_after, rings_of};
ghost use Rattle.ix_fits.specs.Card.{fit_all, fit_entries, fit_rings};
ghost use Rattle.ix_groupdef.specs.Calls.{is_empty};
ghost use Rattle.ix_playdef.specs.Clock.{clock_after};

use crate::card::{CardView, Records};
use ix_conf::Conf;
use ix_lines::{EntryLine, RingLine, SettleLine};
use ix_wire::Entry;

/// Where the last settle stands.
#[derive(Clone, Copy, Debug, PartialEq, Eq)]
pub struct Place {
    /// How many entries stand before it, and the settle itself; 0 for the one before the first entry.
    pub from: usize,
    /// Its place among all settles that are printed.
    pub settle: usize,
}

// The last settle behind the entry with this number.
fn place_after(w: usize, place: Place, line: EntryLine) -> Place
    requires entry { w < 2 ^ 63 }
    requires settle { place.settle < 2 ^ 63 }
    ensures { result ≡ place_after w place line }
{
    match line {
        EntryLine::Settle => Place {
            from: w + 1,
            settle: place.settle + 1,
        },
        _ => place,
    }
}

fn clock_after(clock: u64, entry: Entry) -> u64
    ensures { result ≡ clock_after clock entry }
{
    match entry {
        Entry::Time { t } => t as u64,
        _ => clock,
    }
}

// What the settle with this place tells of the rings.
fn rings_of(settles: &[SettleLine], settle: usize) -> &[RingLine]
    ensures { result.now ≡ rings_of settles.now settle }
{
    match settles.get(settle) {
        Some(line) => line.rings.as_slice(),
        None => &[],
    }
}

// The settles behind the one with this place.
fn settles_behind(settles: &[SettleLine], settle: usize) -> &[SettleLine]
    requires { settle < 2 ^ 63 }
    ensures { result.now ≡ drop (settle + 1) settles.now }
{
    if settle + 1 <= settles.len() {
        &settles[settle + 1..]
    } else {
        &[]
    }
}

fn is_none(settles: &[SettleLine]) -> bool
    ensures { result ≡ is_empty settles.now }
{
    settles.is_empty()
}

// Whether the entries are those of the wire list, with the settles among them, behind the settle before the first.
#[tactic(auto, using(crate::proofs::EntryLaws::for_entries))]
fn fit_entries(
    conf: &Conf,
    records: &Records<'_>,
    wire: &[Entry],
    entries: &[EntryLine],
    settles: &[SettleLine],
) -> bool
    ensures { result ≡ fit_entries (settings_of conf.now) records.now (card_of (behind_at conf.now.live entries.now settles.now 0 (record { from = 0; settle = 0 }))) 0 wire.now entries.now (drop 1 settles.now) }
{
    if wire.len() != entries.len() {
        return false;
    }
    let mut clock = 0;
    let mut place = Place { from: 0, settle: 0 };
    for w in 0..wire.len() {
        let card = CardView {
            live: conf.live,
            done: &entries[..w],
            from: place.from,
            rings: rings_of(settles, place.settle),
        };
        let behind = settles_behind(settles, place.settle);
        clock = clock_after(clock, wire[w]);
        if !card.fits_here(conf, records, clock, wire[w], entries[w], behind) {
            return false;
        }
        place = place_after(w, place, entries[w]);
    }
    is_none(settles_behind(settles, place.settle))
}

fn opening_fits(conf: &Conf, entries: &[EntryLine], settles: &[SettleLine]) -> bool
    ensures { result ≡ fit_rings (card_of (behind_at conf.now.live entries.now settles.now 0 (record { from = 0; settle = 0 }))) (rings_of settles.now 0) }
{
    let rings = rings_of(settles, 0);
    let card = CardView {
        live: conf.live,
        done: &entries[..0],
        from: 0,
        rings,
    };
    card.fit_rings(rings)
}

/// Whether the entries of a report are those of the wire list, each frame with its verdict, and its settles count what was put on the rings.
#[tactic(auto, using(crate::proofs::DecidedLaws::for_all))]
pub fn fit_all(
    conf: &Conf,
    records: &Records<'_>,
    wire: &[Entry],
    entries: &[EntryLine],
    settles: &[SettleLine],
) -> bool
    ensures { result ≡ fit_all (settings_of conf.now) records.now wire.now entries.now settles.now }
{
    if settles.len() == 0 {
        return false;
    }
    opening_fits(conf, entries, settles) && fit_entries(conf, records, wire, entries, settles)
}
