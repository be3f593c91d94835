// What stands on the rings behind the entries of a report.
ghost use Rattle.std.specs.Prelude.{◌≡◌, ◌<◌, ◌≤◌, ◌^◌, count_by, drop, length, slice_get, take};
ghost use Rattle.ix_fits.specs.Behind.{core_by, items_after, table_behind};
ghost use Rattle.ix_fits.specs.Card.{entry_of, is_accepted_on, is_put_on, one_more, posted_in};
ghost use Rattle.ix_reta.specs.Table.{opening_core};

use ix_base::{CoreId, GroupId};
use ix_lines::{EntryLine, Fate, RingLine};

/// The core of a group at the opening.
pub fn opening_core(live: u8, group: GroupId) -> CoreId
    requires { 0 < live }
    ensures { result ≡ opening_core live group.0 }
{
    CoreId((group.0 % 128 % live as u16) as u8)
}

// The core of a group behind an entry.
fn core_by(group: GroupId, core: CoreId, entry: &EntryLine) -> CoreId
    ensures { result.0 ≡ core_by group.0 core.0 entry.now }
{
    match entry {
        EntryLine::Move { group: moved, to } => { if group.0 == moved.0 { *to } else { core } }
        _ => core,
    }
}

/// The core of a group behind these entries.
#[tactic(auto, using(crate::proofs::BehindLaws::for_cores))]
pub fn core_behind(live: u8, done: &[EntryLine], group: GroupId) -> CoreId
    requires { 0 < live }
    ensures { result.0 ≡ (table_behind live done.now group.0).core }
{
    let mut core = opening_core(live, group);
    for entry in done {
        core = core_by(group, core, entry);
    }
    core
}

fn is_accepted_on(ring: usize, entry: &EntryLine) -> bool
    ensures { result ≡ is_accepted_on ring (entry_of entry.now) }
{
    match entry {
        EntryLine::Frame { ring: on, fate, .. } => match fate {
            Fate::Buf(_) => ring == on.0 as usize,
            _ => false,
        },
        _ => false,
    }
}

fn one_more(one: bool, number: usize) -> usize
    requires { number < 2 ^ 63 }
    ensures { result ≡ one_more one number }
{
    if one { number + 1 } else { number }
}

// Whether an entry behind others puts an item on a ring.
fn is_put_on(ring: usize, live: u8, before: &[EntryLine], entry: &EntryLine) -> bool
    requires { 0 < live }
    ensures { result ≡ is_put_on ring (table_behind live before.now) (entry_of entry.now) }
{
    match entry {
        EntryLine::Frame { .. } => is_accepted_on(ring, entry),
        EntryLine::Time { .. } => true,
        EntryLine::Tag { group } => ring == core_behind(live, before, *group).0 as usize,
        EntryLine::Move { group, to } => {
            ring == core_behind(live, before, *group).0 as usize || ring == to.0 as usize
        }
        EntryLine::Settle => false,
    }
}

/// How many of the entries from a place on are frames that a ring accepted.
pub fn accepted_on(ring: usize, done: &[EntryLine], from: usize) -> usize
    requires { from ≤ length done.now }
    ensures { result ≡ count_by (λ l. is_accepted_on ring (entry_of l)) (drop from done.now) }
{
    let since = &done[from..];
    since
        .iter()
        .filter(|entry| is_accepted_on(ring, entry))
        .count()
}

/// How many of the entries from a place on put an item on a ring.
#[tactic(auto, using(crate::proofs::BehindLaws::for_items))]
pub fn put_on(ring: usize, live: u8, done: &[EntryLine], from: usize) -> usize
    requires live { 0 < live }
    requires from { from ≤ length done.now }
    ensures { result ≡ items_after ring (table_behind live (take from done.now)) (drop from done.now) }
{
    let mut items = 0;
    for i in from..done.len() {
        let put = is_put_on(ring, live, &done[..i], &done[i]);
        items = one_more(put, items);
    }
    items
}

/// How many buffers were posted to a ring by the lines of a settle.
pub fn posted_in(ring: usize, rings: &[RingLine]) -> u32
    ensures { result ≡ posted_in (slice_get rings.now ring) }
{
    match rings.get(ring) {
        Some(line) => line.posted,
        None => 0,
    }
}
