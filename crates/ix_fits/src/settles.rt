// The numbers of a settle, and the frames that were dropped.
ghost use Rattle.std.specs.Prelude.{◌≡◌, ◌&&◌, ◌==◌};
ghost use Rattle.std.specs.List.{list_all, zip};
ghost use Rattle.ix_fits.specs.Card.{adds_up, is_dropped, is_whole};
ghost use Rattle.ix_lines.specs.declared.types.HomeLine.{HomeLine as AHome};
ghost use Rattle.ix_lines.specs.declared.types.RingLine.{RingLine as ARing};

use crate::card::RING_PLACES;
use ix_lines::{EntryLine, Fate, HomeLine, RingLine, SettleLine};

// Whether the numbers of a home add up, with the buffers that are posted.
fn adds_up(buffers: u32, ring: &RingLine, home: &HomeLine) -> bool
    ensures { result ≡ adds_up buffers ring.now home.now }
{
    let out = home.desk as u64 + home.held as u64 + home.app as u64 + home.queue as u64;
    let all = home.pool as u64 + home.posted as u64 + out;
    let left = (buffers as u64).saturating_sub(out);
    (all == buffers as u64 && home.posted as u64 == left.min(RING_PLACES as u64))
        && ring.posted == home.posted
}

/// Whether a frame was dropped.
pub fn is_dropped(entry: &EntryLine) -> bool
    ensures { result ≡ is_dropped entry.now }
{
    match entry {
        EntryLine::Frame { fate, .. } => !matches!(fate, Fate::Buf(_)),
        _ => false,
    }
}

fn are_as_many(cores: u8, rings: usize, homes: usize) -> bool
    ensures { result ≡ (rings == cores && homes == cores) }
{
    rings == cores as usize && homes == cores as usize
}

fn all_add_up(buffers: u32, rings: &[RingLine], homes: &[HomeLine]) -> bool
    ensures { result ≡ list_all (λ (p : ARing × AHome). adds_up buffers p.0 p.1) (zip rings.now homes.now) }
{
    rings
        .iter()
        .zip(homes.iter())
        .all(|(ring, home)| adds_up(buffers, ring, home))
}

/// Whether a settle has a ring and a home for each core, and the numbers of each home add up.
pub fn is_whole(cores: u8, buffers: u32, settle: &SettleLine) -> bool
    ensures { result ≡ is_whole cores buffers settle.now }
{
    let rings = settle.rings.as_slice();
    let homes = settle.homes.as_slice();
    are_as_many(cores, rings.len(), homes.len()) && all_add_up(buffers, rings, homes)
}
