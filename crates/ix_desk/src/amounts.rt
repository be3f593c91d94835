// What waits, as one number.
ghost use Rattle.std.specs.Prelude.{◌≡◌, ◌-◌, ◌^◌, min, sum_by};
ghost use Rattle.ix_desk.specs.Pieces.{joined, piece_waits};
ghost use Rattle.ix_desk.specs.Groups.{cut_waits, current_waits, early_waits, waits};

use crate::desk::Desk;
use crate::group::{CutDesk, Early, GroupDesks};
use std::collections::VecDeque;

/// A number for each item, as its length or whether it is of a kind.
pub trait Measure<I> {
    ghost use Rattle.std.specs.Prelude.{◌≡◌, ℕ};

    /// The number of an item.
    ghost amount: { Self → I → ℕ };

    /// The number of an item.
    fn of(&self, item: &I) -> u32
        ensures { result ≡ amount self.now item.now };
}

/// The numbers of these items, added up. This sum and those below stand still at the type's end.
pub fn items_amount<I, M: Measure<I>>(measure: &M, items: &[I]) -> u32
    ensures { result ≡ min (sum_by (M.amount measure.now) items.now) (2 ^ 32 - 1) }
{
    let mut sum = 0u32;
    for item in items {
        let one = measure.of(item);
        sum = sum.saturating_add(one);
    }
    sum
}

fn queue_amount<I, M: Measure<I>>(measure: &M, queue: &VecDeque<I>) -> u32
    ensures { result ≡ min (sum_by (M.amount measure.now) queue.now.items) (2 ^ 32 - 1) }
{
    let (front, back) = queue.as_slices();
    let first = items_amount(measure, front);
    let rest = items_amount(measure, back);
    first.saturating_add(rest)
}

fn piece_amount<U: Drop, I: Drop, M: Measure<I>>(measure: &M, desk: &Desk<U, I>) -> u32
    ensures { result ≡ min (sum_by (M.amount measure.now) (piece_waits desk.now)) (2 ^ 32 - 1) }
{
    let remote = queue_amount(measure, &desk.remote);
    let local = queue_amount(measure, &desk.local);
    let behind = items_amount(measure, desk.behind.as_slice());
    let own = local.saturating_add(behind);
    remote.saturating_add(own)
}

/// What waits at pieces that were cut.
pub fn cut_amount<U: Drop, I: Drop, M: Measure<I>>(measure: &M, cut: &[CutDesk<U, I>]) -> u32
    ensures { result ≡ min (sum_by (M.amount measure.now) (cut_waits cut.now)) (2 ^ 32 - 1) }
{
    let mut sum = 0u32;
    for here in cut {
        let one = piece_amount(measure, &here.desk);
        sum = sum.saturating_add(one);
    }
    sum
}

/// What waits at the piece to which items come.
pub fn current_amount<U: Drop, I: Drop, M: Measure<I>>(
    measure: &M,
    current: &Option<Desk<U, I>>,
) -> u32
    ensures { result ≡ min (sum_by (M.amount measure.now) (current_waits current.now)) (2 ^ 32 - 1) }
{
    match current {
        Some(desk) => piece_amount(measure, desk),
        None => 0,
    }
}

/// What came with units whose piece hasn't begun.
pub fn early_amount<U: Drop, I: Drop, M: Measure<I>>(measure: &M, early: &[Early<U, I>]) -> u32
    ensures { result ≡ min (sum_by (M.amount measure.now) (early_waits early.now)) (2 ^ 32 - 1) }
{
    let mut sum = 0u32;
    for here in early {
        let one = items_amount(measure, here.queue.as_slice());
        sum = sum.saturating_add(one);
    }
    sum
}

/// What waits at all groups.
pub fn groups_amount<U: Drop, I: Drop, M: Measure<I>>(
    measure: &M,
    groups: &[GroupDesks<U, I>],
) -> u32
    ensures { result ≡ min (sum_by (M.amount measure.now) (joined waits groups.now)) (2 ^ 32 - 1) }
{
    let mut sum = 0u32;
    for here in groups {
        let one = here.amount(measure);
        sum = sum.saturating_add(one);
    }
    sum
}
