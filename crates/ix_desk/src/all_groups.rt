// What goes over all groups of a core.
ghost use Rattle.std.specs.Prelude.{◌≡◌, ◌<◌, ◌≤◌, ◌+◌, ◌^◌, ℕ, length, replicate, All, IfOk, IfErr, IfSome, IfNone, Some, None, slice_get, slice_set, slice_index_or};
ghost use Rattle.ix_desk.specs.Pieces.{joined};
ghost use Rattle.ix_desk.specs.Groups.{waits, empty, done_of, shipped};
ghost use Rattle.ix_desk.specs.Desks.{opened};

use crate::group::{CutDesk, GroupDesks};
use ix_base::{GroupId, NoMemory};
use std::alloc::Global;

/// As many groups, of which none has begun.
pub fn empty_groups<U: Drop, I: Drop>(
    alloc: Global,
    count: usize,
) -> Result<Vec<GroupDesks<U, I>>, NoMemory>
    ensures { IfOk result (λ v. v.items ≡ replicate count empty) }
{
    let mut groups = Vec::with_capacity(alloc, count)?;
    for _i in 0..count {
        groups.push(GroupDesks::new(alloc))?;
    }
    Ok(groups)
}

/// Seats the units that are at home here.
pub fn seat_home<U: Drop, I: Drop>(
    alloc: Global,
    groups: &mut Vec<GroupDesks<U, I>>,
    home: Vec<(GroupId, U)>,
)
    requires within { All (λ h. h.0.0 < length groups.old.items) home.items }
    requires empty { (g : ℕ) → slice_index_or groups.old.items g empty ≡ empty }
    ensures len { length groups.new.items ≡ length groups.old.items }
    ensures opened { (g : ℕ) → slice_index_or groups.new.items g empty ≡ opened home.items g }
{
    let mut home = home;
    while let Some((g, unit)) = home.pop() {
        groups[usize::from(g.0)] = GroupDesks::at_home(alloc, unit);
    }
}

/// An item that waits, or how many more places it stands behind all groups.
pub fn groups_waiting<'a, U: Drop, I: Drop>(
    groups: &'a [GroupDesks<U, I>],
    i: usize,
) -> Result<&'a I, usize>
    ensures found { IfOk result (λ x. slice_get (joined waits groups.now) i ≡ Some x.now) }
    ensures beyond { IfErr result (λ rest. rest + length (joined waits groups.now) ≡ i) }
{
    let mut left = i;
    for here in groups {
        match here.waiting(left) {
            Ok(item) => return Ok(item),
            Err(rest) => left = rest,
        }
    }
    Err(left)
}

/// Takes out the first piece that is done, with the number of its group.
pub fn ship_first<U: Drop, I: Drop>(
    groups: &mut Vec<GroupDesks<U, I>>,
) -> Option<(u16, CutDesk<U, I>)>
    requires { length groups.old.items ≤ 2 ^ 16 }
    ensures none { IfNone result (groups.new.items ≡ groups.old.items) }
    ensures nothing { IfNone result ((g : ℕ) → g < length groups.old.items → done_of (slice_index_or groups.old.items g empty).cut ≡ None) }
    ensures within { IfSome result (λ r. r.0 < length groups.old.items) }
    ensures done { IfSome result (λ r. done_of (slice_index_or groups.old.items r.0 empty).cut ≡ Some r.1) }
    ensures shipped { IfSome result (λ r. groups.new.items ≡ slice_set groups.old.items r.0 (shipped (slice_index_or groups.old.items r.0 empty))) }
{
    for i in 0..groups.len() {
        let here = &mut groups[i];
        if let Some(piece) = here.ship() {
            return Some((i as u16, piece));
        }
    }
    None
}
