// Three cores at the opening of a play.
ghost use Rattle.std.specs.Prelude.{◌≡◌, ◌≤◌, ◌<◌, All, AllPairs, length, IfOk};
ghost use Rattle.ix_core.specs.Order.{AreOpenedAs, IsOpenedAs};

use crate::Holder;
use ix_base::{CoreId, GroupId, NoMemory};
use ix_core::{Core, CoreEnds};
use ix_mbuf::Pool;
use std::alloc::Global;

// The buffers of a core.
pub(super) const BUFFERS: u32 = 40;

// The most frames of a turn.
const BATCH: u16 = 5;

// The group, if it is at home.
fn groups_at(
    alloc: Global,
    group: GroupId,
    is_home: bool,
) -> Result<Vec<(GroupId, Holder)>, NoMemory>
    requires { group.0 < 512 }
    ensures within { IfOk result (λ v. All (λ h. h.0.0 < 512) v.items) }
    ensures different { IfOk result (λ v. AllPairs (λ a b. a.0.0 ≡ b.0.0 → ⊥) v.items) }
{
    let mut groups = Vec::new(alloc);
    if !is_home {
        return Ok(groups);
    }
    groups.push((group, Holder::new(alloc)?))?;
    Ok(groups)
}

// The core of this number, which has the group where that is at home here.
fn open_core(
    alloc: Global,
    number: u8,
    group: GroupId,
    home: CoreId,
    ends: CoreEnds<Holder>,
) -> Result<Core<Holder>, NoMemory>
    requires { group.0 < 512 }
    ensures { IfOk result (λ core. IsOpenedAs number ends core) }
{
    let id = CoreId(number);
    let pool = Pool::new(alloc, id, BUFFERS)?;
    let groups = groups_at(alloc, group, home == id)?;
    Core::new(alloc, id, pool, groups, ends, BATCH)
}

// A core over each of these ends, in order. One of them has the group.
pub(super) fn open_cores(
    alloc: Global,
    group: GroupId,
    home: CoreId,
    ends: Vec<CoreEnds<Holder>>,
) -> Result<Vec<Core<Holder>>, NoMemory>
    requires group { group.0 < 512 }
    requires few { length ends.items ≤ 8 }
    ensures { IfOk result (λ cores. AreOpenedAs ends.items cores.items) }
{
    let mut cores = Vec::new(alloc);
    for end in ends {
        let core = open_core(alloc, cores.len() as u8, group, home, end)?;
        cores.push(core)?;
    }
    Ok(cores)
}
