// Work over lists, each element with the budget that those before it left.
ghost use Rattle.std.specs.Prelude.{◌≡◌, length, OnOk, OnErr, IfOk};
ghost use Rattle.ix_desk.specs.Steps.{leave, EachWorked, cut_leaves, CutWorked, group_leaves, GroupWorked};
ghost use Rattle.ix_desk.specs.Failures.{OneFailed, CutFailed, GroupFailed};

use crate::group::{CutDesk, GroupDesks};
use crate::unit::Unit;
use ix_base::{CoreId, NoMemory};
use std::alloc::Global;

/// Works on the pieces that were cut. Answers what is left of the budget.
pub fn work_cut<U: Unit>(
    alloc: Global,
    env: &U::Env,
    core: CoreId,
    budget: usize,
    cut: &mut Vec<CutDesk<U, U::Item>>,
) -> Result<usize, NoMemory>
    ensures worked { OnOk result (EachWorked (cut_leaves U.counted) (CutWorked U.counted U.name U.stepped U.advanced env.now core.0) budget cut.old.items cut.new.items) }
    ensures left { IfOk result (λ left. left ≡ leave (cut_leaves U.counted) budget cut.old.items) }
    ensures failed { OnErr result (OneFailed (cut_leaves U.counted) (CutWorked U.counted U.name U.stepped U.advanced env.now core.0) (CutFailed U.counted) budget cut.old.items cut.new.items) }
{
    let mut left = budget;
    for i in 0..cut.len() {
        let here = &mut cut[i];
        left = here.work(alloc, env, core, left)?;
    }
    Ok(left)
}

/// Works on the groups. Answers what is left of the budget.
pub fn work_groups<U: Unit>(
    alloc: Global,
    env: &U::Env,
    core: CoreId,
    budget: usize,
    groups: &mut Vec<GroupDesks<U, U::Item>>,
) -> Result<usize, NoMemory>
    ensures len { length groups.new.items ≡ length groups.old.items }
    ensures worked { OnOk result (EachWorked (group_leaves U.counted) (GroupWorked U.counted U.name U.stepped U.advanced env.now core.0) budget groups.old.items groups.new.items) }
    ensures left { IfOk result (λ left. left ≡ leave (group_leaves U.counted) budget groups.old.items) }
    ensures failed { OnErr result (OneFailed (group_leaves U.counted) (GroupWorked U.counted U.name U.stepped U.advanced env.now core.0) (GroupFailed U.counted U.name U.stepped U.advanced env.now core.0) budget groups.old.items groups.new.items) }
{
    let mut left = budget;
    for i in 0..groups.len() {
        let here = &mut groups[i];
        left = here.work(alloc, env, core, left)?;
    }
    Ok(left)
}
