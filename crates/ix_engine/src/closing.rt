// The close of a play.
ghost use Rattle.std.specs.Prelude.{◌≡◌, IfOk};
ghost use Rattle.ix_core.specs.Closing.{CanClose};
ghost use Rattle.ix_engine.specs.Steps.{IsClosedBy, records_of};

use ix_base::{GroupId, List, NoMemory};
use ix_core::{Core, close};
use ix_groupdef::GroupRecord;
use ix_nic::Nic;
use ix_plainstack::{PlainStack, StackEnv};
use std::alloc::Global;

/// What is left when all buffers are home: what each flow group leaves, group by group, and how many buffers each pool has.
#[derive(Drop)]
pub struct Left {
    pub groups: List<GroupRecord>,
    pub pools: List<u32>,
}

// What these stacks leave.
fn records_of(
    alloc: Global,
    env: &StackEnv,
    groups: Vec<(GroupId, PlainStack)>,
) -> Result<Vec<GroupRecord>, NoMemory>
    ensures { IfOk result (λ records. records.items ≡ records_of env.now groups.items) }
{
    let mut records = Vec::new(alloc);
    for (_group, stack) in groups {
        records.push(stack.record(env)?)?;
    }
    Ok(records)
}

/// Closes a play after a settle and a meeting, with no item at a desk.
pub fn close_cores(
    alloc: Global,
    env: &StackEnv,
    nic: &mut Nic,
    cores: &mut Vec<Core<PlainStack>>,
) -> Result<Left, NoMemory>
    requires { CanClose nic.old cores.old.items }
    ensures { IfOk result (λ left. IsClosedBy env.now left.groups left.pools nic.old nic.new cores.old.items cores.new.items) }
{
    let closed = close(alloc, nic, cores.as_mut_slice())?;
    let groups = records_of(alloc, env, closed.groups)?;
    Ok(Left {
        groups: List::from_vec(groups),
        pools: List::from_vec(closed.pools),
    })
}
