// The card and the cores of a play at its opening.
ghost use Rattle.std.specs.Prelude.{◌≡◌, ◌<◌, ◌≤◌, ◌+◌, [], length, IfOk, OnOk};
ghost use Rattle.ix_conf.specs.Settings.{settings_of};
ghost use Rattle.ix_engine.specs.Openings.{AreHomes, CoreIsOpen, CoresAreOpen, IsOpen};

use ix_base::{CoreId, FLOW_GROUPS, GroupId, NoMemory};
use ix_conf::Conf;
use ix_core::{Core, CoreEnds, open_rings};
use ix_mbuf::Pool;
use ix_nic::Nic;
use ix_plainstack::PlainStack;
use ix_reta::Reta;
use std::alloc::Global;

/// How many messages stand on a ring from one core to another, at most.
const MESH_PLACES: usize = 256;

// Adds a flow group to the homes of a core, with a new stack, if the table has it there.
#[tactic(auto, using(crate::proofs::Homes::for_homes))]
fn add_home(
    alloc: Global,
    table: &Reta,
    core: CoreId,
    group: GroupId,
    homes: &mut Vec<(GroupId, PlainStack)>,
) -> Result<(), NoMemory>
    requires group { group.0 < 512 }
    requires homes { AreHomes table.now core.0 group.0 homes.old.items }
    ensures { OnOk result (AreHomes table.now core.0 (group.0 + 1) homes.new.items) }
{
    if table.core(group).0 != core.0 {
        return Ok(());
    }
    homes.push((group, PlainStack::new(alloc)))?;
    Ok(())
}

// The flow groups that are at home on a core, each with a stack of its own.
#[tactic(auto, using(crate::proofs::Homes::for_homes))]
fn homes_on(
    alloc: Global,
    table: &Reta,
    core: CoreId,
) -> Result<Vec<(GroupId, PlainStack)>, NoMemory>
    ensures { IfOk result (λ homes. AreHomes table.now core.0 512 homes.items) }
{
    let mut homes = Vec::new(alloc);
    for group in 0..FLOW_GROUPS as u16 {
        add_home(alloc, table, core, GroupId(group), &mut homes)?;
    }
    Ok(homes)
}

// A core with a full pool, and the flow groups that are at home there.
fn open_core(
    alloc: Global,
    conf: &Conf,
    table: &Reta,
    id: CoreId,
    ends: CoreEnds<PlainStack>,
) -> Result<Core<PlainStack>, NoMemory>
    ensures { IfOk result (λ core. CoreIsOpen (settings_of conf.now) table.now id.0 ends core) }
{
    let pool = Pool::new(alloc, id, conf.buffers)?;
    let homes = homes_on(alloc, table, id)?;
    Core::new(alloc, id, pool, homes, ends, conf.batch)
}

// All cores, over these ends.
fn open_cores(
    alloc: Global,
    conf: &Conf,
    table: &Reta,
    ends: Vec<CoreEnds<PlainStack>>,
) -> Result<Vec<Core<PlainStack>>, NoMemory>
    requires { length ends.items ≤ 8 }
    ensures { IfOk result (λ cores. CoresAreOpen (settings_of conf.now) table.now ends.items cores.items) }
{
    let mut cores = Vec::new(alloc);
    for core_ends in ends {
        let id = CoreId(cores.len() as u8);
        let core = open_core(alloc, conf, table, id, core_ends)?;
        cores.push(core)?;
    }
    Ok(cores)
}

/// The card and all cores of a configuration, in order, over new rings: every buffer is in its pool, each flow group is at home on the core that
/// the table has for it, and the table has room for so many turns.
pub fn open(
    alloc: Global,
    conf: &Conf,
    turns: usize,
) -> Result<(Nic, Vec<Core<PlainStack>>), NoMemory>
    requires { turns < 4294967295 }
    ensures { IfOk result (λ r. IsOpen (settings_of conf.now) turns r.0 r.1.items) }
{
    let table = Reta::new(alloc, conf.live, turns)?;
    let (card, ends) = open_rings(alloc, conf.cores, MESH_PLACES)?;
    let cores = open_cores(alloc, conf, &table, ends)?;
    let nic = Nic::new(alloc, table, card)?;
    Ok((nic, cores))
}
