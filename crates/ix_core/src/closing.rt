// The close of a play: every buffer goes home, and every flow group ends.
ghost use Rattle.std.specs.Prelude.{◌≡◌, ◌≤◌, ◌<◌, ◌++◌, ◌∷◌, [], ℕ, true, length, option_to_list, slice_index_or, IfOk, IsErr, OnErr, OnOk};
ghost use Rattle.ix_ring.specs.Ends.{known};
ghost use Rattle.ix_desk.specs.Groups.{waits};
ghost use Rattle.ix_desk.specs.Desks.{group_at};
ghost use Rattle.ix_nic.specs.Cards.{ChangesOne};
ghost use Rattle.ix_nic.specs.Offers.{unkept};
ghost use Rattle.ix_nic.specs.Ports.{PortView};
ghost use Rattle.ix_core.specs.Closing.{AllAreRecalled, CanClose, Closes, FewArePosted, Finishes, GroupEnded, GroupEnds, GroupsEnd, NothingWaits, Recalled, PoolsAre, port_holds, units_of};
ghost use Rattle.ix_core.specs.Homing.{AreNumbered};
ghost use Rattle.ix_core.specs.Renewing.{posted_count};
ghost use Rattle.ix_core.specs.Settling.{AllFailed, any_failed};

use crate::homing::{bring_all_home, empty_cores};
use crate::settling::{any_failed, fail_all};
use crate::turning::Core;
use ix_base::{CoreId, FLOW_GROUPS, GroupId, NoMemory};
use ix_mbuf::Mbuf;
use ix_nic::Nic;
use ix_stack::GroupStack;
use std::alloc::Global;

/// What is left of a play at its close.
#[derive(Drop)]
pub struct Closed<G: GroupStack> {
    /// For each core, in order, how many buffers are in its pool.
    pub pools: Vec<u32>,
    /// The flow groups as they ended, in rising order.
    pub groups: Vec<(GroupId, G)>,
}

// Takes the buffer that the card keeps for a core's ring.
fn recall_kept(nic: &mut Nic, core: CoreId, bufs: &mut Vec<Mbuf>) -> Result<(), NoMemory>
    requires { core.0 < length nic.old.ports }
    ensures others { ChangesOne core.0 nic.old nic.new }
    ensures unkept { (p : PortView) → slice_index_or nic.new.ports core.0 p ≡ unkept (slice_index_or nic.old.ports core.0 p) }
    ensures bufs { OnOk result ((p : PortView) → bufs.new.items ≡ bufs.old.items ++ option_to_list (slice_index_or nic.old.ports core.0 p).kept) }
{
    let Some(buf) = nic.take_kept(core) else {
        return Ok(());
    };
    bufs.push(buf)?;
    Ok(())
}

// Takes those that are on a core's posting ring.
fn recall_posted(nic: &mut Nic, core: CoreId, bufs: &mut Vec<Mbuf>) -> Result<(), NoMemory>
    requires core { core.0 < length nic.old.ports }
    requires few { (p : PortView) → posted_count (slice_index_or nic.old.ports core.0 p) ≤ 512 }
    requires none { (p : PortView) → option_to_list (slice_index_or nic.old.ports core.0 p).kept ≡ [] }
    ensures others { ChangesOne core.0 nic.old nic.new }
    ensures recalled { OnOk result ((p : PortView) → Recalled (slice_index_or nic.old.ports core.0 p) (slice_index_or nic.new.ports core.0 p)) }
    ensures bufs { OnOk result ((p : PortView) → bufs.new.items ≡ bufs.old.items ++ known (slice_index_or nic.old.ports core.0 p).posts) }
{
    let counts = nic.counts(core);
    for _i in 0..counts.posted {
        let Some(buf) = nic.take_posted(core) else {
            unreachable!()
        };
        bufs.push(buf)?;
    }
    Ok(())
}

// Takes all that are posted to a core's ring.
fn recall(nic: &mut Nic, core: CoreId, bufs: &mut Vec<Mbuf>) -> Result<(), NoMemory>
    requires core { core.0 < length nic.old.ports }
    requires few { (p : PortView) → posted_count (slice_index_or nic.old.ports core.0 p) ≤ 512 }
    ensures others { ChangesOne core.0 nic.old nic.new }
    ensures recalled { OnOk result ((p : PortView) → Recalled (slice_index_or nic.old.ports core.0 p) (slice_index_or nic.new.ports core.0 p)) }
    ensures bufs { OnOk result ((p : PortView) → bufs.new.items ≡ bufs.old.items ++ port_holds (slice_index_or nic.old.ports core.0 p)) }
{
    recall_kept(nic, core, bufs)?;
    recall_posted(nic, core, bufs)?;
    Ok(())
}

// Takes all that are posted to any core's ring.
fn recall_all<G: GroupStack>(
    nic: &mut Nic,
    cores: &[Core<G>],
    bufs: &mut Vec<Mbuf>,
) -> Result<(), NoMemory>
    requires count { length nic.old.ports ≡ length cores.now }
    requires numbers { AreNumbered cores.now }
    requires few { FewArePosted nic.old.ports }
    ensures recalled { OnOk result (AllAreRecalled nic.old nic.new bufs.old.items bufs.new.items) }
{
    for core in cores {
        recall(nic, core.pool.home(), bufs)?;
    }
    Ok(())
}

// Ends a flow group, if it is on this core.
fn finish_here<G: GroupStack>(
    core: &mut Core<G>,
    g: GroupId,
    groups: &mut Vec<(GroupId, G)>,
    bufs: &mut Vec<Mbuf>,
) -> Result<(), NoMemory>
    requires { waits (group_at core.old.desks g.0) ≡ [] }
    ensures ended { OnOk result (GroupEnded g.0 core.old core.new) }
    ensures finishes { OnOk result (Finishes G.finished (units_of g.0 (core.old ∷ [])) groups.old.items groups.new.items bufs.old.items bufs.new.items) }
{
    let Some(unit) = core.desks.take_unit(g) else {
        return Ok(());
    };
    let mut unit = unit;
    let mut freed = unit.finish()?;
    bufs.append(&mut freed)?;
    groups.push((g, unit))?;
    Ok(())
}

// Ends a flow group, on whichever core it is.
fn finish_group<G: GroupStack>(
    cores: &mut [Core<G>],
    g: GroupId,
    groups: &mut Vec<(GroupId, G)>,
    bufs: &mut Vec<Mbuf>,
) -> Result<(), NoMemory>
    requires { NothingWaits g.0 cores.old }
    ensures { OnOk result (GroupEnds G.finished g.0 (length cores.old) cores.old cores.new groups.old.items groups.new.items bufs.old.items bufs.new.items) }
{
    for place in 0..cores.len() {
        let core = &mut cores[place];
        finish_here(core, g, groups, bufs)?;
    }
    Ok(())
}

// Ends all flow groups, in rising order.
fn finish_all<G: GroupStack>(
    cores: &mut [Core<G>],
    groups: &mut Vec<(GroupId, G)>,
    bufs: &mut Vec<Mbuf>,
) -> Result<(), NoMemory>
    requires { (g : ℕ) → NothingWaits g cores.old }
    ensures { OnOk result (GroupsEnd G.finished 512 cores.old cores.new groups.old.items groups.new.items bufs.old.items bufs.new.items) }
{
    for g in 0..FLOW_GROUPS as u16 {
        finish_group(cores, GroupId(g), groups, bufs)?;
    }
    Ok(())
}

// How many buffers are free in each pool.
fn pools_of<G: GroupStack>(alloc: Global, cores: &[Core<G>]) -> Result<Vec<u32>, NoMemory>
    ensures { IfOk result (λ pools. PoolsAre (length cores.now) pools.items cores.now) }
{
    let mut pools = Vec::new(alloc);
    for core in cores {
        pools.push(core.pool.free())?;
    }
    Ok(pools)
}

// What the close does.
fn close_all<G: GroupStack>(
    alloc: Global,
    nic: &mut Nic,
    cores: &mut [Core<G>],
) -> Result<Closed<G>, NoMemory>
    requires { CanClose nic.old cores.old }
    ensures { IfOk result (λ closed. Closes G.finished G.weight closed nic.old nic.new cores.old cores.new) }
{
    let mut bufs = Vec::new(alloc);
    empty_cores(cores, &mut bufs)?;
    recall_all(nic, cores, &mut bufs)?;
    let mut groups = Vec::new(alloc);
    finish_all(cores, &mut groups, &mut bufs)?;
    bring_all_home(cores, bufs)?;
    let pools = pools_of(alloc, cores)?;
    Ok(Closed { pools, groups })
}

/// Closes the play of a card and all its cores, in order, after a settle and a meeting, with no item at a desk: the buffers that are posted and those
/// that flow groups own go to the pools of their homes, and the flow groups end. Answers them, in rising order, and how many buffers each pool has.
/// Afterwards no core has a flow group.
///
/// After want of memory, here or at a core before, all cores answer that from then on.
pub fn close<G: GroupStack>(
    alloc: Global,
    nic: &mut Nic,
    cores: &mut [Core<G>],
) -> Result<Closed<G>, NoMemory>
    requires { CanClose nic.old cores.old }
    ensures closes { IfOk result (λ closed. Closes G.finished G.weight closed nic.old nic.new cores.old cores.new) }
    ensures failed { OnErr result (AllFailed cores.new) }
    ensures again { any_failed cores.old ≡ true → IsErr result }
{
    if any_failed(cores) {
        fail_all(cores);
        return Err(NoMemory);
    }
    match close_all(alloc, nic, cores) {
        Ok(closed) => Ok(closed),
        Err(NoMemory) => {
            fail_all(cores);
            Err(NoMemory)
        }
    }
}
