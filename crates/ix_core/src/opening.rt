// The rings of a play.
ghost use Rattle.std.specs.Prelude.{◌≡◌, ◌<◌, ◌≤◌, [], length, All, IfOk, OnOk};
ghost use Rattle.ix_nic.specs.Cards.{IsUnused};
ghost use Rattle.ix_core.specs.Opening.{AreTied, EndsAreNew, IsNewPort, Joins};
ghost use Rattle.ix_core.specs.Order.{EndsAreInOrder};

use crate::message::{CoreEnds, MeshEnd};
use ix_base::{CoreId, NoMemory};
use ix_nic::NicEnd;
use ix_ring::ring;
use ix_stack::GroupStack;
use std::alloc::Global;

// A receive ring and a posting ring have so many places.
const PORT_PLACES: usize = 512;

// The two rings between the card and a core, which has no others yet.
fn open_port<G: GroupStack>(alloc: Global) -> Result<(NicEnd, CoreEnds<G>), NoMemory>
    ensures port { IfOk result (λ r. IsNewPort r.0 r.1) }
    ensures alone { IfOk result (λ r. r.1.mesh.items ≡ []) }
{
    let (put_items, items) = ring(alloc, PORT_PLACES)?;
    let (posted, take_posted) = ring(alloc, PORT_PLACES)?;
    let card = NicEnd {
        items: put_items,
        posted: take_posted,
    };
    let core = CoreEnds {
        items,
        posted,
        mesh: Vec::new(alloc),
    };
    Ok((card, core))
}

// Two cores have two more rings, with so many places, between them.
fn tie<G: GroupStack>(
    alloc: Global,
    lower: &mut CoreEnds<G>,
    upper: &mut CoreEnds<G>,
    numbers: (CoreId, CoreId),
    places: usize,
) -> Result<(), NoMemory>
    requires { 1 ≤ places }
    ensures { OnOk result (AreTied places numbers.0.0 numbers.1.0 lower.old upper.old lower.new upper.new) }
{
    let (put_up, take_up) = ring(alloc, places)?;
    let (put_down, take_down) = ring(alloc, places)?;
    lower.mesh.push(MeshEnd {
        core: numbers.1,
        put: put_up,
        take: take_down,
    })?;
    upper.mesh.push(MeshEnd {
        core: numbers.0,
        put: put_down,
        take: take_up,
    })?;
    Ok(())
}

// A core that has no rings to others comes to cores that have, and has two rings to each of them.
fn join<G: GroupStack>(
    alloc: Global,
    cores: &mut Vec<CoreEnds<G>>,
    mut core: CoreEnds<G>,
    number: u8,
    places: usize,
) -> Result<(), NoMemory>
    requires some { 1 ≤ places }
    requires alone { core.mesh.items ≡ [] }
    requires number { number ≡ length cores.old.items }
    ensures { OnOk result (Joins places cores.old.items cores.new.items core) }
{
    for lower in 0..number {
        let numbers = (CoreId(lower), CoreId(number));
        let other = &mut cores[usize::from(lower)];
        tie(alloc, other, &mut core, numbers, places)?;
    }
    cores.push(core)?;
    Ok(())
}

/// All rings of a play with so many cores: the card's ends and the ends of each core, in order. Receive and posting rings have 512 places,
/// those between two cores as many as wanted.
pub fn open_rings<G: GroupStack>(
    alloc: Global,
    count: u8,
    places: usize,
) -> Result<(Vec<NicEnd>, Vec<CoreEnds<G>>), NoMemory>
    requires { 1 ≤ places }
    ensures count { IfOk result (λ r. length r.1.items ≡ count) }
    ensures order { IfOk result (λ r. EndsAreInOrder r.0.items r.1.items) }
    ensures fresh { IfOk result (λ r. EndsAreNew places r.0.items r.1.items) }
    ensures unused { IfOk result (λ r. All IsUnused r.0.items) }
{
    let mut card = Vec::new(alloc);
    let mut cores = Vec::new(alloc);
    for number in 0..count {
        let (nic_end, core) = open_port(alloc)?;
        card.push(nic_end)?;
        join(alloc, &mut cores, core, number, places)?;
    }
    Ok((card, cores))
}
