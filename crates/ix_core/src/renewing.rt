// The rings between the card and the cores are made anew, and free buffers are posted.
ghost use Rattle.std.specs.Prelude.{◌≡◌, ◌≤◌, ◌<◌, length, slice_index_or, IfOk, OnOk};
ghost use Rattle.ix_ring.specs.Ends.{spare, SamePutEnd};
ghost use Rattle.ix_nic.specs.Cards.{ChangesOne, counts_of};
ghost use Rattle.ix_nic.specs.Ports.{PortView};
ghost use Rattle.ix_core.specs.Renewing.{AreCounts, AreRenewed, AreResting, Fills, IsResting, Renewed};

use crate::turning::Core;
use ix_base::{CoreId, NoMemory};
use ix_mbuf::{Mbuf, Pool};
use ix_nic::{Counts, Nic};
use ix_ring::PutEnd;
use ix_stack::GroupStack;
use std::alloc::Global;

/// After a settle so many buffers are posted to each core's ring, or all that the core has: a posting ring has so many places.
pub const POSTED: u32 = 512;

// Puts so many free buffers on a posting ring that has room for them, or all that there are.
fn fill(pool: &mut Pool, posted: &mut PutEnd<Mbuf>, most: u32)
    requires { most ≤ spare posted.old }
    ensures ring { SamePutEnd posted.old posted.new }
    ensures fills { Fills most pool.old pool.new posted.old posted.new }
{
    // asked for what it says of the free buffers
    let _free = pool.free();
    for _i in 0..most {
        let Some(buf) = pool.take() else {
            return;
        };
        if let Err(_buf) = posted.put(buf) {
            unreachable!()
        }
    }
}

// Makes the rings between the card and the core of this number anew, and posts free buffers. Answers the ring's counts.
fn renew<G: GroupStack>(
    alloc: Global,
    nic: &mut Nic,
    id: CoreId,
    core: &mut Core<G>,
) -> Result<Counts, NoMemory>
    requires within { id.0 < length nic.old.ports }
    requires resting { (p : PortView) → IsResting (slice_index_or nic.old.ports id.0 p) core.old }
    ensures others { ChangesOne id.0 nic.old nic.new }
    ensures renewed { OnOk result ((p : PortView) → Renewed (slice_index_or nic.old.ports id.0 p) (slice_index_or nic.new.ports id.0 p) core.old core.new) }
    ensures counts { IfOk result (λ counts. (p : PortView) → counts ≡ counts_of (slice_index_or nic.new.ports id.0 p)) }
{
    nic.fresh_ends(alloc, id, &mut core.items, &mut core.posted)?;
    let known = nic.counts(id);
    fill(&mut core.pool, &mut core.posted, POSTED - known.posted);
    nic.meet_ends(id, &mut core.items, &mut core.posted);
    Ok(nic.counts(id))
}

/// Makes all rings between the card and its cores anew, and posts free buffers. Answers the counts of the rings, in order.
pub fn renew_all<G: GroupStack>(
    alloc: Global,
    nic: &mut Nic,
    cores: &mut [Core<G>],
) -> Result<Vec<Counts>, NoMemory>
    requires { AreResting nic.old.ports cores.old }
    ensures renewed { OnOk result (AreRenewed nic.old nic.new cores.old cores.new) }
    ensures counts { IfOk result (λ rings. AreCounts (length cores.old) rings.items nic.new) }
{
    let mut rings = Vec::new(alloc);
    for place in 0..cores.len() {
        let core = &mut cores[place];
        let id = core.pool.home();
        let counts = renew(alloc, nic, id, core)?;
        rings.push(counts)?;
    }
    Ok(rings)
}
