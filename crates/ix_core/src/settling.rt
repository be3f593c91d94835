// A settle: between two epochs buffers go home, and are posted anew.
ghost use Rattle.std.specs.Prelude.{◌≡◌, true, length, IfOk, IsErr, OnErr};
ghost use Rattle.ix_core.specs.Settling.{AllFailed, CanSettle, Settles, any_failed};

use crate::counting::{Home, homes_of};
use crate::homing::{bring_all_home, empty_cores};
use crate::renewing::renew_all;
use crate::turning::Core;
use ix_base::NoMemory;
use ix_nic::{Counts, Nic};
use ix_stack::GroupStack;
use std::alloc::Global;

/// What a settle counts.
#[derive(Drop)]
pub struct SettleReport {
    /// For each core, in order, the buffers that are posted to its ring, and the frames and items of the ring since the last settle.
    pub rings: Vec<Counts>,
    /// For each core, in order, where its buffers are.
    pub homes: Vec<Home>,
}

/// Whether a core has found no memory.
pub fn any_failed<G: GroupStack>(cores: &[Core<G>]) -> bool
    ensures { result ≡ any_failed cores.now }
{
    cores.iter().any(|core| core.failed)
}

/// Each core answers want of memory from now on.
pub fn fail_all<G: GroupStack>(cores: &mut [Core<G>])
    ensures { AllFailed cores.new }
{
    for core in cores.iter_mut() {
        core.failed = true;
    }
}

// What a settle does.
fn settle_all<G: GroupStack>(
    alloc: Global,
    nic: &mut Nic,
    cores: &mut [Core<G>],
) -> Result<SettleReport, NoMemory>
    requires { CanSettle nic.old cores.old }
    ensures { IfOk result (λ report. Settles G.owners report nic.old nic.new cores.old cores.new) }
{
    let mut bufs = Vec::new(alloc);
    empty_cores(cores, &mut bufs)?;
    bring_all_home(cores, bufs)?;
    let rings = renew_all(alloc, nic, cores)?;
    let homes = homes_of(alloc, cores, rings.as_slice())?;
    nic.settled();
    Ok(SettleReport { rings, homes })
}

/// Settles the card and all its cores, in order, after a meeting at the end of an epoch: buffers that return go to the pools of their homes,
/// the rings between the card and each core are made anew, and to each core's ring so many free buffers are posted that 512 are, or all that the
/// core has. Answers the counts of the rings since the settle before, and where the buffers of each core are now.
///
/// After want of memory, here or at a core before, all cores answer that from then on.
pub fn settle<G: GroupStack>(
    alloc: Global,
    nic: &mut Nic,
    cores: &mut [Core<G>],
) -> Result<SettleReport, NoMemory>
    requires { CanSettle nic.old cores.old }
    ensures settled { IfOk result (λ report. Settles G.owners report nic.old nic.new cores.old cores.new) }
    ensures failed { OnErr result (AllFailed cores.new) }
    ensures again { any_failed cores.old ≡ true → IsErr result }
{
    if any_failed(cores) {
        fail_all(cores);
        return Err(NoMemory);
    }
    match settle_all(alloc, nic, cores) {
        Ok(report) => Ok(report),
        Err(NoMemory) => {
            fail_all(cores);
            Err(NoMemory)
        }
    }
}
