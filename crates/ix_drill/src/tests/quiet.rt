// Whether anything is under way.
ghost use Rattle.std.specs.Prelude.{◌≡◌, ◌≤◌, true, length, IfOk, IfSome};
ghost use Rattle.std.specs.List.{list_any};
ghost use Rattle.ix_core.specs.Closing.{FewArePosted};
ghost use Rattle.ix_core.specs.Meeting.{AreInOrder};
ghost use Rattle.ix_drill.specs.Quiet.{ArePlaced, IsReady, core_is_busy, has_items, link_is_busy};

use super::drill::CORES;
use crate::Holder;
use ix_base::{CoreId, NoMemory};
use ix_core::{Closed, Core, Link, SettleReport, close, meet_all, order_stays, settle};
use ix_nic::Nic;
use std::alloc::Global;

// Whether a message is known to be on the ring from the other core, or waits for the ring to it.
fn link_is_busy(link: &Link<Holder>) -> bool
    ensures { result ≡ link_is_busy link.now }
{
    link.take.known_count() > 0 || !link.waiting.is_empty()
}

fn links_are_busy(links: &[Link<Holder>]) -> bool
    ensures { result ≡ list_any link_is_busy links.now }
{
    links.iter().any(|link| link_is_busy(link))
}

fn core_is_busy(core: &Core<Holder>) -> bool
    ensures { result ≡ core_is_busy core.now }
{
    core.items.known_count() > 0 || links_are_busy(core.links.as_slice())
}

// Whether an item is known to be on a receive ring, a message is known to be on the mesh, or one waits for it.
fn are_busy(cores: &[Core<Holder>]) -> bool
    ensures { result ≡ list_any core_is_busy cores.now }
{
    cores.iter().any(|core| core_is_busy(core))
}

fn has_items(core: &Core<Holder>) -> bool
    ensures { result ≡ has_items core.now }
{
    core.desks.waiting(0).is_some()
}

// Whether an item waits at a desk.
fn have_items(cores: &[Core<Holder>]) -> bool
    ensures { result ≡ list_any has_items cores.now }
{
    cores.iter().any(|core| has_items(core))
}

// Whether no more buffers are posted to each ring than it has places.
fn few_are_posted(nic: &Nic, count: u8) -> bool
    requires { length nic.now.ports ≡ count }
    ensures { result ≡ true → FewArePosted nic.now.ports }
{
    for core in 0..count {
        if nic.counts(CoreId(core)).posted > 512 {
            return false;
        }
    }
    true
}

// A settle, or none where something is under way.
pub(super) fn settle_quiet(
    alloc: Global,
    nic: &mut Nic,
    cores: &mut [Core<Holder>],
) -> Result<Option<SettleReport>, NoMemory>
    requires order { AreInOrder nic.old cores.old }
    requires placed { ArePlaced nic.old cores.old }
    requires three { length cores.old ≡ 3 }
    ensures { IfOk result (λ r. IfSome r (λ report. IsReady nic.old nic.new cores.new)) }
{
    order_stays::<Holder>();
    if nic.retry() > 0 {
        return Ok(None);
    }
    meet_all(nic, cores);
    if are_busy(cores) || !few_are_posted(nic, CORES) {
        return Ok(None);
    }
    let report = settle(alloc, nic, cores)?;
    Ok(Some(report))
}

// The close, or none where something is under way.
pub(super) fn close_quiet(
    alloc: Global,
    nic: &mut Nic,
    cores: &mut [Core<Holder>],
) -> Result<Option<Closed<Holder>>, NoMemory>
    requires order { AreInOrder nic.old cores.old }
    requires three { length cores.old ≡ 3 }
{
    meet_all(nic, cores);
    if are_busy(cores) || have_items(cores) || !few_are_posted(nic, CORES) {
        return Ok(None);
    }
    let closed = close(alloc, nic, cores)?;
    Ok(Some(closed))
}
