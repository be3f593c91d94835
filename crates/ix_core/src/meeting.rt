// Telling the card and all cores what stands in the rings between them.
ghost use Rattle.std.specs.Prelude.{◌≡◌, ◌<◌, ◌≤◌, ◌-◌, ℕ, length, slice_index_or};
ghost use Rattle.ix_nic.specs.Cards.{ChangesOne};
ghost use Rattle.ix_nic.specs.Ports.{PortView};
ghost use Rattle.ix_core.specs.Meeting.{AllAreTold, AreInOrder, AreLinked, AreMeshed, CardLearned, CardMeets, CoresLearned, FirstMeet, IsAtPort, LinkLearned, LinkMeets, LinksAreTold, PairMeets, PortMeets, RowMeets};
ghost use Rattle.ix_core.specs.Weights.{WeighsTheSame};

use crate::link::Link;
use crate::turning::Core;
use ix_nic::Nic;
use ix_ring::meet;
use ix_stack::GroupStack;

// Tells two links what stands in the rings between them.
fn meet_links<G: GroupStack>(a: &mut Link<G>, b: &mut Link<G>)
    requires { AreLinked a.old b.old }
    ensures a { LinkLearned a.old a.new }
    ensures b { LinkLearned b.old b.new }
    ensures told { LinksAreTold a.new b.new }
{
    meet(&mut a.put, &mut b.take);
    meet(&mut b.put, &mut a.take);
}

// Tells two cores, by the link of the lower one at the place up and that of the upper one at the place down.
fn meet_cores<G: GroupStack>(lower: &mut Core<G>, upper: &mut Core<G>, up: usize, down: usize)
    requires lower { up < length lower.old.links.items }
    requires upper { down < length upper.old.links.items }
    requires linked { (e : Link G G.Env) → AreLinked (slice_index_or lower.old.links.items up e) (slice_index_or upper.old.links.items down e) }
    ensures lower { LinkMeets up lower.old lower.new }
    ensures upper { LinkMeets down upper.old upper.new }
    ensures told { (e : Link G G.Env) → LinksAreTold (slice_index_or lower.new.links.items up e) (slice_index_or upper.new.links.items down e) }
{
    meet_links(&mut lower.links[up], &mut upper.links[down]);
}

// Tells two cores, of which the first stands before the second.
fn meet_pair<G: GroupStack>(cores: &mut [Core<G>], a: usize, b: usize)
    requires order { a < b }
    requires within { b < length cores.old }
    requires meshed { AreMeshed cores.old }
    ensures { PairMeets a b cores.old cores.new }
{
    let (before, after) = cores.split_at_mut(b);
    meet_cores(&mut before[a], &mut after[0], b - 1, a);
}

// Tells a core and each of those before it.
fn meet_before<G: GroupStack>(cores: &mut [Core<G>], b: usize)
    requires within { b < length cores.old }
    requires meshed { AreMeshed cores.old }
    ensures { RowMeets b b cores.old cores.new }
{
    for a in 0..b {
        meet_pair(cores, a, b);
    }
}

// Tells each core and each other one.
fn meet_mesh<G: GroupStack>(cores: &mut [Core<G>])
    requires { AreMeshed cores.old }
    ensures { FirstMeet (length cores.old) cores.old cores.new }
{
    for b in 0..cores.len() {
        meet_before(cores, b);
    }
}

// Tells the card and a core.
fn meet_port<G: GroupStack>(nic: &mut Nic, core: &mut Core<G>)
    requires within { core.old.pool.home.0 < length nic.old.ports }
    requires port { (p : PortView) → IsAtPort (slice_index_or nic.old.ports core.old.pool.home.0 p) core.old }
    ensures others { ChangesOne core.old.pool.home.0 nic.old nic.new }
    ensures met { (p : PortView) → PortMeets (slice_index_or nic.old.ports core.old.pool.home.0 p) (slice_index_or nic.new.ports core.old.pool.home.0 p) core.old core.new }
{
    let number = core.pool.home();
    nic.meet_ends(number, &mut core.items, &mut core.posted);
}

// Tells the card and each core.
fn meet_card<G: GroupStack>(nic: &mut Nic, cores: &mut [Core<G>])
    requires { AreInOrder nic.old cores.old }
    ensures { CardMeets (length cores.old) nic.old nic.new cores.old cores.new }
{
    for c in 0..cores.len() {
        meet_port(nic, &mut cores[c]);
    }
}

/// Tells the card and all cores, in order, what stands in the rings between them. Afterwards each end that takes knows all that the other
/// end put and it didn't take yet, and each end that puts knows all free places. Nothing else changes, and no memory is taken.
pub fn meet_all<G: GroupStack>(nic: &mut Nic, cores: &mut [Core<G>])
    requires { AreInOrder nic.old cores.old }
    ensures order { AreInOrder nic.new cores.new }
    ensures told { AllAreTold nic.new cores.new }
    ensures card { CardLearned nic.old nic.new }
    ensures cores { CoresLearned cores.old cores.new }
    ensures weights { (c : ℕ) (d : Core G G.Env) → WeighsTheSame G.weight (slice_index_or cores.old c d) (slice_index_or cores.new c d) }
{
    meet_mesh(cores);
    meet_card(nic, cores);
}
