// An epoch: in workers, and then on the caller's thread.
ghost use Rattle.std.specs.Prelude.{◌≡◌, ◌&&◌, not, true, IfOk, OnOk};
ghost use Rattle.ix_feed.specs.Replays.{CanFeed, feed_view};
ghost use Rattle.ix_feed.specs.Turns.{FeedBecame};
ghost use Rattle.ix_core.specs.Meeting.{AllAreTold, AreInOrder, CoresLearned};
ghost use Rattle.ix_epochs.specs.Epochs.{EpochRan, HasEnded};
ghost use Rattle.ix_epochs.specs.Rest.{AllRest, is_idle, keeps_aside, link_has, link_keeps, ring_has, rings_have};
ghost use Rattle.std.specs.List.{list_any};
ghost use Rattle.ix_epochs.specs.Workers.{CoresBecame};

use crate::crew::in_workers;
use ix_base::NoMemory;
use ix_core::{Core, Link, meet_all, order_stays};
use ix_feed::{Feed, Replay, cards_stay_fed, feed};
use ix_nic::Nic;
use ix_run::{Gate, Turn};
use ix_stack::GroupStack;
use std::alloc::Global;
use std::sync::Wait;
use std::thread::Threads;

// Whether a flow group that came over a link is kept aside.
fn links_keep<G: GroupStack>(links: &[Link<G>]) -> bool
    ensures { result ≡ list_any link_keeps links.now }
{
    links.iter().any(|link| !link.ships.is_empty())
}

// Whether a core keeps something aside that came before its turn, or a flow group that has nowhere to go.
fn keeps_aside<G: GroupStack>(core: &Core<G>) -> bool
    ensures { result ≡ keeps_aside core.now }
{
    let keeps = links_keep(core.links.as_slice());
    !core.came.is_empty() || !core.lost.is_empty() || keeps
}

// Whether others rest, and a core had nothing to do in its last turn and keeps nothing aside.
fn still_rest<G: GroupStack>(others: bool, turn: Turn, core: &Core<G>) -> bool
    ensures { result ≡ (others && (is_idle turn && not (keeps_aside core.now))) }
{
    let keeps = keeps_aside(core);
    others && turn == Turn::Idle && !keeps
}

// Whether a link has something for its core.
fn links_have<G: GroupStack>(links: &[Link<G>]) -> bool
    ensures { result ≡ list_any link_has links.now }
{
    links.iter().any(|link| link.take.known_count() > 0)
}

// Whether something is known to be on a ring that a core takes from.
fn ring_has<G: GroupStack>(core: &Core<G>) -> bool
    ensures { result ≡ ring_has core.now }
{
    let links = links_have(core.links.as_slice());
    core.items.known_count() > 0 || links
}

// The same of any core.
fn rings_have<G: GroupStack>(cores: &[Core<G>]) -> bool
    ensures { result ≡ rings_have cores.now }
{
    cores.iter().any(|core| ring_has(core))
}

// Each core makes a turn, in order. Answers whether none had anything to do, and none keeps anything aside.
fn turn_cores<G: GroupStack>(env: &G::Env, cores: &mut [Core<G>]) -> Result<bool, NoMemory>
    ensures became { CoresBecame G.counted G.name G.stepped G.advanced G.drained env.now cores.old cores.new }
    ensures rest { IfOk result (λ rest. rest ≡ true → AllRest G.drained cores.new) }
{
    let mut all_rest = true;
    for place in 0..cores.len() {
        let core = &mut cores[place];
        let turn = core.turn(env)?;
        all_rest = still_rest(all_rest, turn, core);
    }
    Ok(all_rest)
}

// Both ends of each ring are told what stands in it, and the card can be fed as before.
fn meet<G: GroupStack>(nic: &mut Nic, replay: &Replay, cores: &mut [Core<G>])
    requires order { AreInOrder nic.old cores.old }
    requires feed { CanFeed nic.old replay.now }
    ensures order { AreInOrder nic.new cores.new }
    ensures told { AllAreTold nic.new cores.new }
    ensures feed { CanFeed nic.new replay.now }
    ensures became { FeedBecame (feed_view nic.old replay.now) (feed_view nic.new replay.now) }
    ensures ended { HasEnded nic.old replay.now → HasEnded nic.new replay.now }
    ensures cores { CoresLearned cores.old cores.new }
{
    cards_stay_fed();
    meet_all(nic, cores);
}

// Each core and the card make a turn. Answers whether all are at rest.
fn round<G: GroupStack>(
    env: &G::Env,
    nic: &mut Nic,
    replay: &mut Replay,
    cores: &mut [Core<G>],
) -> Result<bool, NoMemory>
    requires order { AreInOrder nic.old cores.old }
    requires feed { CanFeed nic.old replay.old }
    ensures order { OnOk result (AreInOrder nic.new cores.new) }
    ensures feed { OnOk result (CanFeed nic.new replay.new) }
    ensures became { OnOk result (FeedBecame (feed_view nic.old replay.old) (feed_view nic.new replay.new)) }
    ensures cores { OnOk result (CoresBecame G.counted G.name G.stepped G.advanced G.drained env.now cores.old cores.new) }
    ensures rest { IfOk result (λ rest. rest ≡ true → HasEnded nic.new replay.new × AllRest G.drained cores.new) }
{
    order_stays::<G>();
    let rest = turn_cores(env, cores)?;
    let turn = feed(nic, replay);
    Ok(rest && matches!(turn, Turn::Ended { frames: _ }))
}

// The rest of an epoch, by turns, one actor after the other. It is over where a round left all at rest and then no ring has anything.
fn finish<R: Wait, G: GroupStack>(
    rt: &R,
    env: &G::Env,
    nic: &mut Nic,
    replay: &mut Replay,
    cores: &mut [Core<G>],
) -> Result<(), NoMemory>
    requires order { AreInOrder nic.old cores.old }
    requires feed { CanFeed nic.old replay.old }
    ensures feed { OnOk result (CanFeed nic.new replay.new) }
    ensures ran { OnOk result (EpochRan G.counted G.name G.stepped G.advanced G.drained env.now (feed_view nic.old replay.old) (feed_view nic.new replay.new) cores.old cores.new) }
{
    let mut at_rest = false;
    for _ in rt.forever() {
        meet(nic, replay, cores);
        if at_rest && !rings_have(cores) {
            return Ok(());
        }
        at_rest = round(env, nic, replay, cores)?;
    }
    unreachable!()
}

// The same of all cores.
fn finish_all<R: Wait, G: GroupStack>(
    rt: &R,
    env: &G::Env,
    nic: &mut Nic,
    replay: &mut Replay,
    cores: &mut Vec<Core<G>>,
) -> Result<(), NoMemory>
    requires order { AreInOrder nic.old cores.old.items }
    requires feed { CanFeed nic.old replay.old }
    ensures feed { OnOk result (CanFeed nic.new replay.new) }
    ensures ran { OnOk result (EpochRan G.counted G.name G.stepped G.advanced G.drained env.now (feed_view nic.old replay.old) (feed_view nic.new replay.new) cores.old.items cores.new.items) }
{
    finish(rt, env, nic, replay, cores.as_mut_slice())
}

/// Runs an epoch of a card that is fed a wire list, and its cores: they make their turns in workers, as far as the gate lets them, and the rest
/// is done on the caller's thread. The epoch is over where the card has carried out all its entries and put the end, a round of turns finds all
/// cores at rest, and no ring has anything for them.
///
/// Memory is wanted for the list of workers, and by the cores' turns. It need not return: no clause says that turns come to rest.
pub fn run_epoch<R: Threads + Wait + Sync, G: GroupStack + Send, T: Gate + Sync>(
    rt: &R,
    alloc: Global,
    env: &G::Env,
    nic: Nic,
    replay: Replay,
    cores: Vec<Core<G>>,
    gate: &T,
) -> Result<(Nic, Replay, Vec<Core<G>>), NoMemory>
where
    G::Env: Sync,
    requires order { AreInOrder nic cores.items }
    requires feed { CanFeed nic replay }
    ensures feed { IfOk result (λ r. CanFeed r.0 r.1) }
    ensures ran { IfOk result (λ r. EpochRan G.counted G.name G.stepped G.advanced G.drained env.now (feed_view nic replay) (feed_view r.0 r.1) cores.items r.2.items) }
{
    order_stays::<G>();
    let fed = Feed::new(nic, replay);
    let (fed, mut cores) = in_workers(rt, alloc, env, fed, cores, gate)?;
    let (mut nic, mut replay) = fed.apart();
    finish_all(rt, env, &mut nic, &mut replay, &mut cores)?;
    Ok((nic, replay, cores))
}
