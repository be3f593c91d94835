// The card and the cores as workers, and as themselves again.
ghost use Rattle.std.specs.Prelude.{◌≡◌, ◌<◌, length, IfOk, OnOk};
ghost use Rattle.ix_epochs.specs.Workers.{CoresBecame, IsCrew, WorkersBecame, crew};
ghost use Rattle.ix_feed.specs.Turns.{FeedBecame};

use crate::worker::Worker;
use ix_base::NoMemory;
use ix_core::Core;
use ix_feed::Feed;
use ix_run::{Gate, epoch};
use ix_stack::GroupStack;
use std::alloc::Global;
use std::thread::Threads;

fn packed<G: GroupStack>(
    alloc: Global,
    feed: Feed,
    cores: Vec<Core<G>>,
) -> Result<Vec<Worker<G>>, NoMemory>
    ensures { IfOk result (λ workers. workers.items ≡ crew feed cores.items) }
{
    let mut workers = Vec::new(alloc);
    workers.push(Worker::Card(feed))?;
    for core in cores {
        workers.push(Worker::Core(core))?;
    }
    Ok(workers)
}

fn unpacked<G: GroupStack>(
    alloc: Global,
    mut workers: Vec<Worker<G>>,
) -> Result<(Feed, Vec<Core<G>>), NoMemory>
    requires { IsCrew workers.items }
    ensures { IfOk result (λ r. workers.items ≡ crew r.0 r.1.items) }
{
    let first = workers.remove(0);
    let mut cores = Vec::new(alloc);
    for worker in workers {
        match worker {
            Worker::Core(core) => cores.push(core)?,
            Worker::Card(_) => unreachable!(),
        }
    }
    match first {
        Worker::Card(feed) => Ok((feed, cores)),
        Worker::Core(_) => unreachable!(),
    }
}

// All workers make their turns.
fn work<R: Threads + Sync, G: GroupStack + Send, T: Gate + Sync>(
    rt: &R,
    env: &G::Env,
    workers: &mut Vec<Worker<G>>,
    gate: &T,
) -> Result<(), NoMemory>
where
    G::Env: Sync,
    requires { 0 < length workers.old.items }
    ensures { WorkersBecame G.counted G.name G.stepped G.advanced G.drained env.now workers.old.items workers.new.items }
{
    epoch(rt, env, workers.as_mut_slice(), gate)
}

/// The card and the cores make turns, each in a thread of its own, as far as the gate lets them.
pub fn in_workers<R: Threads + Sync, G: GroupStack + Send, T: Gate + Sync>(
    rt: &R,
    alloc: Global,
    env: &G::Env,
    feed: Feed,
    cores: Vec<Core<G>>,
    gate: &T,
) -> Result<(Feed, Vec<Core<G>>), NoMemory>
where
    G::Env: Sync,
    ensures feed { IfOk result (λ r. FeedBecame feed r.0) }
    ensures cores { IfOk result (λ r. CoresBecame G.counted G.name G.stepped G.advanced G.drained env.now cores.items r.1.items) }
{
    let mut workers = packed(alloc, feed, cores)?;
    work(rt, env, &mut workers, gate)?;
    unpacked(alloc, workers)
}
