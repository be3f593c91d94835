// The course of a play.
ghost use Rattle.std.specs.Prelude.{◌≡◌, ◌<◌, ◌≤◌, IfOk, length};
ghost use Rattle.ix_engine.specs.Courses.{CanGoOn, engine_of};
ghost use Rattle.ix_engine.specs.Steps.{EpochStep, EpochSteps};

use crate::settling::settle_cores;
use ix_base::NoMemory;
use ix_core::Core;
use ix_epochs::{epochs_are_ready, run_epoch, settles_are_ready};
use ix_fed::courses_go_on;
use ix_feed::{Replay, cards_stay_fed};
use ix_lines::SettleLine;
use ix_nic::Nic;
use ix_plainstack::{PlainStack, StackEnv};
use ix_run::Gate;
use std::alloc::Global;
use std::sync::Wait;
use std::thread::Threads;

/// The card, the wire list that it is fed, and the cores, in order.
#[derive(Drop)]
pub struct Machine {
    pub nic: Nic,
    pub replay: Replay,
    pub cores: Vec<Core<PlainStack>>,
}

// One epoch, and its settle.
#[tactic(auto, using(crate::proofs::Going::for_epochs))]
fn step<R: Threads + Wait + Sync, T: Gate + Sync>(
    rt: &R,
    alloc: Global,
    env: &StackEnv,
    machine: Machine,
    gate: &T,
) -> Result<(Machine, SettleLine), NoMemory>
    requires can { CanGoOn (engine_of machine) }
    requires more { length machine.replay.lines < length machine.replay.entries }
    ensures step { IfOk result (λ r. EpochStep env.now (engine_of machine) (engine_of r.0) r.1) }
    ensures can { IfOk result (λ r. CanGoOn (engine_of r.0)) }
    ensures entries { IfOk result (λ r. r.0.replay.entries ≡ machine.replay.entries) }
    ensures grows { IfOk result (λ r. length machine.replay.lines < length r.0.replay.lines) }
{
    let Machine {
        nic,
        mut replay,
        cores,
    } = machine;
    replay.begin();
    let (mut nic, replay, mut cores) = run_epoch(rt, alloc, env, nic, replay, cores, gate)?;
    epochs_are_ready::<PlainStack>();
    settles_are_ready::<PlainStack>();
    cards_stay_fed();
    courses_go_on();
    let line = settle_cores(alloc, &mut nic, &mut cores)?;
    Ok((Machine { nic, replay, cores }, line))
}

/// Runs the epochs of all entries that are left, and settles after each. The settles are told behind those from before, in order.
#[tactic(auto, using(crate::proofs::Going::for_loops))]
pub fn run_epochs<R: Threads + Wait + Sync, T: Gate + Sync>(
    rt: &R,
    alloc: Global,
    env: &StackEnv,
    machine: Machine,
    gate: &T,
) -> Result<(Machine, Vec<SettleLine>), NoMemory>
    requires can { CanGoOn (engine_of machine) }
    ensures steps { IfOk result (λ r. EpochSteps env.now (engine_of machine) r.1.items (engine_of r.0)) }
    ensures can { IfOk result (λ r. CanGoOn (engine_of r.0)) }
    ensures out { IfOk result (λ r. length r.0.replay.entries ≤ length r.0.replay.lines) }
{
    let mut settles = Vec::new(alloc);
    let mut now = machine;
    while now.replay.lines().len() < now.replay.entries().len() {
        let (next, line) = step(rt, alloc, env, now, gate)?;
        settles.push(line)?;
        now = next;
    }
    Ok((now, settles))
}
