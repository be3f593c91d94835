// The workers of an epoch.
ghost use Rattle.std.specs.Prelude.{◌≡◌, ℕ, ◌<◌, ◌≤◌, ◌↔◌, length, true, IsErr, slice_index_or, Any};

use crate::actors::{Actor, Gate};
use crate::leaving::{MOST_TURNS, leaves};
use ix_base::NoMemory;
use std::thread;
use std::thread::Threads;

/// Runs each actor in a worker of its own, and joins them all. Afterwards each actor stands to what it was in its relation of own turns,
/// whatever the gate answers. Where no thread can be started, the workers run one after the other.
pub fn epoch<R: Threads + Sync, A: Actor + Send, G: Gate + Sync>(
    rt: &R,
    env: &A::Env,
    actors: &mut [A],
    gate: &G,
) -> Result<(), NoMemory>
where
    A::Env: Sync,
    requires { 1 ≤ length actors.old }
    ensures own { (i : ℕ) (d : A) → i < length actors.old → A.became env.now (slice_index_or actors.old i d) (slice_index_or actors.new i d) }
    ensures failed { IsErr result ↔ Any (λ a. A.has_failed a ≡ true) actors.new }
{
    let count = actors.len();
    let work = |place: usize, actor: &mut A|
        ensures { A.became env.entry.now actor.old actor.new }
    { worker(env, u32::try_from(place).unwrap_or(u32::MAX), actor, gate) };
    thread::for_each_mut(rt, actors, count, &work);
    any_failed(actors)
}

fn any_failed<A: Actor>(actors: &[A]) -> Result<(), NoMemory>
    ensures { IsErr result ↔ Any (λ a. A.has_failed a ≡ true) actors.now }
{
    if actors.iter().any(|actor| actor.failed()) {
        return Err(NoMemory);
    }
    Ok(())
}

// The turns of one worker, until it leaves.
fn worker<A: Actor, G: Gate>(env: &A::Env, number: u32, actor: &mut A, gate: &G)
    ensures { A.became env.now actor.old actor.new }
{
    let mut idle = 0;
    for turn in 0..MOST_TURNS {
        if !gate.enter(number, turn) {
            return;
        }
        let answer = actor.turn(env);
        if leaves(&mut idle, answer) {
            return;
        }
    }
}
