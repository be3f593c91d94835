use super::*;
use ix_base::NoMemory;
use ix_run::{Actor, Gate, Turn, epoch};
use std::alloc::Global;
use std::process::Abort;
use std::sync::Wait;
use std::sync::atomic::{AtomicBool, AtomicU64, Ordering};
use std::test::Fail;
use std::thread::Threads;

// A gate that is open to both.
#[derive(Drop)]
struct Open;

impl Gate for Open {
    fn enter(&self, _actor: u32, _turn: u64) -> bool {
        true
    }
}

// A gate that stops the receiver at once.
#[derive(Drop)]
struct SenderAlone;

impl Gate for SenderAlone {
    fn enter(&self, actor: u32, _turn: u64) -> bool {
        actor == 0
    }
}

// A gate that stops the sender after some turns.
#[derive(Drop)]
struct SenderUntil(u64);

impl Gate for SenderUntil {
    fn enter(&self, actor: u32, turn: u64) -> bool {
        actor != 0 || turn < self.0
    }
}

// A gate that lets each make its next turn once the other has begun as many, or after some looks.
#[derive(Drop)]
struct InTurn {
    sender: AtomicU64,
    receiver: AtomicU64,
}

impl Gate for InTurn {
    fn enter(&self, actor: u32, turn: u64) -> bool {
        let (own, other) = if actor == 0 {
            (&self.sender, &self.receiver)
        } else {
            (&self.receiver, &self.sender)
        };
        own.store(turn, Ordering::SeqCst);
        for _ in 0..200 {
            if other.load(Ordering::SeqCst) >= turn {
                return true;
            }
        }
        true
    }
}

// A gate that holds each worker's first turn until the other's was asked for, for a bounded number of looks.
#[derive(Drop)]
struct Meeting {
    sender: AtomicBool,
    receiver: AtomicBool,
    missed: AtomicBool,
}

impl Gate for Meeting {
    fn enter(&self, actor: u32, turn: u64) -> bool {
        if turn > 0 {
            return true;
        }
        let (own, other) = if actor == 0 {
            (&self.sender, &self.receiver)
        } else {
            (&self.receiver, &self.sender)
        };
        own.store(true, Ordering::SeqCst);
        for _ in 0..200_000_000u32 {
            if other.load(Ordering::SeqCst) {
                return true;
            }
        }
        self.missed.store(true, Ordering::SeqCst);
        false
    }
}

// The numbers below `count` go through a ring of 8.
fn hands_over<R: Threads + Wait + Abort + Sync, G: Gate + Sync>(
    rt: &R,
    alloc: Global,
    count: u32,
    gate: &G,
) -> Result<(), NoMemory> {
    let mut items = Vec::new(alloc);
    for item in 0..count {
        items.push(item)?;
    }
    let got = relay(rt, alloc, 8, items, gate)?;
    assert_eq!(rt; got.len(), count as usize);
    for (place, item) in got.iter().enumerate() {
        assert_eq!(rt; *item as usize, place);
    }
    Ok(())
}

#[test]
fn whatever_the_gate(rt: HostRuntime) -> Result<(), Fail> {
    for count in [1, 2, 512, 100_000] {
        hands_over(&rt, rt.alloc(), count, &Open)?;
        hands_over(&rt, rt.alloc(), count, &SenderAlone)?;
        hands_over(&rt, rt.alloc(), count, &SenderUntil(u64::from(count) / 2))?;
        let in_turn = InTurn {
            sender: AtomicU64::new(0),
            receiver: AtomicU64::new(0),
        };
        hands_over(&rt, rt.alloc(), count, &in_turn)?;
    }
    Ok(())
}

#[test]
fn two_workers_meet(rt: HostRuntime) -> Result<(), Fail> {
    let gate = Meeting {
        sender: AtomicBool::new(false),
        receiver: AtomicBool::new(false),
        missed: AtomicBool::new(false),
    };
    hands_over(&rt, rt.alloc(), 512, &gate)?;
    assert!(rt; gate.sender.load(Ordering::SeqCst));
    assert!(rt; gate.receiver.load(Ordering::SeqCst));
    assert!(rt; !gate.missed.load(Ordering::SeqCst));
    Ok(())
}

// An actor that counts its turns. It works at one turn, ends or finds no memory at another, and else is idle.
#[derive(Drop)]
struct Counting {
    turns: u64,
    works_at: u64,
    ends_at: u64,
    fails_at: u64,
    failed: bool,
}

impl Actor for Counting {
    ghost use Rattle.std.specs.Prelude.{◌≤◌, ◌≡◌, ◌||◌};
    ghost use Rattle.std.proofs.Common.{arith};

    type Env = ();

    ghost became = { λ _ x y. x.turns ≤ y.turns };

    ghost has_failed = { λ x. x.failed };

    fn turn(&mut self, _env: &()) -> Result<Turn, NoMemory> {
        self.turns = self.turns.saturating_add(1);
        if self.turns == self.fails_at {
            self.failed = true;
            return Err(NoMemory);
        }
        if self.turns == self.ends_at {
            return Ok(Turn::Ended { frames: 0 });
        }
        if self.turns == self.works_at {
            return Ok(Turn::Worked { frames: 0 });
        }
        Ok(Turn::Idle)
    }

    fn failed(&self) -> bool {
        self.failed
    }

    ghost stays = { λ _ x. Prim.omega arith };

    ghost joins = { λ _ x y z p q. Prim.omega (arith, p, q) };
}

fn new_actor(works_at: u64, ends_at: u64, fails_at: u64) -> Counting {
    Counting {
        turns: 0,
        works_at,
        ends_at,
        fails_at,
        failed: false,
    }
}

#[test]
fn a_worker_leaves(rt: HostRuntime) -> Result<(), Fail> {
    // idle 9,999 times, then at work once, then idle 10,000 times; ended at its 5th turn; idle from the start
    let mut actors = [
        new_actor(10_000, 0, 0),
        new_actor(0, 5, 0),
        new_actor(0, 0, 0),
    ];
    assert!(rt; epoch(&rt, &(), &mut actors, &Open).is_ok());
    let [first, second, third] = actors;
    assert_eq!(rt; first.turns, 20_000);
    assert_eq!(rt; second.turns, 5);
    assert_eq!(rt; third.turns, 10_000);

    // no memory at its 3rd turn; stopped by the gate after 4 turns
    let mut actors = [new_actor(0, 9, 0), new_actor(0, 0, 3)];
    assert!(rt; epoch(&rt, &(), &mut actors, &SenderUntil(4)).is_err());
    let [first, second] = actors;
    assert_eq!(rt; first.turns, 4);
    assert_eq!(rt; second.turns, 3);
    Ok(())
}
