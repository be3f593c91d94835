// What no clause says: that memory is enough, and that drawn entries are stepped once, in order, each on its stepper, and every buffer has one
// place at each settle and at the close.
mod alone;
mod drill;
mod opening;
mod play;
mod quiet;

use ix_run::Gate;
use play::Play;
use std::test::Fail;

// Lets each core make some turns.
#[derive(Drop)]
struct Turns(u64);

impl Gate for Turns {
    fn enter(&self, _actor: u32, turn: u64) -> bool {
        turn < self.0
    }
}

// Lets one core alone make some turns.
#[derive(Drop)]
struct OneCore(u32);

impl Gate for OneCore {
    fn enter(&self, actor: u32, turn: u64) -> bool {
        actor == self.0 && turn < 20
    }
}

#[test]
fn drawn_entries_and_turns(rt: HostRuntime) -> Result<(), Fail> {
    let mut play = Play::new(rt.alloc(), 7)?.settle(&rt)?;
    for _round in 0..20 {
        for _entry in 0..150 {
            play.entry_or_turn()?;
        }
        play = play.settle(&rt)?;
    }
    play.close(&rt)
}

#[test]
fn drawn_entries_and_epochs(rt: HostRuntime) -> Result<(), Fail> {
    let mut play = Play::new(rt.alloc(), 11)?.settle(&rt)?;
    for round in 0..20u32 {
        for _entry in 0..60 {
            play.entry()?;
        }
        play.drill.epoch(&rt, &play.room, &OneCore(round % 3))?;
        play.drill.meet();
        play.drill.epoch(&rt, &play.room, &Turns(10))?;
        play = play.settle(&rt)?;
    }
    play.close(&rt)
}
