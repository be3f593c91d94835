// When a worker leaves its epoch.
ghost use Rattle.std.specs.Prelude.{◌≡◌, ◌<◌};
ghost use Rattle.ix_run.specs.Leaving.{idle_after, leaves_after};

use crate::actors::Turn;
use ix_base::NoMemory;

/// A worker leaves after as many turns in one epoch.
pub const MOST_TURNS: u64 = 4_294_967_295;

/// A worker leaves after as many idle turns in a row.
pub const MOST_IDLE_TURNS: u32 = 10_000;

// Counts the idle turns in a row, and tells whether the worker leaves after this answer.
pub fn leaves(idle: &mut u32, answer: Result<Turn, NoMemory>) -> bool
    requires { idle.old < MOST_IDLE_TURNS }
    ensures count { idle.new ≡ idle_after idle.old answer }
    ensures leaves { result ≡ leaves_after MOST_IDLE_TURNS idle.old answer }
{
    *idle = match answer {
        Ok(Turn::Idle) => *idle + 1,
        _ => 0,
    };
    match answer {
        Ok(Turn::Idle) => *idle >= MOST_IDLE_TURNS,
        Ok(Turn::Worked { frames: _ }) => false,
        Ok(Turn::Ended { frames: _ }) | Err(NoMemory) => true,
    }
}
