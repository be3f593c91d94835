// What an epoch asks of its actors and of its gate.
use ix_base::NoMemory;

/// What a turn did. `frames` is the number of frames that it carried out.
#[derive(Clone, Copy, Debug, PartialEq, Eq)]
pub enum Turn {
    /// The actor has nothing more to do in this epoch.
    Ended { frames: u16 },
    /// There was nothing to do.
    Idle,
    /// Something was done, and more may follow.
    Worked { frames: u16 },
}

/// A state that only its own turns change.
///
/// An actor says what turns of its own may make of it by a relation that holds between a state and itself, and over two runs of turns
/// one after the other; each turn keeps it, whether it answers `Ok` or finds no memory.
pub trait Actor {
    ghost use Rattle.std.specs.Prelude.{◌≡◌, ◌||◌, Bool, is_err};

    /// What all actors of an epoch read.
    type Env;

    /// `became env x y`: turns of its own in `env` may take the actor from `x` to `y`.
    ghost became: { Self.Env → Self → Self → Type 0 };

    /// Whether a turn of this actor has answered `NoMemory`.
    ghost has_failed: { Self → Bool };

    /// Makes one turn.
    fn turn(&mut self, env: &Self::Env) -> Result<Turn, NoMemory>
        ensures own { became env.now self.old self.new }
        ensures failed { has_failed self.new ≡ (has_failed self.old || is_err result) };

    /// Whether a turn of this actor has answered `NoMemory`.
    fn failed(&self) -> bool
        ensures { result ≡ has_failed self.now };

    ghost stays: { (env : Self.Env) (x : Self) → became env x x };

    ghost joins: { (env : Self.Env) (x y z : Self) → became env x y → became env y z → became env x z };
}

/// Asked before each turn of a worker. An actor's number is its place in the list of actors, and its turns are counted from 0 in each
/// epoch. The answers decide only which turns the workers make.
pub trait Gate {
    /// Whether this actor may make this turn; where not, its worker leaves the epoch.
    fn enter(&self, actor: u32, turn: u64) -> bool;
}
