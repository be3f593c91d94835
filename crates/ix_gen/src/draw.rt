// The numbers that a generated play draws.
ghost use Rattle.std.specs.Prelude.{◌≡◌, ◌≤◌};
ghost use Rattle.ix_gen.specs.Draws.{drawn, next};

/// The state behind one draw.
#[tactic(auto, unfolding(crate::specs::Draws::next))]
pub fn next(state: u32) -> u32
    ensures { result ≡ next state }
{
    ((1_664_525 * state as u64 + 1_013_904_223) % (1 << 32)) as u32
}

/// The length that a state gives.
#[tactic(auto, unfolding(crate::specs::Draws::drawn))]
pub fn drawn(state: u32) -> u16
    ensures is { result ≡ drawn state }
    ensures most { result ≤ 1000 }
{
    1 + (state / 65_536 % 1000) as u16
}
