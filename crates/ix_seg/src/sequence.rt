// Sequence numbers, which count modulo 2^32.
ghost use Rattle.std.specs.Prelude.{◌≡◌, ◌-◌, ◌^◌, pos, negsuc, ◌+ℤ◌, ◌≤ℤ◌, ◌<ℤ◌};
ghost use Rattle.ix_base.specs.Sequence.{IsCongruent, IsDistance, offset as offset_of};

use ix_base::SeqNumber;

/// How far a sequence number is ahead of another, or behind it, the shorter way round: the number in -2^31 .. 2^31 - 1 that is equal to
/// `x - base` modulo 2^32 (RFC 9293, section 3.4).
pub fn offset(base: u32, x: u32) -> i64
    ensures value { result ≡ offset_of base x }
    ensures low { negsuc (2 ^ 31 - 1) ≤ℤ result }
    ensures high { result <ℤ pos (2 ^ 31) }
    ensures congruent { IsCongruent (pos base +ℤ result) (pos x) }
    ensures distance { IsDistance base x result }
{
    SeqNumber(base).offset(SeqNumber(x))
}
