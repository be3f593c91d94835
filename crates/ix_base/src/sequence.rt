// Sequence numbers, which count modulo 2^32.
ghost use Rattle.std.specs.Prelude.{◌≡◌, ◌<◌, ◌-◌, ◌^◌, pos, negsuc, ◌+ℤ◌, ◌≤ℤ◌, ◌<ℤ◌};
ghost use Rattle.ix_base.specs.Sequence.{
  number,
  ahead as ahead_of,
  offset as offset_of,
  is_past as past_test,
  is_at_or_past as at_or_past_test,
  past_of,
  behind_of,
  is_next as next_test,
  lies_in as in_test,
  IsCongruent,
  IsDistance,
};

/// A sequence number: a number modulo 2^32 (RFC 9293, section 3.4). Two of them have no order of their own; how they stand to each other is
/// read from one of them as base, going the shorter way round.
#[derive(Clone, Copy, Debug, PartialEq, Eq)]
pub struct SeqNumber(pub u32);

impl SeqNumber {
    /// The number that is so many octets further on, modulo 2^32.
    pub fn advanced(self, by: u32) -> SeqNumber
        ensures { result.0 ≡ number self.0 by }
    {
        SeqNumber(self.0.wrapping_add(by))
    }

    /// The number of a position that is counted from this number: so many octets further on, modulo 2^32.
    pub fn at(self, position: u64) -> SeqNumber
        ensures { result.0 ≡ number self.0 position }
    {
        self.advanced((position % 0x1_0000_0000) as u32)
    }

    /// How many octets `other` is ahead of this number, going up: 0 to 2^32 - 1.
    pub fn ahead(self, other: SeqNumber) -> u32
        ensures { result ≡ ahead_of self.0 other.0 }
    {
        other.0.wrapping_sub(self.0)
    }

    /// How many octets `other` is ahead of this number, or behind it where negative, going the shorter way round: the number in
    /// -2^31 .. 2^31 - 1 that is equal to their difference modulo 2^32.
    pub fn offset(self, other: SeqNumber) -> i64
        ensures value { result ≡ offset_of self.0 other.0 }
        ensures low { negsuc (2 ^ 31 - 1) ≤ℤ result }
        ensures high { result <ℤ pos (2 ^ 31) }
        ensures congruent { IsCongruent (pos self.0 +ℤ result) (pos other.0) }
        ensures distance { IsDistance self.0 other.0 result }
    {
        let ahead = self.ahead(other);
        if ahead < 0x8000_0000 {
            i64::from(ahead)
        } else {
            i64::from(ahead) - 0x1_0000_0000
        }
    }

    /// Whether this number stands past `base`.
    #[tactic(auto, unfolding(crate::specs::Sequence::is_past))]
    pub fn is_past(self, base: SeqNumber) -> bool
        ensures { result ≡ past_test base.0 self.0 }
    {
        0 < base.offset(self)
    }

    /// Whether this number stands at `base` or past it.
    #[tactic(auto, unfolding(crate::specs::Sequence::is_at_or_past))]
    pub fn is_at_or_past(self, base: SeqNumber) -> bool
        ensures { result ≡ at_or_past_test base.0 self.0 }
    {
        0 <= base.offset(self)
    }
}

/// How many octets an offset reaches past its base: 0 where it is behind it.
pub fn past(offset: i64) -> u64
    ensures value { result ≡ past_of offset }
    ensures near { offset <ℤ pos (2 ^ 31) → result < 2 ^ 31 }
{
    if offset < 0 { 0 } else { offset as u64 }
}

/// How many octets an offset stays behind its base: 0 where it is at it or past it.
pub fn behind(offset: i64) -> u64
    ensures { result ≡ behind_of offset }
{
    if offset < 0 { offset.unsigned_abs() } else { 0 }
}

/// Whether an offset is that of the octet at its base.
pub fn is_next(offset: i64) -> bool
    ensures { result ≡ next_test offset }
{
    offset == 0
}

/// Whether an offset is that of an octet in a window of so many octets, which begins at its base.
pub fn lies_in(window: u16, offset: i64) -> bool
    ensures { result ≡ in_test window offset }
{
    0 <= offset && offset < i64::from(window)
}
