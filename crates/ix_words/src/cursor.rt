// A cursor over the parts of a text.
ghost use Rattle.std.specs.Prelude.{◌≡◌, ◌≤◌, ◌∷◌, [], IfSome, MatchOption};
ghost use Rattle.std.specs.Option.{option_map};
ghost use Rattle.ix_words.specs.Parts.{parts, parts_after};
ghost use Rattle.ix_words.specs.Numbers.{number_of, hex8_of};
ghost use Rattle.ix_words.specs.Fields.{with_rest, behind_word, field_of, named_field, ended, dotted_of, place_of};

use crate::number::{hex8_of, number_of};
use crate::part::split_part;
use std::marker::Model;

/// The parts of a text that are still to be read, in their order: words that blanks part, octets of an address that points part.
///
/// Each reader takes the next part, or the next two, and answers None where they aren't what it reads. Which parts are left is then
/// not said.
#[derive(Drop)]
pub struct Parts<'a> {
    mark: u8,
    rest: Option<&'a [u8]>,
}

impl<'a> Model for Parts<'a> {
    ghost use Rattle.std.specs.Prelude.{ℕ, List};
    ghost use Rattle.ix_words.specs.Parts.{parts_after};

    ghost Value = { List (List ℕ) };

    ghost view = { λ p. parts_after p.mark p.rest };
}

impl<'a> Parts<'a> {
    /// All parts of a text, which this mark parts.
    pub fn of(text: &'a [u8], mark: u8) -> Parts<'a>
        ensures { result ≡ parts mark text.now }
    {
        Parts {
            mark,
            rest: Some(text),
        }
    }

    /// A second cursor at the same place.
    pub fn fork(&self) -> Parts<'a>
        ensures { result ≡ self.now }
    {
        Parts {
            mark: self.mark,
            rest: self.rest,
        }
    }

    /// The next part, where one is left.
    pub fn next_part(&mut self) -> Option<&'a [u8]>
        ensures { MatchOption result (self.old ≡ []) (λ part. self.old ≡ part.now ∷ self.new) }
    {
        let text = self.rest?;
        let (part, rest) = split_part(text, self.mark);
        self.rest = rest;
        Some(part)
    }

    /// Whether no part is left.
    #[tactic(auto, using(crate::specs::FieldLaws::none_ended))]
    pub fn end(&self) -> Option<()>
        ensures { result ≡ ended self.now }
    {
        match self.rest {
            None => Some(()),
            Some(_) => None,
        }
    }

    /// Takes this word.
    pub fn word(&mut self, word: &str) -> Option<()>
        ensures { option_map (λ _. self.new) result ≡ behind_word word.now self.old }
    {
        let part = self.next_part()?;
        if part == word.as_bytes() {
            Some(())
        } else {
            None
        }
    }

    /// A decimal number up to a highest.
    pub fn number(&mut self, high: u64) -> Option<u64>
        requires { 9 ≤ high }
        ensures is { with_rest self.new result ≡ field_of (number_of high) self.old }
        ensures high { IfSome result (λ n. n ≤ high) }
    {
        let part = self.next_part()?;
        number_of(part, high)
    }

    /// A decimal number of 8 bits.
    pub fn next_u8(&mut self) -> Option<u8>
        ensures { with_rest self.new result ≡ field_of (number_of 255) self.old }
    {
        let n = self.number(255)?;
        Some(n as u8)
    }

    /// A decimal number of 16 bits.
    pub fn next_u16(&mut self) -> Option<u16>
        ensures { with_rest self.new result ≡ field_of (number_of 65535) self.old }
    {
        let n = self.number(65_535)?;
        Some(n as u16)
    }

    /// A decimal number of 32 bits.
    pub fn next_u32(&mut self) -> Option<u32>
        ensures { with_rest self.new result ≡ field_of (number_of 4294967295) self.old }
    {
        let n = self.number(4_294_967_295)?;
        Some(n as u32)
    }

    /// A decimal number of 64 bits.
    pub fn next_u64(&mut self) -> Option<u64>
        ensures { with_rest self.new result ≡ field_of (number_of 18446744073709551615) self.old }
    {
        self.number(u64::MAX)
    }

    /// A decimal number up to a highest, behind its name.
    pub fn named_number(&mut self, name: &str, high: u64) -> Option<u64>
        requires { 9 ≤ high }
        ensures is { with_rest self.new result ≡ named_field name.now (number_of high) self.old }
        ensures high { IfSome result (λ n. n ≤ high) }
    {
        self.word(name)?;
        self.number(high)
    }

    /// A decimal number of 8 bits, behind its name.
    pub fn named_u8(&mut self, name: &str) -> Option<u8>
        ensures { with_rest self.new result ≡ named_field name.now (number_of 255) self.old }
    {
        self.word(name)?;
        self.next_u8()
    }

    /// A decimal number of 16 bits, behind its name.
    pub fn named_u16(&mut self, name: &str) -> Option<u16>
        ensures { with_rest self.new result ≡ named_field name.now (number_of 65535) self.old }
    {
        self.word(name)?;
        self.next_u16()
    }

    /// A decimal number of 32 bits, behind its name.
    pub fn named_u32(&mut self, name: &str) -> Option<u32>
        ensures { with_rest self.new result ≡ named_field name.now (number_of 4294967295) self.old }
    {
        self.word(name)?;
        self.next_u32()
    }

    /// A decimal number of 64 bits, behind its name.
    pub fn named_u64(&mut self, name: &str) -> Option<u64>
        ensures { with_rest self.new result ≡ named_field name.now (number_of 18446744073709551615) self.old }
    {
        self.word(name)?;
        self.next_u64()
    }

    /// A number of 32 bits as eight digits to the base 16, behind its name.
    pub fn named_hex(&mut self, name: &str) -> Option<u32>
        ensures { with_rest self.new result ≡ named_field name.now hex8_of self.old }
    {
        self.word(name)?;
        let part = self.next_part()?;
        hex8_of(part)
    }

    /// An IPv4 address, behind its name.
    pub fn named_address(&mut self, name: &str) -> Option<u32>
        ensures { with_rest self.new result ≡ named_field name.now dotted_of self.old }
    {
        self.word(name)?;
        let part = self.next_part()?;
        dotted_of(part)
    }

    /// Two decimal numbers up to their highest, with a point between.
    pub fn next_place(&mut self, high: u64, low: u64) -> Option<(u64, u64)>
        requires high { 9 ≤ high }
        requires low { 9 ≤ low }
        ensures is { with_rest self.new result ≡ field_of (place_of high low) self.old }
        ensures high { IfSome result (λ p. (p.0 ≤ high) × (p.1 ≤ low)) }
    {
        let part = self.next_part()?;
        place_of(part, high, low)
    }
}

/// The IPv4 address that a part is: four octets in decimal, the highest first.
#[tactic(auto, unfolding(crate::specs::Fields::four_of))]
pub fn dotted_of(part: &[u8]) -> Option<u32>
    ensures { result ≡ dotted_of part.now }
{
    let mut octets = Parts::of(part, b'.');
    let a = octets.next_u8()?;
    let b = octets.next_u8()?;
    let c = octets.next_u8()?;
    let d = octets.next_u8()?;
    octets.end()?;
    Some(u32::from_be_bytes([a, b, c, d]))
}

/// The two numbers up to their highest, with a point between, that a part is.
#[tactic(auto, unfolding(crate::specs::Fields::two_of))]
pub fn place_of(part: &[u8], high: u64, low: u64) -> Option<(u64, u64)>
    requires high { 9 ≤ high }
    requires low { 9 ≤ low }
    ensures is { result ≡ place_of high low part.now }
    ensures high { IfSome result (λ p. (p.0 ≤ high) × (p.1 ≤ low)) }
{
    let mut numbers = Parts::of(part, b'.');
    let a = numbers.number(high)?;
    let b = numbers.number(low)?;
    numbers.end()?;
    Some((a, b))
}
