// Words that are numbers.
ghost use Rattle.std.specs.Prelude.{◌≡◌, ◌≤◌, ◌<◌, ◌^◌, IfSome};
ghost use Rattle.ix_words.specs.Numbers.{number_of, glyph_value, hex8_of};

/// The decimal number up to a highest that a word is.
#[tactic(auto, unfolding(crate::specs::Numbers::number_of))]
pub fn number_of(word: &[u8], high: u64) -> Option<u64>
    requires { 9 ≤ high }
    ensures is { result ≡ number_of high word.now }
    ensures high { IfSome result (λ n. n ≤ high) }
{
    if word.is_empty() {
        return None;
    }
    if word[0] == b'0' && word.len() > 1 {
        return None;
    }
    let mut number: u64 = 0;
    for digit in word {
        if *digit < b'0' || *digit > b'9' {
            return None;
        }
        let last = (*digit - b'0') as u64;
        if number > (high - last) / 10 {
            return None;
        }
        number = 10 * number + last;
    }
    Some(number)
}

fn glyph_value(c: u8) -> Option<u32>
    ensures is { result ≡ glyph_value c }
    ensures low { IfSome result (λ d. d < 16) }
{
    if c >= b'0' && c <= b'9' {
        Some((c - b'0') as u32)
    } else if c >= b'a' && c < b'g' {
        Some((c - 87) as u32)
    } else {
        None
    }
}

/// The number that eight digits to the base 16 are.
#[tactic(auto, using(crate::proofs::HexLaws::hex_steps), unfolding(crate::specs::Numbers::hex8_of))]
pub fn hex8_of(word: &[u8]) -> Option<u32>
    ensures { result ≡ hex8_of word.now }
{
    if word.len() != 8 {
        return None;
    }
    let mut number: u32 = 0;
    for c in word {
        let digit = glyph_value(*c)?;
        number = 16 * number + digit;
    }
    Some(number)
}
