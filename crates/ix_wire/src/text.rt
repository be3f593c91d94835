// Lines, words and numbers.
ghost use Rattle.std.specs.Prelude.{◌≡◌, ◌<◌, ◌∷◌, length, slice_index, IfSome, IfNone};
ghost use Rattle.ix_wire.specs.Text.{NoFeed, lines_of, number_in};

use ix_words::number_of;

/// The highest number of a script.
const HIGHEST: u64 = 0xffff_ffff;

/// The place of the first line feed.
fn find_feed(bytes: &[u8]) -> Option<usize>
    ensures within { IfSome result (λ i. i < length bytes.now) }
    ensures found { IfSome result (λ i. slice_index bytes.now i ≡ 10) }
    ensures before { IfSome result (λ i. NoFeed bytes.now i) }
    ensures none { IfNone result (NoFeed bytes.now (length bytes.now)) }
{
    for (i, byte) in bytes.iter().enumerate() {
        if *byte == b'\n' {
            return Some(i);
        }
    }
    None
}

/// The first line of a text that is not empty, and what follows it.
#[tactic(auto, using(crate::proofs::TextLaws::line_steps))]
pub fn split_line(bytes: &[u8]) -> (&[u8], &[u8])
    requires { 0 < length bytes.now }
    ensures split { lines_of bytes.now ≡ result.0.now ∷ lines_of result.1.now }
    ensures shorter { length result.1.now < length bytes.now }
{
    let i = match find_feed(bytes) {
        Some(i) => i,
        None => return (bytes, &[]),
    };
    if i > 0 && bytes[i - 1] == b'\r' {
        return (&bytes[..i - 1], &bytes[i + 1..]);
    }
    (&bytes[..i], &bytes[i + 1..])
}

/// The number that a word is, if it is one of 32 bits.
pub fn number_in(word: &[u8]) -> Option<u32>
    ensures { result ≡ number_in word.now }
{
    match number_of(word, HIGHEST) {
        Some(number) => Some(number as u32),
        None => None,
    }
}
