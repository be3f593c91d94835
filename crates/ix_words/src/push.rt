// Words at the end of a text.
ghost use Rattle.std.specs.Prelude.{◌≡◌, ◌≤◌, ◌<◌, ◌++◌, ◌∷◌, [], OnOk, string_bytes};
ghost use Rattle.ix_words.specs.Numbers.{glyph, hex, hex8};
ghost use Rattle.ix_words.specs.Fields.{dotted, place};

use std::alloc::AllocError;
use std::fmt::Write;

/// An IPv4 address: four decimal numbers, the highest octet first, with points between.
#[tactic(auto, unfolding(crate::specs::Fields::dotted))]
pub fn push_dotted(out: &mut String, address: u32) -> Result<(), AllocError>
    ensures { OnOk result (string_bytes out.new ≡ string_bytes out.old ++ dotted address) }
{
    let a = address / 16777216;
    let b = address / 65536 % 256;
    let c = address / 256 % 256;
    let d = address % 256;
    write!(out, "{a}.{b}.{c}.{d}")
}

/// A place: two decimal numbers with a point between.
#[tactic(auto, unfolding(crate::specs::Fields::place))]
pub fn push_place(out: &mut String, high: u8, low: u32) -> Result<(), AllocError>
    ensures { OnOk result (string_bytes out.new ≡ string_bytes out.old ++ place (high, low)) }
{
    write!(out, "{high}.{low}")
}

fn glyph(d: u32) -> u8
    requires { d ≤ 15 }
    ensures is { result ≡ glyph d }
    ensures low { result < 128 }
{
    if d < 10 { 48 + d as u8 } else { 87 + d as u8 }
}

#[tactic(auto, using(std::proofs::lemmas::Str::encode_ascii))]
fn push_glyph(out: &mut String, d: u32) -> Result<(), AllocError>
    requires { d ≤ 15 }
    ensures { OnOk result (string_bytes out.new ≡ string_bytes out.old ++ glyph d ∷ []) }
{
    out.push(glyph(d) as char)
}

#[tactic(auto, using(crate::proofs::PushLaws::hex_steps))]
fn push_hex(out: &mut String, count: u8, n: u32) -> Result<(), AllocError>
    ensures { OnOk result (string_bytes out.new ≡ string_bytes out.old ++ hex count n) }
{
    if count > 0 {
        push_hex(out, count - 1, n / 16)?;
        push_glyph(out, n % 16)?;
    }
    Ok(())
}

/// A number as eight lower-case digits to the base 16.
#[tactic(auto, unfolding(crate::specs::Numbers::hex8))]
pub fn push_hex8(out: &mut String, n: u32) -> Result<(), AllocError>
    ensures { OnOk result (string_bytes out.new ≡ string_bytes out.old ++ hex8 n) }
{
    push_hex(out, 8, n)
}
