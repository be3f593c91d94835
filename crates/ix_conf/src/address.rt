// Hardware addresses and IPv4 addresses as text.
ghost use Rattle.std.specs.Prelude.{◌≡◌, ◌<◌, ◌==◌, IfSome, length, position};
ghost use Rattle.ix_conf.specs.Address.{hex_digit, hex_pair, mac_of, is_digit, octet_of, octet_from, split_at_dot, ip_of};

/// The value of a hexadecimal digit, in either case.
fn hex_digit(letter: u8) -> Option<u8>
    ensures value { result ≡ hex_digit letter }
    ensures bound { IfSome result (λ value. value < 16) }
{
    match letter {
        b'0'..=b'9' => Some(letter - b'0'),
        b'a'..=b'f' => Some(letter - b'a' + 10),
        b'A'..=b'F' => Some(letter - b'A' + 10),
        _ => None,
    }
}

/// The byte that two hexadecimal digits give.
fn hex_pair(high: u8, low: u8) -> Option<u8>
    ensures { result ≡ hex_pair high low }
{
    match (hex_digit(high), hex_digit(low)) {
        (Some(high), Some(low)) => Some(16 * high + low),
        _ => None,
    }
}

/// The hardware address that six pairs of hexadecimal digits give, joined by `:`.
#[tactic(auto, unfolding(crate::specs::Address::mac_of))]
pub fn mac_of(text: &[u8]) -> Option<[u8; 6]>
    ensures { result ≡ mac_of text.now }
{
    if text.len() != 17 {
        return None;
    }
    if text[2] != b':'
        || text[5] != b':'
        || text[8] != b':'
        || text[11] != b':'
        || text[14] != b':'
    {
        return None;
    }
    Some([
        hex_pair(text[0], text[1])?,
        hex_pair(text[3], text[4])?,
        hex_pair(text[6], text[7])?,
        hex_pair(text[9], text[10])?,
        hex_pair(text[12], text[13])?,
        hex_pair(text[15], text[16])?,
    ])
}

fn is_digit(letter: u8) -> bool
    ensures { result ≡ is_digit letter }
{
    letter >= b'0' && letter <= b'9'
}

/// The number of 0 to 255 that a value and the digits behind it give.
fn octet_from(value: u8, digits: &[u8]) -> Option<u8>
    ensures { result ≡ octet_from value digits.now }
{
    let mut octet = value;
    for digit in digits {
        if !is_digit(*digit) || octet == 0 {
            return None;
        }
        let more = 10 * octet as u16 + (*digit - b'0') as u16;
        if more > 255 {
            return None;
        }
        octet = more as u8;
    }
    Some(octet)
}

/// The number of 0 to 255 that decimal digits give, without leading zeros.
fn octet_of(digits: &[u8]) -> Option<u8>
    ensures { result ≡ octet_of digits.now }
{
    match digits {
        [first, rest @ ..] if is_digit(*first) => octet_from(*first - b'0', rest),
        _ => None,
    }
}

/// The place of the first dot.
fn dot_in(text: &[u8]) -> Option<usize>
    ensures place { result ≡ position (λ letter. letter == 46) text.now }
    ensures within { IfSome result (λ at. at < length text.now) }
{
    text.iter().position(|letter| *letter == b'.')
}

/// What stands before the first dot, and what stands behind it.
fn split_at_dot(text: &[u8]) -> (&[u8], &[u8])
    ensures before { result.0.now ≡ (split_at_dot text.now).0 }
    ensures behind { result.1.now ≡ (split_at_dot text.now).1 }
{
    match dot_in(text) {
        Some(at) => (&text[..at], &text[at + 1..]),
        None => (text, &[]),
    }
}

/// The IPv4 address that four numbers of 0 to 255 give, joined by `.`, the first of them highest.
#[tactic(auto, unfolding(crate::specs::Address::ip_of))]
pub fn ip_of(text: &[u8]) -> Option<u32>
    ensures { result ≡ ip_of text.now }
{
    let (first, rest) = split_at_dot(text);
    let (second, rest) = split_at_dot(rest);
    let (third, fourth) = split_at_dot(rest);
    let octets = (
        octet_of(first),
        octet_of(second),
        octet_of(third),
        octet_of(fourth),
    );
    match octets {
        (Some(a), Some(b), Some(c), Some(d)) => Some(
            ((a as u32 * 256 + b as u32) * 256 + c as u32) * 256 + d as u32,
        ),
        _ => None,
    }
}
