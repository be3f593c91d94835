// The options of a TCP header.
ghost use Rattle.std.specs.Prelude.{◌≡◌};
ghost use Rattle.ix_seg.specs.Options.{mss_of as mss_given};

use byteorder::{BigEndian, ByteOrder};

/// The maximum segment size that the options give.
pub fn mss_of(options: &[u8]) -> Option<u16>
    ensures { result ≡ mss_given options.now }
{
    let mut rest = options;
    while !rest.is_empty() {
        let kind = rest[0];
        if kind == 0 {
            return None;
        }
        if kind == 1 {
            rest = &rest[1..];
            continue;
        }
        if rest.len() < 2 {
            return None;
        }
        let len = rest[1] as usize;
        if len < 2 || rest.len() < len {
            return None;
        }
        if kind == 2 && len == 4 {
            return Some(BigEndian::read_u16(&rest[2..4]));
        }
        rest = &rest[len..];
    }
    None
}
