// The Internet checksum (RFC 1071).
ghost use Rattle.std.specs.Prelude.{◌≡◌, ◌+◌, ◌*◌, ◌<◌, ◌^◌, length};
ghost use Rattle.ix_ip.specs.Sum.{carried, word_sum, sum16_of, pseudo_header, transport_sum_of};

/// One's complement addition: the carry goes back in at the low end.
#[tactic(auto, using(crate::specs::SumLaws::carried_steps))]
fn ones_added(sum: u16, word: u16) -> u16
    ensures { result ≡ carried (sum + word) }
{
    let wide = sum as u32 + word as u32;
    (wide % 0x10000 + wide / 0x10000) as u16
}

/// The one's complement sum of a sum so far and the 16-bit words of the bytes, an odd end filled with a zero byte. So bytes in several
/// pieces are summed piece by piece, where each piece but the last has an even length.
pub fn ones_sum(start: u16, bytes: &[u8]) -> u16
    ensures { result ≡ carried (start + word_sum bytes.now) }
{
    let mut sum = start;
    let mut rest = bytes;
    while let [high, low, tail @ ..] = rest {
        sum = ones_added(sum, u16::from_be_bytes([*high, *low]));
        rest = tail;
    }
    match rest {
        [high, ..] => ones_added(sum, u16::from_be_bytes([*high, 0])),
        [] => sum,
    }
}

/// The Internet checksum of the bytes: the one's complement of their one's complement sum. It is 0 over bytes that hold their checksum.
pub fn sum16(bytes: &[u8]) -> u16
    ensures { result ≡ sum16_of bytes.now }
{
    0xffff - ones_sum(0, bytes)
}

/// The sum of the header that TCP and UDP sum before their own `len` bytes.
pub fn pseudo_sum(src: u32, dst: u32, protocol: u8, len: u16) -> u16
    ensures { result ≡ carried (word_sum (pseudo_header src dst protocol len)) }
{
    let [s0, s1, s2, s3] = src.to_be_bytes();
    let [d0, d1, d2, d3] = dst.to_be_bytes();
    let [l0, l1] = len.to_be_bytes();
    ones_sum(0, &[s0, s1, s2, s3, d0, d1, d2, d3, 0, protocol, l0, l1])
}

/// The checksum of TCP or UDP bytes with their pseudo header. It is 0 over bytes that hold their checksum.
pub fn transport_sum(src: u32, dst: u32, protocol: u8, bytes: &[u8]) -> u16
    requires { length bytes.now < 2 ^ 16 }
    ensures { result ≡ transport_sum_of src dst protocol bytes.now }
{
    let pseudo = pseudo_sum(src, dst, protocol, bytes.len() as u16);
    0xffff - ones_sum(pseudo, bytes)
}

#[cfg(test)]
mod tests {
    use super::{ones_sum, pseudo_sum, sum16, transport_sum};
    use std::test::Fail;

    #[test]
    fn worked_sums(rt: HostRuntime) -> Result<(), Fail> {
        // The example of RFC 1071, section 3, then with an odd byte more.
        let bytes = [0x00, 0x01, 0xf2, 0x03, 0xf4, 0xf5, 0xf6, 0xf7, 0xab];
        assert_eq!(rt; ones_sum(0, &bytes[..8]), 0xddf2);
        assert_eq!(rt; ones_sum(ones_sum(0, &bytes[..6]), &bytes[6..8]), 0xddf2);
        assert_eq!(rt; sum16(&bytes[..8]), 0x220d);
        assert_eq!(rt; sum16(&bytes), 0x770c);
        // Nothing sums to zero alone, and all ones stand for zero.
        assert_eq!(rt; sum16(&[]), 0xffff);
        assert_eq!(rt; sum16(&[0xff, 0xff]), 0);
        assert_eq!(rt; sum16(&[0xff, 0xff, 0xff, 0xff, 0, 1]), 0xfffe);
        assert_eq!(rt; pseudo_sum(0x4209_95bb, 0xa18e_6450, 6, 25), 0xddc2);
        // A TCP segment with its checksum, and the same with another last byte.
        let segment = [
            0x0a, 0xea, 0x06, 0xe6, 0, 0, 0x10, 0x01, 0x51, 0xcc, 0xc1, 0x79, 0x50, 0x18, 0xfa,
            0xf0, 0x5e, 0x4a, 0, 0, 0x68, 0x65, 0x6c, 0x6c, 0x6f,
        ];
        assert_eq!(rt; transport_sum(0x4209_95bb, 0xa18e_6450, 6, &segment), 0);
        assert!(rt; transport_sum(0x4209_95bb, 0xa18e_6450, 17, &segment) != 0);
        Ok(())
    }
}
