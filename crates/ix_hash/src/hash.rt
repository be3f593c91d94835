// The Toeplitz hash.
ghost use Rattle.std.specs.Prelude.{◌≡◌, ◌+◌, ◌*◌, ◌<◌, ◌≤◌, length};
ghost use Rattle.ix_hash.specs.Bits.{bit_of, bits_from};
ghost use Rattle.ix_hash.specs.Toeplitz.{hash_of};

/// The key of Microsoft's verification suite for receive-side scaling.
pub const KEY: [u8; 40] = [
    0x6d, 0x5a, 0x56, 0xda, 0x25, 0x5b, 0x0e, 0xc2, 0x41, 0x67, 0x25, 0x3d, 0x43, 0xa3, 0x8f, 0xb0,
    0xd0, 0xca, 0x2b, 0xcb, 0xae, 0x7b, 0x30, 0xb4, 0x77, 0xcb, 0x2d, 0xa3, 0x80, 0x30, 0xf2, 0x0c,
    0x6a, 0x42, 0xb7, 0x3b, 0xbe, 0xac, 0x01, 0xfa,
];

/// Bit `i` of the bytes, the highest of each byte first.
#[tactic(auto, unfolding(crate::specs::Bits::bit_of))]
fn bit_at(bytes: &[u8], i: usize) -> u8
    requires { i < 8 * length bytes.now }
    ensures bit { result ≡ bit_of bytes.now i }
    ensures below { result < 2 }
{
    (bytes[i / 8] >> (7 - i % 8)) % 2
}

/// The number of the first 32 bits.
#[tactic(auto, using(crate::proofs::BitLaws::bit_steps))]
fn first_bits(bytes: &[u8]) -> u32
    requires { 4 ≤ length bytes.now }
    ensures { result ≡ bits_from bytes.now 0 32 }
{
    let mut bits: u32 = 0;
    for i in 0..32 {
        bits = (bits << 1) + bit_at(bytes, i) as u32;
    }
    bits
}

/// The Toeplitz hash of the input: the exclusive or, over each bit of the input that is 1, of the 32 key bits that start at its place.
#[tactic(auto, using(crate::proofs::BitLaws::bit_steps))]
pub fn toeplitz(key: &[u8; 40], input: &[u8]) -> u32
    requires { length input.now ≤ 36 }
    ensures { result ≡ hash_of key.now input.now }
{
    let mut hash = 0;
    let mut window = first_bits(key);
    for i in 0..input.len() * 8 {
        if bit_at(input, i) == 1 {
            hash ^= window;
        }
        window = (window << 1) + bit_at(key, i + 32) as u32;
    }
    hash
}

#[cfg(test)]
mod tests {
    use super::{KEY, toeplitz};
    use std::test::Fail;

    // Source and destination as the suite prints them, in network order: address, address, port, port; then the hash of all twelve
    // bytes and the hash of the two addresses alone.
    const VERIFIED: [([u8; 12], u32, u32); 5] = [
        (
            [66, 9, 149, 187, 161, 142, 100, 80, 0x0a, 0xea, 0x06, 0xe6],
            0x51cc_c178,
            0x323e_8fc2,
        ),
        (
            [199, 92, 111, 2, 65, 69, 140, 83, 0x37, 0x96, 0x12, 0x83],
            0xc626_b0ea,
            0xd718_262a,
        ),
        (
            [24, 19, 198, 95, 12, 22, 207, 184, 0x32, 0x62, 0x94, 0x88],
            0x5c2b_394a,
            0xd2d0_a5de,
        ),
        (
            [38, 27, 205, 30, 209, 142, 163, 6, 0xbc, 0x64, 0x08, 0xa9],
            0xafc7_327f,
            0x8298_9176,
        ),
        (
            [153, 39, 163, 191, 202, 188, 127, 2, 0xac, 0xdb, 0x05, 0x17],
            0x10e8_28a2,
            0x5d18_09c5,
        ),
    ];

    #[test]
    fn published_vectors(rt: HostRuntime) -> Result<(), Fail> {
        for (input, with_ports, addresses) in VERIFIED {
            assert_eq!(rt; toeplitz(&KEY, &input), with_ports);
            assert_eq!(rt; toeplitz(&KEY, &input[..8]), addresses);
        }
        assert_eq!(rt; toeplitz(&KEY, &[]), 0);
        assert_eq!(rt; toeplitz(&KEY, &[0x80]), 0x6d5a_56da);
        Ok(())
    }
}
