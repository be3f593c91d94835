// The IPv4 header that is written.
ghost use Rattle.std.specs.Prelude.{◌≡◌};
ghost use Rattle.ix_ip.specs.Header.{IsPacketHeader, header_with, ip_header as ip_header_of};

use crate::sum::sum16;

fn header_with(src: u32, dst: u32, protocol: u8, total: u16, checksum: u16) -> [u8; 20]
    ensures { result ≡ header_with src dst protocol total checksum }
{
    let [s0, s1, s2, s3] = src.to_be_bytes();
    let [d0, d1, d2, d3] = dst.to_be_bytes();
    let [t0, t1] = total.to_be_bytes();
    let [c0, c1] = checksum.to_be_bytes();
    [
        0x45, 0, t0, t1, 0, 0, 0x40, 0, 64, protocol, c0, c1, s0, s1, s2, s3, d0, d1, d2, d3,
    ]
}

/// The header of a packet of `total` bytes, with its checksum: 20 bytes, service 0, identification 0, not to be fragmented, time to
/// live 64.
#[tactic(auto, unfolding(crate::specs::Header::ip_header))]
pub fn ip_header(src: u32, dst: u32, protocol: u8, total: u16) -> [u8; 20]
    ensures written { result ≡ ip_header_of src dst protocol total }
    ensures reads_back { IsPacketHeader src dst protocol total result }
{
    let checksum = sum16(&header_with(src, dst, protocol, total, 0));
    header_with(src, dst, protocol, total, checksum)
}
