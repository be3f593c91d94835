// IPv4 packets.
ghost use Rattle.std.specs.Prelude.{◌≡◌, ◌<◌, ◌≤◌, ◌^◌, length};

use crate::sum::sum16;
use byteorder::{BigEndian, ByteOrder};
use std::marker::Model;

/// Why bytes are no IPv4 packet that is taken, in the order of the tests.
#[derive(Clone, Copy, Debug, PartialEq, Eq)]
pub enum IpFault {
    /// There are fewer than 20 bytes.
    Short,
    /// The version is not 4.
    BadVersion,
    /// The header is shorter than 20 bytes or longer than the packet, or the packet is longer than the bytes.
    BadLength,
    /// The header's checksum is wrong.
    BadSum,
    /// More fragments follow, or others come before.
    Fragment,
}

/// A packet without a fault, seen in place (RFC 791). Its options are skipped.
#[derive(Drop)]
pub struct IpView<'a> {
    src: u32,
    dst: u32,
    protocol: u8,
    at: u16,
    payload: &'a [u8],
}

impl<'a> Model for IpView<'a> {
    ghost use Rattle.std.specs.Prelude.{◌<◌, ◌≤◌, ◌^◌, length};
    ghost use Rattle.ix_ip.specs.Packet.{Packet};

    ghost Value = { Packet };

    ghost view = { λ v. record { src = v.src; dst = v.dst; protocol = v.protocol; at = v.at; payload = v.payload.now } };

    ghost invariant = { λ v. (v.at ≤ 74) × (length v.payload.now < 2 ^ 16) };
}

impl<'a> IpView<'a> {
    ghost use Rattle.ix_ip.specs.Packet.{packet_of};

    /// The packet that the bytes behind an Ethernet header are, or their first fault.
    #[tactic(auto, unfolding(crate::specs::Packet::packet_of))]
    pub fn of(bytes: &'a [u8]) -> Result<IpView<'a>, IpFault>
        ensures { result ≡ packet_of bytes.now }
    {
        if bytes.len() < 20 {
            return Err(IpFault::Short);
        }
        if bytes[0] / 16 != 4 {
            return Err(IpFault::BadVersion);
        }
        let header_len = (bytes[0] % 16) as usize * 4;
        let total_len = BigEndian::read_u16(&bytes[2..4]) as usize;
        if header_len < 20 || total_len < header_len || bytes.len() < total_len {
            return Err(IpFault::BadLength);
        }
        if sum16(&bytes[..header_len]) != 0 {
            return Err(IpFault::BadSum);
        }
        if BigEndian::read_u16(&bytes[6..8]) % 0x4000 != 0 {
            return Err(IpFault::Fragment);
        }
        Ok(IpView {
            src: BigEndian::read_u32(&bytes[12..16]),
            dst: BigEndian::read_u32(&bytes[16..20]),
            protocol: bytes[9],
            at: 14 + header_len as u16,
            payload: &bytes[header_len..total_len],
        })
    }

    /// The source's address.
    pub fn src(&self) -> u32
        ensures { result ≡ self.now.src }
    {
        self.src
    }

    /// The destination's address.
    pub fn dst(&self) -> u32
        ensures { result ≡ self.now.dst }
    {
        self.dst
    }

    /// What the payload is: 1 for ICMP, 6 for TCP, 17 for UDP.
    pub fn protocol(&self) -> u8
        ensures { result ≡ self.now.protocol }
    {
        self.protocol
    }

    /// The place in the frame at which the payload begins: 14 and the length of the IPv4 header.
    pub fn at(&self) -> u16
        ensures place { result ≡ self.now.at }
        ensures below { result ≤ 74 }
    {
        self.at
    }

    /// The bytes behind the header, up to the packet's total length.
    pub fn payload(&self) -> &'a [u8]
        ensures bytes { result.now ≡ self.now.payload }
        ensures below { length result.now < 2 ^ 16 }
    {
        self.payload
    }
}

#[cfg(test)]
mod tests {
    use super::{IpFault, IpView};
    use std::test::Fail;

    // A packet of 45 bytes with a TCP segment of 25.
    const PACKET: [u8; 45] = [
        0x45, 0, 0, 0x2d, 0, 0, 0x40, 0, 0x40, 0x06, 0x5d, 0x28, 0x42, 0x09, 0x95, 0xbb, 0xa1,
        0x8e, 0x64, 0x50, 0x0a, 0xea, 0x06, 0xe6, 0, 0, 0x10, 0x01, 0x51, 0xcc, 0xc1, 0x79, 0x50,
        0x18, 0xfa, 0xf0, 0x5e, 0x4a, 0, 0, 0x68, 0x65, 0x6c, 0x6c, 0x6f,
    ];

    // Two bytes at a place changed, and the checksum that the header has then: the first fault, and otherwise where the payload
    // begins in the frame and its length. Checksums are those that another program computes, but where they are to be wrong.
    const CHANGES: [(usize, [u8; 2], [u8; 2], Result<(u16, usize), IpFault>); 18] = [
        (0, [0x45, 0], [0x5d, 0x28], Ok((34, 25))),
        (0, [0x65, 0], [0x3d, 0x28], Err(IpFault::BadVersion)),
        (0, [0x44, 0], [0x5e, 0x28], Err(IpFault::BadLength)),
        (0, [0x46, 0], [0x4a, 0x58], Ok((38, 21))),
        (0, [0x46, 0], [0x5c, 0x28], Err(IpFault::BadSum)),
        (0, [0x4b, 0], [0xa3, 0xeb], Ok((58, 1))),
        (0, [0x4c, 0], [0xa3, 0xeb], Err(IpFault::BadLength)),
        (2, [0, 19], [0x5d, 0x42], Err(IpFault::BadLength)),
        (2, [0, 44], [0x5d, 0x29], Ok((34, 24))),
        (2, [0, 46], [0x5d, 0x27], Err(IpFault::BadLength)),
        (6, [0x40, 0], [0x5d, 0x29], Err(IpFault::BadSum)),
        (6, [0x60, 0], [0x3d, 0x28], Err(IpFault::Fragment)),
        (6, [0x20, 0], [0x7d, 0x28], Err(IpFault::Fragment)),
        (6, [0x00, 1], [0x9d, 0x27], Err(IpFault::Fragment)),
        (6, [0x1f, 0xff], [0x7d, 0x29], Err(IpFault::Fragment)),
        (6, [0x1f, 0xff], [0x7d, 0x28], Err(IpFault::BadSum)),
        (6, [0x80, 0], [0x1d, 0x28], Ok((34, 25))),
        (6, [0xc0, 0], [0xdd, 0x27], Ok((34, 25))),
    ];

    #[test]
    fn faults_in_order(rt: HostRuntime) -> Result<(), Fail> {
        for (at, [high, low], [sum_high, sum_low], expected) in CHANGES {
            let mut bytes = PACKET;
            assert!(rt; at < 19);
            bytes[at] = high;
            bytes[at + 1] = low;
            bytes[10] = sum_high;
            bytes[11] = sum_low;
            let found = match IpView::of(&bytes) {
                Ok(ip) => Ok((ip.at(), ip.payload().len())),
                Err(fault) => Err(fault),
            };
            assert!(rt; found == expected, "place {at}: {high}, {low}");
        }
        let ip = IpView::of(&PACKET).map_err(|_| "a packet")?;
        assert_eq!(rt;
            (ip.src(), ip.dst(), ip.protocol()),
            (0x4209_95bb, 0xa18e_6450, 6)
        );
        assert!(rt; ip.payload() == &PACKET[20..]);
        assert!(rt; IpView::of(&PACKET[..19]).err() == Some(IpFault::Short));
        assert!(rt; IpView::of(&PACKET[..44]).err() == Some(IpFault::BadLength));
        Ok(())
    }
}
