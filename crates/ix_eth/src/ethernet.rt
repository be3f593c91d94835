// Ethernet II frames.
ghost use Rattle.std.specs.Prelude.{◌≡◌, length};
ghost use Rattle.ix_eth.specs.Ethernet.{IsHeader, ethernet_header as ethernet_header_of};

use crate::put::put_bytes;
use byteorder::{BigEndian, ByteOrder};
use std::marker::Model;

/// The type of a frame that holds an IPv4 packet.
pub const IPV4: u16 = 0x0800;

const BROADCAST: [u8; 6] = [0xff; 6];

/// A frame of at least 14 bytes, seen in place (RFC 894).
#[derive(Drop)]
pub struct EthView<'a> {
    frame: &'a [u8],
}

impl<'a> Model for EthView<'a> {
    ghost use Rattle.std.specs.Prelude.{◌≤◌, length};
    ghost use Rattle.ix_eth.specs.Ethernet.{Ethernet, ethernet_parts};

    ghost Value = { Ethernet };

    ghost view = { λ v. ethernet_parts v.frame.now };

    ghost invariant = { λ v. 14 ≤ length v.frame.now };
}

impl<'a> EthView<'a> {
    ghost use Rattle.ix_eth.specs.Ethernet.{ethernet_of, is_for};

    /// The frame that the bytes are; none where there are fewer than 14.
    #[tactic(auto, unfolding(crate::specs::Ethernet::ethernet_of))]
    pub fn of(frame: &'a [u8]) -> Option<EthView<'a>>
        ensures { result ≡ ethernet_of frame.now }
    {
        if frame.len() < 14 {
            return None;
        }
        Some(EthView { frame })
    }

    /// The destination's hardware address.
    pub fn dst(&self) -> [u8; 6]
        ensures { result ≡ self.now.dst }
    {
        let mut dst = [0; 6];
        dst.copy_from_slice(&self.frame[..6]);
        dst
    }

    /// The source's hardware address.
    pub fn src(&self) -> [u8; 6]
        ensures { result ≡ self.now.src }
    {
        let mut src = [0; 6];
        src.copy_from_slice(&self.frame[6..12]);
        src
    }

    /// The type of the frame: what its rest holds.
    pub fn kind(&self) -> u16
        ensures { result ≡ self.now.kind }
    {
        BigEndian::read_u16(&self.frame[12..14])
    }

    /// The bytes behind the Ethernet header.
    pub fn rest(&self) -> &'a [u8]
        ensures { result.now ≡ self.now.rest }
    {
        &self.frame[14..]
    }

    /// Whether the frame is meant for this hardware address, by itself or as one of all.
    pub fn is_for(&self, mac: &[u8; 6]) -> bool
        ensures { result ≡ is_for mac.now self.now }
    {
        self.dst() == *mac || self.dst() == BROADCAST
    }
}

/// The header of a frame.
pub fn ethernet_header(dst: &[u8; 6], src: &[u8; 6], kind: u16) -> [u8; 14]
    ensures written { result ≡ ethernet_header_of dst.now src.now kind }
    ensures reads_back { IsHeader dst.now src.now kind result }
{
    let mut header = [0; 14];
    let at = put_bytes(&mut header, 0, dst);
    let at = put_bytes(&mut header, at, src);
    put_bytes(&mut header, at, &kind.to_be_bytes());
    header
}
