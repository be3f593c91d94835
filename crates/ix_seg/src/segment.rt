// TCP segments in packets.
ghost use Rattle.std.specs.Prelude.{◌≡◌, ◌<◌, ◌≤◌, ◌^◌, length};

use crate::options::mss_of;
use byteorder::{BigEndian, ByteOrder};
use ix_base::{Flow, SegHead};
use ix_ip::{IpView, transport_sum};
use std::marker::Model;

/// The protocol of packets that hold TCP segments.
pub const TCP: u8 = 6;

/// Why a packet's payload is no TCP segment that is taken, in the order of the tests.
#[derive(Clone, Copy, Debug, PartialEq, Eq)]
pub enum SegFault {
    /// There are fewer than 20 bytes.
    Short,
    /// The data offset is below 5 words or passes the payload.
    BadOffset,
    /// The checksum is wrong.
    BadSum,
}

/// A segment without a fault, seen in place (RFC 9293, section 3.1).
#[derive(Drop)]
pub struct SegView<'a> {
    flow: Flow,
    seq: u32,
    ack: u32,
    flags: u8,
    window: u16,
    mss: Option<u16>,
    at: u16,
    body: &'a [u8],
}

impl<'a> Model for SegView<'a> {
    ghost use Rattle.std.specs.Prelude.{◌<◌, ◌^◌, length};
    ghost use Rattle.ix_seg.specs.Segment.{Segment};

    ghost Value = { Segment };

    ghost view = { λ v. record {
      flow = v.flow;
      seq = v.seq;
      ack = v.ack;
      flags = v.flags;
      window = v.window;
      mss = v.mss;
      at = v.at;
      body = v.body.now;
    } };

    ghost invariant = { λ v. length v.body.now < 2 ^ 16 };
}

impl<'a> SegView<'a> {
    ghost use Rattle.ix_seg.specs.Segment.{segment_of, segment_at, head_of};

    /// The segment that the packet holds, or its first fault. The checksum is tested only where `check` says so.
    #[tactic(auto, unfolding(crate::specs::Segment::segment_of))]
    pub fn of(ip: &IpView<'a>, check: bool) -> Result<SegView<'a>, SegFault>
        ensures { result ≡ segment_of check ip.now }
    {
        let payload = ip.payload();
        if payload.len() < 20 {
            return Err(SegFault::Short);
        }
        let header_len = (payload[12] / 16) as usize * 4;
        if header_len < 20 || payload.len() < header_len {
            return Err(SegFault::BadOffset);
        }
        if check && transport_sum(ip.src(), ip.dst(), TCP, payload) != 0 {
            return Err(SegFault::BadSum);
        }
        Ok(SegView::at_place(ip, header_len))
    }

    /// The segment whose body begins at a place of the packet's payload.
    #[tactic(auto, unfolding(crate::specs::Segment::segment_at))]
    fn at_place(ip: &IpView<'a>, start: usize) -> SegView<'a>
        requires header { 20 ≤ start }
        requires below { start ≤ 60 }
        requires within { start ≤ length ip.now.payload }
        ensures { result ≡ segment_at ip.now start }
    {
        let payload = ip.payload();
        SegView {
            flow: Flow {
                remote: ip.src(),
                local: ip.dst(),
                remote_port: BigEndian::read_u16(&payload[0..2]),
                local_port: BigEndian::read_u16(&payload[2..4]),
            },
            seq: BigEndian::read_u32(&payload[4..8]),
            ack: BigEndian::read_u32(&payload[8..12]),
            flags: payload[13],
            window: BigEndian::read_u16(&payload[14..16]),
            mss: mss_of(&payload[20..start]),
            at: ip.at() + start as u16,
            body: &payload[start..],
        }
    }

    /// The numbers of the segment, which came from this hardware address. Its sender is the remote end of its flow.
    pub fn head(&self, peer_mac: [u8; 6]) -> SegHead
        ensures { result ≡ head_of peer_mac self.now }
    {
        SegHead {
            flow: self.flow,
            peer_mac,
            seq: self.seq,
            ack: self.ack,
            flags: self.flags,
            window: self.window,
            mss: self.mss,
            len: self.body.len() as u16,
            at: self.at,
        }
    }

    /// The bytes behind the TCP header.
    pub fn body(&self) -> &'a [u8]
        ensures bytes { result.now ≡ self.now.body }
        ensures below { length result.now < 2 ^ 16 }
    {
        self.body
    }
}
