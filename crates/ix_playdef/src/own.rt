// The frames that the local side sent, and the initial sequence numbers that they name.
ghost use Rattle.std.specs.Prelude.{◌≡◌, ◌≤◌, ◌<◌, ◌^◌, All, IfOk, length};
ghost use Rattle.ix_conf.specs.Settings.{settings_of};
ghost use Rattle.ix_pcap.specs.Capture.{IsSpanOf, frames_of};
ghost use Rattle.ix_playdef.specs.Own.{own_frame, local_of, turned, is_syn_ack, named_by_packet, named_behind, named_by_frame, initial_numbers};

use byteorder::{BigEndian, ByteOrder};
use ix_base::{Flow, Local, NoMemory};
use ix_conf::Conf;
use ix_eth::{EthView, IPV4};
use ix_groupdef::Isns;
use ix_pcap::Capture;
use ix_seg::TCP;
use std::alloc::Global;
use std::marker::Model;

/// The flags SYN and ACK of a segment (RFC 9293, section 3.1).
const SYN_ACK: u8 = 0x12;

/// The local side of a configuration.
pub fn local_of(conf: &Conf) -> Local
    ensures { result ≡ local_of (settings_of conf.now) }
{
    Local {
        mac: conf.mac,
        ip: conf.ip,
        port: conf.port,
    }
}

/// Whether a frame is one that the local side sent.
pub fn is_own(mac: &[u8; 6], frame: &[u8]) -> bool
    ensures { result ≡ own_frame mac.now frame.now }
{
    frame.len() >= 14 && &frame[6..12] == mac.as_slice()
}

// An IPv4 packet whose header's checksum was not tested, seen in place.
#[derive(Drop)]
struct SentPacket<'a> {
    src: u32,
    dst: u32,
    protocol: u8,
    at: u16,
    payload: &'a [u8],
}

impl<'a> Model for SentPacket<'a> {
    ghost use Rattle.std.specs.Prelude.{◌<◌, ◌≤◌, ◌^◌, length};
    ghost use Rattle.ix_ip.specs.Packet.{Packet};

    ghost Value = { Packet };

    ghost view = { λ v. record { src = v.src; dst = v.dst; protocol = v.protocol; at = v.at; payload = v.payload.now } };
}

impl<'a> SentPacket<'a> {
    ghost use Rattle.ix_playdef.specs.Own.{sent_packet};

    // The packet that the bytes behind an Ethernet header are, if they are one.
    #[tactic(auto, unfolding(crate::specs::Own::sent_packet))]
    fn of(bytes: &'a [u8]) -> Option<SentPacket<'a>>
        ensures { result ≡ sent_packet bytes.now }
    {
        if bytes.len() < 20 {
            return None;
        }
        if bytes[0] / 16 != 4 {
            return None;
        }
        let header_len = (bytes[0] % 16) as usize * 4;
        let total_len = BigEndian::read_u16(&bytes[2..4]) as usize;
        if header_len < 20 || total_len < header_len || bytes.len() < total_len {
            return None;
        }
        if BigEndian::read_u16(&bytes[6..8]) % 0x4000 != 0 {
            return None;
        }
        Some(SentPacket {
            src: BigEndian::read_u32(&bytes[12..16]),
            dst: BigEndian::read_u32(&bytes[16..20]),
            protocol: bytes[9],
            at: 14 + header_len as u16,
            payload: &bytes[header_len..total_len],
        })
    }

    // The flow and the initial sequence number that the packet names, if this address sent it.
    #[tactic(auto, unfolding(crate::specs::Own::named_by_packet, ix_seg::specs::Segment::segment_of, ix_seg::specs::Segment::segment_at))]
    fn named(&self, ip: u32) -> Option<(Flow, u32)>
        ensures { result ≡ named_by_packet ip self.now }
    {
        if self.src != ip || self.protocol != TCP {
            return None;
        }
        let payload = self.payload;
        if payload.len() < 20 {
            return None;
        }
        let header_len = (payload[12] / 16) as usize * 4;
        if header_len < 20 || payload.len() < header_len {
            return None;
        }
        if !is_syn_ack(payload[13]) {
            return None;
        }
        let flow = Flow {
            remote: self.dst,
            local: self.src,
            remote_port: BigEndian::read_u16(&payload[2..4]),
            local_port: BigEndian::read_u16(&payload[0..2]),
        };
        Some((flow, BigEndian::read_u32(&payload[4..8])))
    }
}

fn is_syn_ack(flags: u8) -> bool
    ensures { result ≡ is_syn_ack flags }
{
    flags & SYN_ACK == SYN_ACK
}

// What the rest of a frame names that the local side sent.
#[tactic(auto, unfolding(crate::specs::Own::named_behind))]
fn named_behind(ip: u32, ethernet: &EthView<'_>) -> Option<(Flow, u32)>
    ensures { result ≡ named_behind ip ethernet.now }
{
    if ethernet.kind() != IPV4 {
        return None;
    }
    match SentPacket::of(ethernet.rest()) {
        Some(packet) => packet.named(ip),
        None => None,
    }
}

// What a frame names.
#[tactic(auto, unfolding(crate::specs::Own::named_by_frame))]
fn named_by_frame(local: &Local, frame: &[u8]) -> Option<(Flow, u32)>
    ensures { result ≡ named_by_frame local.now frame.now }
{
    if !is_own(&local.mac, frame) {
        return None;
    }
    match EthView::of(frame) {
        Some(ethernet) => named_behind(local.ip, &ethernet),
        None => None,
    }
}

/// The flows whose SYN-ACKs the local side sent in a capture, each with its initial sequence number, in the order of the capture. A
/// record counts wherever it stands, by the hardware address and the IPv4 address of its source; its destination, its checksums and its
/// length are not tested.
#[tactic(auto, using(crate::proofs::Loops::for_numbers))]
pub fn initial_numbers(
    alloc: Global,
    local: &Local,
    bytes: &[u8],
    capture: &Capture,
) -> Result<Isns, NoMemory>
    requires { All (IsSpanOf bytes.now) capture.now }
    ensures { IfOk result (λ isns. isns ≡ initial_numbers local.now (frames_of bytes.now capture.now)) }
{
    let mut pairs = Vec::new(alloc);
    let spans = capture.spans();
    for span in spans {
        if let Some(pair) = named_by_frame(local, &bytes[span.from..span.to]) {
            pairs.push(pair)?;
        }
    }
    Isns::indexed(alloc, pairs)
}

#[cfg(test)]
mod tests {
    use super::named_by_frame;
    use ix_base::{Flow, Local};
    use std::test::Fail;

    const LOCAL: Local = Local {
        mac: [2, 0, 0, 0, 0, 1],
        ip: 0xa18e_6450,
        port: 1766,
    };

    const FLOW: Flow = Flow {
        remote: 0x4209_95bb,
        local: 0xa18e_6450,
        remote_port: 2794,
        local_port: 1766,
    };

    // A SYN-ACK of the local side, whose checksums are not written.
    const ANSWER: [u8; 54] = [
        2, 0, 0, 0, 0, 2, 2, 0, 0, 0, 0, 1, 8, 0, 0x45, 0, 0, 0x28, 0, 0, 0x40, 0, 0x40, 0x06, 0,
        0, 0xa1, 0x8e, 0x64, 0x50, 0x42, 0x09, 0x95, 0xbb, 0x06, 0xe6, 0x0a, 0xea, 0x51, 0xcc,
        0xc1, 0x78, 0, 0, 0x10, 0x01, 0x50, 0x12, 0xfa, 0xf0, 0, 0, 0, 0,
    ];

    // One byte changed, and whether the frame still names its number: not tested are the destination, the checksums and the other
    // flags; tested are the source, the type, the lengths, the protocol, fragments and the two flags.
    const CHANGES: [(usize, u8, bool); 14] = [
        (0, 9, true),
        (24, 1, true),
        (50, 1, true),
        (47, 0x5a, true),
        (11, 2, false),
        (13, 6, false),
        (14, 0x65, false),
        (17, 0x29, false),
        (20, 0x20, false),
        (23, 17, false),
        (29, 0x51, false),
        (46, 0x40, false),
        (47, 0x10, false),
        (47, 0x02, false),
    ];

    #[test]
    fn which_frames_name_a_number(rt: HostRuntime) -> Result<(), Fail> {
        for (at, byte, names) in CHANGES {
            let mut frame = ANSWER;
            assert!(rt; at < 54);
            frame[at] = byte;
            let named = named_by_frame(&LOCAL, &frame);
            let expected = if names {
                Some((FLOW, 0x51cc_c178))
            } else {
                None
            };
            assert!(rt; named == expected, "place {at}: {byte}");
        }
        Ok(())
    }
}
