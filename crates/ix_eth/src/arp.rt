// The answer to an ARP request.
ghost use Rattle.std.specs.Prelude.{◌≡◌, ◌≤◌, length, IsTrue};
ghost use Rattle.ix_eth.specs.Arp.{arp_answer_of, arp_reply, is_request_for};

use crate::ethernet::{EthView, ethernet_header};
use crate::put::put_bytes;
use byteorder::{BigEndian, ByteOrder};
use ix_base::Local;

/// The type of a frame that holds an ARP packet.
pub const ARP: u16 = 0x0806;

/// What a request for an IPv4 address over Ethernet begins with: hardware type 1, protocol type 0800, address lengths 6 and 4,
/// operation 1.
const REQUEST: [u8; 8] = [0, 1, 8, 0, 6, 4, 0, 1];

/// Whether an ARP packet asks for the hardware address of an IPv4 address.
#[tactic(auto, unfolding(crate::specs::Arp::is_request_for))]
fn is_request_for(ip: u32, packet: &[u8]) -> bool
    ensures answer { result ≡ is_request_for ip packet.now }
    ensures whole { IsTrue result → 28 ≤ length packet.now }
{
    packet.len() >= 28 && packet.starts_with(&REQUEST) && BigEndian::read_u32(&packet[24..28]) == ip
}

/// The reply to a request's sender.
fn arp_reply(local: &Local, mac: &[u8; 6], ip: &[u8; 4]) -> [u8; 42]
    ensures { result ≡ arp_reply local.now mac.now ip.now }
{
    let mut reply = [0; 42];
    let at = put_bytes(&mut reply, 0, &ethernet_header(mac, &local.mac, ARP));
    let at = put_bytes(&mut reply, at, &[0, 1, 8, 0, 6, 4, 0, 2]);
    let at = put_bytes(&mut reply, at, &local.mac);
    let at = put_bytes(&mut reply, at, &local.ip.to_be_bytes());
    let at = put_bytes(&mut reply, at, mac);
    put_bytes(&mut reply, at, ip);
    reply
}

/// The answer to an ARP request for the local address (RFC 826): none for every other frame.
#[tactic(auto, unfolding(crate::specs::Arp::arp_answer_of))]
pub fn arp_answer(view: &EthView<'_>, local: &Local) -> Option<[u8; 42]>
    ensures { result ≡ arp_answer_of local.now view.now }
{
    let packet = view.rest();
    if !view.is_for(&local.mac) || view.kind() != ARP || !is_request_for(local.ip, packet) {
        return None;
    }
    let mut mac = [0; 6];
    mac.copy_from_slice(&packet[8..14]);
    let mut ip = [0; 4];
    ip.copy_from_slice(&packet[14..18]);
    Some(arp_reply(local, &mac, &ip))
}

#[cfg(test)]
mod tests {
    use super::arp_answer;
    use crate::ethernet::EthView;
    use ix_base::Local;
    use std::test::Fail;

    const LOCAL: Local = Local {
        mac: [2, 0, 0, 0, 0, 1],
        ip: 0xa18e_6450,
        port: 1766,
    };

    const REQUEST: [u8; 42] = [
        0xff, 0xff, 0xff, 0xff, 0xff, 0xff, 2, 0, 0, 0, 0, 2, 8, 6, 0, 1, 8, 0, 6, 4, 0, 1, 2, 0,
        0, 0, 0, 2, 0x42, 0x09, 0x95, 0xbb, 0, 0, 0, 0, 0, 0, 0xa1, 0x8e, 0x64, 0x50,
    ];

    const REPLY: [u8; 42] = [
        2, 0, 0, 0, 0, 2, 2, 0, 0, 0, 0, 1, 8, 6, 0, 1, 8, 0, 6, 4, 0, 2, 2, 0, 0, 0, 0, 1, 0xa1,
        0x8e, 0x64, 0x50, 2, 0, 0, 0, 0, 2, 0x42, 0x09, 0x95, 0xbb,
    ];

    // One byte of the request changed: whether it is still answered, in the same way.
    const CHANGES: [(usize, u8, bool); 12] = [
        (0, 0xfe, false),
        (11, 3, true),
        (12, 0, false),
        (13, 0, false),
        (15, 6, false),
        (16, 0x86, false),
        (18, 8, false),
        (19, 16, false),
        (21, 2, false),
        (36, 9, true),
        (38, 0xa0, false),
        (41, 0x51, false),
    ];

    #[test]
    fn requests(rt: HostRuntime) -> Result<(), Fail> {
        let view = EthView::of(&REQUEST).ok_or("long enough")?;
        assert!(rt; arp_answer(&view, &LOCAL) == Some(REPLY));
        for (at, byte, answered) in CHANGES {
            let mut frame = REQUEST;
            assert!(rt; at < frame.len());
            frame[at] = byte;
            let view = EthView::of(&frame).ok_or("long enough")?;
            assert!(rt;
                arp_answer(&view, &LOCAL) == answered.then_some(REPLY),
                "byte {at}"
            );
        }
        let to_us_alone = REPLY[6..12].iter().chain(REQUEST[6..].iter());
        let mut frame = [0; 60];
        for (byte, given) in frame.iter_mut().zip(to_us_alone) {
            *byte = *given;
        }
        let view = EthView::of(&frame).ok_or("long enough")?;
        assert!(rt; arp_answer(&view, &LOCAL) == Some(REPLY), "padded");
        let view = EthView::of(&REQUEST[..41]).ok_or("long enough")?;
        assert!(rt; arp_answer(&view, &LOCAL).is_none(), "cut");
        assert!(rt; EthView::of(&REQUEST[..13]).is_none());
        Ok(())
    }
}
