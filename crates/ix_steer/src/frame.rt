// The flow group of a frame.
ghost use Rattle.std.specs.Prelude.{◌≡◌, ◌<◌};
ghost use Rattle.ix_ip.specs.Packet.{flow_of_packet};
ghost use Rattle.ix_seg.specs.Frame.{flow_of_frame};
ghost use Rattle.ix_steer.specs.Steering.{group_of_frame};

use byteorder::{BigEndian, ByteOrder};
use ix_base::{Flow, GroupId};
use ix_eth::{EthView, IPV4};
use ix_hash::group_of;
use ix_ip::IpView;
use ix_seg::TCP;

/// The flow group of a frame: that of its flow, where it holds an IPv4 packet without a fault whose protocol is TCP and whose payload has
/// the four octets of two ports, whether it is a segment for this machine or not; else group 0.
pub fn frame_group(frame: &[u8]) -> GroupId
    ensures group { result.0 ≡ group_of_frame frame.now }
    ensures below { result.0 < 512 }
{
    match flow_of_frame(frame) {
        Some(flow) => group_of(&flow),
        None => GroupId(0),
    }
}

// The flow that a frame names.
#[tactic(auto, unfolding(ix_seg::specs::Frame::flow_of_frame))]
fn flow_of_frame(frame: &[u8]) -> Option<Flow>
    ensures { result ≡ flow_of_frame frame.now }
{
    match EthView::of(frame) {
        Some(ethernet) if ethernet.kind() == IPV4 => match IpView::of(ethernet.rest()) {
            Ok(ip) => flow_of_packet(&ip),
            Err(_) => None,
        },
        _ => None,
    }
}

// The flow that a packet names.
fn flow_of_packet(ip: &IpView<'_>) -> Option<Flow>
    ensures { result ≡ flow_of_packet ip.now }
{
    let payload = ip.payload();
    if ip.protocol() != TCP || payload.len() < 4 {
        return None;
    }
    Some(Flow {
        remote: ip.src(),
        local: ip.dst(),
        remote_port: BigEndian::read_u16(&payload[0..2]),
        local_port: BigEndian::read_u16(&payload[2..4]),
    })
}
