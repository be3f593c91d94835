// Packets of other protocols than TCP.
ghost use Rattle.std.specs.Prelude.{◌≡◌, ◌+◌, ◌≤◌, Ok, length};
ghost use Rattle.ix_ip.specs.Packet.{packet_of};
ghost use Rattle.ix_side.specs.Side.{side_of, disposition_of, Answers, IsRight};

use crate::icmp::{icmp_answer, is_icmp_echo};
use crate::udp::{is_udp_echo, udp_answer};
use ix_base::{BUFFER_BYTES, Local};
use ix_eth::EthView;
use ix_ip::{IpView, payloads_lie_within};

/// What a packet of another protocol than TCP is.
#[derive(Clone, Copy, Debug, PartialEq, Eq)]
pub enum Side {
    /// An ICMP echo request; its answer has so many bytes.
    IcmpEcho { len: usize },
    /// A UDP datagram to the echo port; its answer has so many bytes.
    UdpEcho { len: usize },
    /// Anything else. Nothing answers it.
    NotTcp,
}

/// What a packet for this machine is whose protocol is not TCP, with its answer at the head of `out`. An echo request is answered
/// (RFC 792, RFC 768) exactly where its sums are right; a UDP checksum of 0 is none. Nothing is written for any other packet.
#[tactic(auto, unfolding(crate::specs::Side::side_of))]
pub fn side_answer(view: &EthView<'_>, ip: &IpView<'_>, local: &Local, out: &mut [u8]) -> Side
    requires size { length view.now.rest + 14 ≤ BUFFER_BYTES }
    requires packet { packet_of view.now.rest ≡ Ok ip.now }
    requires room { BUFFER_BYTES ≤ length out.old }

    ensures kind { disposition_of result ≡ side_of ip.now }
    ensures answer { Answers view.now ip.now local.now out.old out.new result }
    ensures right { IsRight view.now ip.now local.now out.new result }
{
    payloads_lie_within();
    if is_icmp_echo(ip) {
        let len = icmp_answer(view, ip, local, out);
        return Side::IcmpEcho { len };
    }
    if is_udp_echo(ip) {
        let len = udp_answer(view, ip, local, out);
        return Side::UdpEcho { len };
    }
    Side::NotTcp
}
