// UDP to the echo port (RFC 768).
ghost use Rattle.std.specs.Prelude.{◌≡◌, ◌+◌, ◌≤◌, ◌<◌, ◌^◌, IsTrue, drop, length, take};
ghost use Rattle.ix_ip.specs.Sum.{transport_sum_of};
ghost use Rattle.ix_side.specs.Echo.{datagram_len, datagram_of, is_datagram, is_udp_echo, is_udp_summed, shown, udp_answer, udp_header_with, udp_reply, udp_with};
ghost use Rattle.ix_side.specs.Side.{IsRightUdp, IsWritten};

use crate::reply::put_headers;
use byteorder::{BigEndian, ByteOrder};
use ix_base::{BUFFER_BYTES, Local};
use ix_eth::{EthView, put_bytes};
use ix_ip::{IpView, ones_sum, pseudo_sum, transport_sum};

const UDP: u8 = 17;

const ECHO_PORT: u16 = 7;

/// Whether a payload holds a datagram with its header.
#[tactic(auto, unfolding(crate::specs::Echo::is_datagram))]
fn is_datagram(payload: &[u8]) -> bool
    ensures answer { result ≡ is_datagram payload.now }
    ensures whole { IsTrue result → 8 ≤ length payload.now }
    ensures header { IsTrue result → 8 ≤ datagram_len payload.now }
    ensures within { IsTrue result → datagram_len payload.now ≤ length payload.now }
{
    if payload.len() < 8 {
        return false;
    }
    let len = BigEndian::read_u16(&payload[4..6]) as usize;
    len >= 8 && len <= payload.len()
}

/// Whether a datagram's checksum is not used, or right.
#[tactic(auto, unfolding(crate::specs::Echo::is_udp_summed))]
fn is_udp_summed(ip: &IpView<'_>) -> bool
    requires whole { 8 ≤ length ip.now.payload }
    requires within { datagram_len ip.now.payload ≤ length ip.now.payload }
    ensures { result ≡ is_udp_summed ip.now }
{
    let payload = ip.payload();
    let len = BigEndian::read_u16(&payload[4..6]) as usize;
    BigEndian::read_u16(&payload[6..8]) == 0
        || transport_sum(ip.src(), ip.dst(), UDP, &payload[..len]) == 0
}

/// Whether a packet is a datagram to the echo port whose checksum is not wrong.
#[tactic(auto, unfolding(crate::specs::Echo::is_udp_echo))]
pub fn is_udp_echo(ip: &IpView<'_>) -> bool
    ensures request { result ≡ is_udp_echo ip.now }
    ensures header { IsTrue result → 8 ≤ datagram_len ip.now.payload }
    ensures within { IsTrue result → datagram_len ip.now.payload ≤ length ip.now.payload }
{
    let payload = ip.payload();
    if ip.protocol() != UDP || !is_datagram(payload) {
        return false;
    }
    BigEndian::read_u16(&payload[2..4]) == ECHO_PORT && is_udp_summed(ip)
}

/// The header of the answer to a datagram, with this checksum in it: the ports are exchanged.
fn udp_header(datagram: &[u8], checksum: u16) -> [u8; 8]
    requires { 8 ≤ length datagram.now }
    ensures { result ≡ udp_header_with datagram.now checksum }
{
    let [c0, c1] = checksum.to_be_bytes();
    let d = datagram;
    [d[2], d[3], d[0], d[1], d[4], d[5], c0, c1]
}

/// The checksum of the answer to a datagram, all ones where it would be zero.
fn answer_sum(src: u32, dst: u32, datagram: &[u8]) -> u16
    requires header { 8 ≤ length datagram.now }
    requires small { length datagram.now < 2 ^ 16 }
    ensures { result ≡ shown (transport_sum_of src dst 17 (udp_with datagram.now 0)) }
{
    let pseudo = pseudo_sum(src, dst, UDP, datagram.len() as u16);
    let header = ones_sum(pseudo, &udp_header(datagram, 0));
    let checksum = 0xffff - ones_sum(header, &datagram[8..]);
    if checksum == 0 { 0xffff } else { checksum }
}

/// Writes the answer to a datagram, and gives its length.
pub fn udp_answer(view: &EthView<'_>, ip: &IpView<'_>, local: &Local, out: &mut [u8]) -> usize
    requires header { 8 ≤ datagram_len ip.now.payload }
    requires within { datagram_len ip.now.payload ≤ length ip.now.payload }
    requires small { length ip.now.payload + 34 ≤ BUFFER_BYTES }
    requires room { BUFFER_BYTES ≤ length out.old }
    ensures written { IsWritten (udp_answer view.now ip.now local.now) result out.old out.new }
    ensures right { IsRightUdp view.now ip.now local.now (udp_reply local.now.ip ip.now.src (datagram_of ip.now.payload)) (take result out.new) }
{
    let payload = ip.payload();
    let len = BigEndian::read_u16(&payload[4..6]);
    let datagram = &payload[..len as usize];
    let checksum = answer_sum(local.ip, ip.src(), datagram);
    let at = put_headers(view, ip, local, UDP, len, out);
    let at = put_bytes(out, at, &udp_header(datagram, checksum));
    put_bytes(out, at, &datagram[8..])
}
