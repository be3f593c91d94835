// ICMP echo (RFC 792).
ghost use Rattle.std.specs.Prelude.{◌≡◌, ◌+◌, ◌≤◌, ◌<◌, ◌^◌, IsTrue, drop, length, take};
ghost use Rattle.ix_side.specs.Echo.{is_icmp_echo, icmp_answer, icmp_reply};
ghost use Rattle.ix_side.specs.Side.{IsRightIcmp, IsWritten};

use crate::reply::put_headers;
use ix_base::{BUFFER_BYTES, Local};
use ix_eth::{EthView, put_bytes};
use ix_ip::{IpView, sum16};

const ICMP: u8 = 1;

const ECHO_REQUEST: u8 = 8;

/// Whether a packet is an echo request with a right sum.
#[tactic(auto, unfolding(crate::specs::Echo::is_icmp_echo))]
pub fn is_icmp_echo(ip: &IpView<'_>) -> bool
    ensures request { result ≡ is_icmp_echo ip.now }
    ensures whole { IsTrue result → 8 ≤ length ip.now.payload }
{
    let message = ip.payload();
    if ip.protocol() != ICMP || message.len() < 8 {
        return false;
    }
    message[0] == ECHO_REQUEST && message[1] == 0 && sum16(message) == 0
}

/// Writes the answer to an echo request, and gives its length.
pub fn icmp_answer(view: &EthView<'_>, ip: &IpView<'_>, local: &Local, out: &mut [u8]) -> usize
    requires whole { 8 ≤ length ip.now.payload }
    requires small { length ip.now.payload + 34 ≤ BUFFER_BYTES }
    requires room { BUFFER_BYTES ≤ length out.old }
    ensures written { IsWritten (icmp_answer view.now ip.now local.now) result out.old out.new }
    ensures right { IsRightIcmp view.now ip.now local.now (icmp_reply ip.now.payload) (take result out.new) }
{
    let message = ip.payload();
    let [c0, c1] = sum16(&message[4..]).to_be_bytes();
    let at = put_headers(view, ip, local, ICMP, message.len() as u16, out);
    let at = put_bytes(out, at, &[0, 0, c0, c1]);
    put_bytes(out, at, &message[4..])
}
