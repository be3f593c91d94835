// The headers of an answer.
ghost use Rattle.std.specs.Prelude.{◌≡◌, ◌+◌, ◌≤◌, ◌<◌, ◌^◌, ◌++◌, ℕ, take, drop, length};
ghost use Rattle.ix_eth.specs.Ethernet.{ethernet_header, IsHeader};
ghost use Rattle.ix_ip.specs.Header.{ip_header, IsPacketHeader};

use ix_base::Local;
use ix_eth::{EthView, IPV4, ethernet_header, put_bytes};
use ix_ip::{IpView, ip_header};

/// Writes the Ethernet and IPv4 headers of the answer to a packet, with `len` bytes to come behind them, and gives their place.
pub fn put_headers(
    view: &EthView<'_>,
    ip: &IpView<'_>,
    local: &Local,
    protocol: u8,
    len: u16,
    out: &mut [u8],
) -> usize
    requires small { len + 20 < 2 ^ 16 }
    requires room { 34 ≤ length out.old }
    ensures written { take result out.new ≡ ethernet_header view.now.src local.now.mac 0x0800 ++ ip_header local.now.ip ip.now.src protocol (20 + len) }
    ensures rest { (n : ℕ) → result ≤ n → drop n out.new ≡ drop n out.old }
    ensures end { result ≡ 34 }
    ensures ethernet { IsHeader view.now.src local.now.mac 0x0800 (ethernet_header view.now.src local.now.mac 0x0800) }
    ensures packet { IsPacketHeader local.now.ip ip.now.src protocol (20 + len) (ip_header local.now.ip ip.now.src protocol (20 + len)) }
{
    let at = put_bytes(out, 0, &ethernet_header(&view.src(), &local.mac, IPV4));
    put_bytes(out, at, &ip_header(local.ip, ip.src(), protocol, 20 + len))
}
