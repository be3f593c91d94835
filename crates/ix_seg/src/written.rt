// The frame of a segment that is sent.
ghost use Rattle.std.specs.Prelude.{◌≡◌, ◌+◌, ◌≤◌, ◌<◌, ◌^◌, ◌++◌, ℕ, IfSome, take, drop, length};
ghost use Rattle.ix_ip.specs.Sum.{carried, word_sum, transport_sum_of};
ghost use Rattle.ix_seg.specs.Written.{IsInRange, IsReceived, frame_bytes, mss_option, offset_byte, segment_with, tcp_header_with};

use crate::segment::TCP;
use ix_base::{Flow, Local, SegHead};
use ix_eth::{IPV4, ethernet_header, put_bytes};
use ix_ip::{ip_header, ones_sum, pseudo_sum};

/// The data offset in its byte.
fn offset_byte(mss: Option<u16>) -> u8
    ensures { result ≡ offset_byte mss }
{
    match mss {
        Some(_) => 0x60,
        None => 0x50,
    }
}

/// The TCP header of a segment, with this checksum in it.
fn tcp_header(head: &SegHead, checksum: u16) -> [u8; 20]
    ensures bytes { result ≡ tcp_header_with head.now checksum }
    ensures fits { IsInRange head.now }
{
    let Flow {
        local_port,
        remote_port,
        ..
    } = head.flow;
    let (seq, ack, window) = (head.seq, head.ack, head.window);
    let [l0, l1] = local_port.to_be_bytes();
    let [r0, r1] = remote_port.to_be_bytes();
    let [s0, s1, s2, s3] = seq.to_be_bytes();
    let [a0, a1, a2, a3] = ack.to_be_bytes();
    let [w0, w1] = window.to_be_bytes();
    let [c0, c1] = checksum.to_be_bytes();
    let offset = offset_byte(head.mss);
    [
        l0, l1, r0, r1, s0, s1, s2, s3, a0, a1, a2, a3, offset, head.flags, w0, w1, c0, c1, 0, 0,
    ]
}

/// The length of the option of a maximum segment size.
fn option_len(mss: Option<u16>) -> u16
    ensures len { result ≡ length (mss_option mss) }
    ensures below { result ≤ 4 }
    ensures fits { IfSome mss (λ size. size < 2 ^ 16) }
{
    match mss {
        Some(_size) => 4,
        None => 0,
    }
}

/// Writes the option of a maximum segment size at a place, and gives the place behind it.
fn put_option(out: &mut [u8], at: usize, mss: Option<u16>) -> usize
    requires { at + 4 ≤ length out.old }
    ensures written { take result out.new ≡ take at out.old ++ mss_option mss }
    ensures rest { (n : ℕ) → result ≤ n → drop n out.new ≡ drop n out.old }
    ensures end { result ≡ at + length (mss_option mss) }
{
    match mss {
        Some(size) => {
            let [high, low] = size.to_be_bytes();
            put_bytes(out, at, &[2, 4, high, low])
        }
        None => at,
    }
}

/// The sum that goes on over the option of a maximum segment size.
fn option_sum(start: u16, mss: Option<u16>) -> u16
    ensures { result ≡ carried (start + word_sum (mss_option mss)) }
{
    match mss {
        Some(size) => {
            let [high, low] = size.to_be_bytes();
            ones_sum(start, &[2, 4, high, low])
        }
        None => ones_sum(start, &[]),
    }
}

/// The checksum of a segment of `len` bytes.
fn segment_sum(head: &SegHead, body: &[u8], len: u16) -> u16
    requires { len ≡ length (segment_with head.now body.now 0) }
    ensures { result ≡ transport_sum_of head.now.flow.local head.now.flow.remote 6 (segment_with head.now body.now 0) }
{
    let pseudo = pseudo_sum(head.flow.local, head.flow.remote, TCP, len);
    let header = ones_sum(pseudo, &tcp_header(head, 0));
    let option = option_sum(header, head.mss);
    0xffff - ones_sum(option, body)
}

/// Writes the frame of a segment to `out`, from the local to the remote end of its flow and from the local hardware address to the
/// peer's, and gives its length. A head has an MSS exactly where its SYN is set; its option is written then. The frame is not padded.
pub fn write_frame(head: &SegHead, body: &[u8], local: &Local, out: &mut [u8]) -> usize
    requires len { head.now.len ≡ length body.now }
    requires body_fits { length body.now ≤ 1460 }
    requires room { 58 + head.now.len ≤ length out.old }

    ensures written { take result out.new ≡ frame_bytes head.now local.now body.now }
    ensures length { result ≡ 54 + length (mss_option head.now.mss) + length body.now }
    ensures rest { drop result out.new ≡ drop result out.old }

    // Its receiver reads the same segment, with the ends exchanged.
    ensures received { IsReceived head.now local.now body.now (take result out.new) }
{
    let flow = head.flow;
    let len = 20 + option_len(head.mss) + head.len;
    let checksum = segment_sum(head, body, len);
    let at = put_bytes(out, 0, &ethernet_header(&head.peer_mac, &local.mac, IPV4));
    let at = put_bytes(out, at, &ip_header(flow.local, flow.remote, TCP, 20 + len));
    let at = put_bytes(out, at, &tcp_header(head, checksum));
    let at = put_option(out, at, head.mss);
    put_bytes(out, at, body)
}
