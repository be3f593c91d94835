// What a frame is: a segment for this machine, or one disposition.
ghost use Rattle.std.specs.Prelude.{◌≡◌, IfOk, Some};
ghost use Rattle.ix_base.specs.declared.frame.Disposition.{Disposition};
ghost use Rattle.ix_ip.specs.Packet.{Packet};
ghost use Rattle.ix_seg.specs.Frame.{ReadsAs, segment_of_frame, segment_of_ethernet, segment_of_packet, disposition_of_ip, disposition_of_tcp, not_tcp, flow_of_frame};

use crate::segment::{SegFault, SegView, TCP};
use ix_base::{Disposition, Local, SegHead};
use ix_eth::{ARP, EthView, IPV4};
use ix_ip::{IpFault, IpView};
use std::marker::Model;

/// A segment for this machine, with its body seen in the frame. Contracts see it as a [`Seg`](ix_base::Seg).
#[derive(Drop)]
pub struct SegFrame<'a> {
    head: SegHead,
    body: &'a [u8],
}

impl<'a> Model for SegFrame<'a> {
    ghost use Rattle.ix_base.specs.declared.segment.Seg.{Seg};

    ghost Value = { Seg };

    ghost view = { λ v. record { head = v.head; body = v.body.now } };
}

impl<'a> SegFrame<'a> {
    /// The numbers of the segment.
    pub fn head(&self) -> SegHead
        ensures { result ≡ self.now.head }
    {
        self.head
    }

    /// Its body.
    pub fn body(&self) -> &'a [u8]
        ensures { result.now ≡ self.now.body }
    {
        self.body
    }
}

/// The segment for this machine that a frame holds, or the disposition of the frame by the first test that decides. The TCP checksum
/// is tested only where `check` says so. A packet for this machine of another protocol than TCP is `NotTcp`; which of them are echo
/// requests is not told here.
#[tactic(auto, unfolding(crate::specs::Frame::segment_of_frame))]
pub fn read_frame<'a>(
    frame: &'a [u8],
    local: &Local,
    check: bool,
) -> Result<SegFrame<'a>, Disposition>
    ensures read { result ≡ segment_of_frame not_tcp local.now check frame.now }

    // The same for whoever tells echo requests apart.
    ensures other { (other : Packet → Disposition) → ReadsAs other local.now check frame.now result }

    // What is a segment names its own flow, so that it has the group of that flow.
    ensures flow { IfOk result (λ s. flow_of_frame frame.now ≡ Some s.head.flow) }
{
    match EthView::of(frame) {
        Some(ethernet) => read_ethernet(&ethernet, local, check),
        None => Err(Disposition::NotIp),
    }
}

#[tactic(auto, unfolding(crate::specs::Frame::segment_of_ethernet))]
fn read_ethernet<'a>(
    ethernet: &EthView<'a>,
    local: &Local,
    check: bool,
) -> Result<SegFrame<'a>, Disposition>
    ensures { result ≡ segment_of_ethernet not_tcp local.now check ethernet.now }
{
    if !ethernet.is_for(&local.mac) {
        return Err(Disposition::NotOurs);
    }
    if ethernet.kind() == ARP {
        return Err(Disposition::Arp);
    }
    if ethernet.kind() != IPV4 {
        return Err(Disposition::NotIp);
    }
    match IpView::of(ethernet.rest()) {
        Ok(ip) => read_packet(&ip, ethernet.src(), local, check),
        Err(fault) => Err(disposition_of_ip(fault)),
    }
}

#[tactic(auto, unfolding(crate::specs::Frame::segment_of_packet))]
fn read_packet<'a>(
    ip: &IpView<'a>,
    peer_mac: [u8; 6],
    local: &Local,
    check: bool,
) -> Result<SegFrame<'a>, Disposition>
    ensures { result ≡ segment_of_packet not_tcp local.now check peer_mac ip.now }
{
    if ip.dst() != local.ip {
        return Err(Disposition::NotOurs);
    }
    if ip.protocol() != TCP {
        return Err(Disposition::NotTcp);
    }
    match SegView::of(ip, check) {
        Ok(segment) => Ok(SegFrame {
            head: segment.head(peer_mac),
            body: segment.body(),
        }),
        Err(fault) => Err(disposition_of_tcp(fault)),
    }
}

fn disposition_of_ip(fault: IpFault) -> Disposition
    ensures { result ≡ disposition_of_ip fault }
{
    match fault {
        IpFault::Short => Disposition::BadIpShort,
        IpFault::BadVersion => Disposition::BadIpVersion,
        IpFault::BadLength => Disposition::BadIpLength,
        IpFault::BadSum => Disposition::BadIpSum,
        IpFault::Fragment => Disposition::BadIpFragment,
    }
}

fn disposition_of_tcp(fault: SegFault) -> Disposition
    ensures { result ≡ disposition_of_tcp fault }
{
    match fault {
        SegFault::Short => Disposition::BadTcpShort,
        SegFault::BadOffset => Disposition::BadTcpOffset,
        SegFault::BadSum => Disposition::BadTcpSum,
    }
}
