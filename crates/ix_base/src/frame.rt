// This machine's addresses, and what becomes of a frame that no connection takes.

/// This machine's side: hardware address, IPv4 address and the port that its application serves.
#[derive(Clone, Copy, Debug, PartialEq, Eq)]
pub struct Local {
    pub mac: [u8; 6],
    pub ip: u32,
    pub port: u16,
}

/// Why no connection took a frame, in the order of the tests.
#[derive(Clone, Copy, Debug, PartialEq, Eq)]
pub enum Disposition {
    /// It is too short for Ethernet, or its type is neither ARP nor IPv4.
    NotIp,
    /// It is meant for another hardware address or another IPv4 address.
    NotOurs,
    /// It is an ARP packet, answered where it asks for this machine's address.
    Arp,
    /// There are fewer bytes than an IPv4 header has.
    BadIpShort,
    /// The IP version isn't 4.
    BadIpVersion,
    /// The header length or the total length can't be.
    BadIpLength,
    /// The IPv4 header's checksum is wrong.
    BadIpSum,
    /// It is a fragment of a datagram.
    BadIpFragment,
    /// Its protocol isn't TCP, and it is no echo request.
    NotTcp,
    /// There are fewer bytes than a TCP header has.
    BadTcpShort,
    /// The TCP data offset can't be.
    BadTcpOffset,
    /// The TCP checksum is wrong.
    BadTcpSum,
    /// It is a segment for which there is no connection, and none is opened.
    Closed,
    /// It would open a connection where the group has no room for one more.
    Full,
    /// It is an ICMP echo request, which is answered.
    IcmpEcho,
    /// It is a UDP datagram to the echo port, which is answered.
    UdpEcho,
}
