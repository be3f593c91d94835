// A law over all packets.
ghost use Rattle.ix_ip.specs.Packet.{PayloadsLieWithin};

/// Nothing happens here: the contract says what is true of every packet.
///
/// Its payload is a part of the bytes that it is read from and lies within them, behind a header of at least 20 bytes (RFC 791, section 3.1).
pub fn payloads_lie_within()
    ensures { PayloadsLieWithin }
{}
