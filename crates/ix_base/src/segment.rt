// A TCP segment with the numbers of its headers, and what a call on a connection returns.

ghost use Rattle.std.specs.Prelude.{◌≡◌};
ghost use Rattle.ix_base.specs.Flags.{has_flag as flag_in};

use crate::{Bytes, Flow};

/// The flag bit of a segment that ends its sender's stream (RFC 9293, section 3.1).
pub const FIN: u8 = 0x01;

/// The flag bit of a segment that opens a connection (RFC 9293, section 3.1).
pub const SYN: u8 = 0x02;

/// The flag bit of a segment that resets a connection (RFC 9293, section 3.1).
pub const RST: u8 = 0x04;

/// The flag bit of a segment whose bytes are to be passed on at once (RFC 9293, section 3.1).
pub const PSH: u8 = 0x08;

/// The flag bit of a segment whose acknowledgement number counts (RFC 9293, section 3.1).
pub const ACK: u8 = 0x10;

/// Whether this bit of a segment's flags is set.
pub fn has_flag(flags: u8, bit: u8) -> bool
    ensures { result ≡ flag_in flags bit }
{
    flags & bit != 0
}

/// The numbers of a segment (RFC 9293, section 3.1), with its flow and its peer's hardware address.
#[derive(Clone, Copy, Debug, PartialEq, Eq)]
pub struct SegHead {
    pub flow: Flow,
    pub peer_mac: [u8; 6],
    pub seq: u32,
    pub ack: u32,
    /// The bits [`FIN`], [`SYN`], [`RST`], [`PSH`] and [`ACK`].
    pub flags: u8,
    pub window: u16,
    /// The maximum segment size option, where there is one.
    pub mss: Option<u16>,
    /// The body's length in bytes.
    pub len: u16,
    /// The place in the frame at which the body begins.
    pub at: u16,
}

/// A segment with its body.
#[derive(Debug, Drop)]
pub struct Seg {
    pub head: SegHead,
    pub body: Bytes,
}

/// What a call on a connection returns.
#[derive(Clone, Copy, Debug, PartialEq, Eq)]
pub enum Ret {
    /// It was done, for so many bytes where it counts bytes.
    Done(u32),
    /// No live connection has this handle.
    BadHandle,
    /// No knock is pending.
    NotKnocked,
    /// The connection doesn't stand as the call needs it.
    NotOpen,
    /// More bytes were given back than are unread.
    TooMuch,
    /// The address has no hardware address in the configuration.
    NoNeighbour,
    /// No local port is free.
    NoPort,
    /// The group has no room for one more connection.
    TableFull,
}
