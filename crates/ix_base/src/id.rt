// Names of the things that a play moves.

/// How many flow groups there are.
pub const FLOW_GROUPS: usize = 512;

/// How many bytes a packet buffer has. A longer frame is too long for every buffer.
pub const BUFFER_BYTES: usize = 2048;

/// A flow group: the unit by which connections move between cores. Group 0 also takes every frame that isn't TCP.
#[derive(Clone, Copy, Debug, PartialEq, Eq, PartialOrd, Ord, Hash)]
pub struct GroupId(pub u16);

/// A core, counted from 0.
#[derive(Clone, Copy, Debug, PartialEq, Eq, PartialOrd, Ord, Hash)]
pub struct CoreId(pub u8);

/// The place of an entry in the wire list, counted from 0.
#[derive(Clone, Copy, Debug, PartialEq, Eq, PartialOrd, Ord, Hash)]
pub struct WireNo(pub u32);

/// A packet buffer: the core whose pool it belongs to, and its slot there.
#[derive(Clone, Copy, Debug, PartialEq, Eq, PartialOrd, Ord, Hash)]
pub struct BufId {
    pub home: CoreId,
    pub slot: u32,
}

/// The two ends of a connection, seen from this machine. Addresses are IPv4 addresses as numbers, the first octet the highest.
#[derive(Clone, Copy, Debug, PartialEq, Eq, PartialOrd, Ord, Hash)]
pub struct Flow {
    pub remote: u32,
    pub local: u32,
    pub remote_port: u16,
    pub local_port: u16,
}

/// What an application calls a connection by. A key is used again; a generation never is, within its key.
#[derive(Clone, Copy, Debug, PartialEq, Eq, PartialOrd, Ord, Hash)]
pub struct Handle {
    pub group: GroupId,
    pub key: u32,
    pub generation: u32,
}

/// How many buffers of one home are held out of order, lent to the application, and queued to be sent.
#[derive(Clone, Copy, Debug, PartialEq, Eq)]
pub struct Owned {
    pub held: u32,
    pub app: u32,
    pub queue: u32,
}
