// The configuration of a play.
ghost use Rattle.std.specs.Prelude.{◌≤◌, All, IsTrue, length};
ghost use Rattle.ix_conf.specs.Neighbour.{has_distinct_addresses};

use ix_base::{Bytes, List};

/// The application that answers.
#[derive(Clone, Copy, Debug, PartialEq, Eq)]
pub enum AppKind {
    /// Answers with the bytes that it is told.
    Echo,
    /// Keeps values by key.
    Kv,
    /// Writes a text to each connection.
    Push,
}

/// A configuration, each number within its range.
#[derive(Debug, Drop)]
pub struct Conf {
    /// The hardware address of the local side.
    pub mac: [u8; 6],
    /// The IPv4 address of the local side, its first number highest.
    pub ip: u32,
    /// The port that the application serves.
    pub port: u16,
    /// The application that serves the port.
    pub app: AppKind,
    /// The number of cores.
    pub cores: u8,
    /// The number of cores among which the flow groups stand at the start.
    pub live: u8,
    /// The greatest number of frames that a core steps in one turn.
    pub batch: u16,
    /// The number of buffers of each core.
    pub buffers: u32,
    /// The number of frames after which a settle is added to the script, or 0 for never.
    pub pace: u32,
    /// The receive window of a connection in bytes.
    pub window: u16,
    /// The greatest segment in bytes, offered and sent.
    pub mss: u16,
    /// The retransmission timeout in ticks.
    pub rto: u32,
    /// The number of retransmissions after which a connection is given up.
    pub retries: u8,
    /// The time in TIME-WAIT in ticks.
    pub time_wait: u32,
    /// Whether the checksums of TCP segments are tested.
    pub checksum: bool,
    /// IPv4 addresses with their hardware addresses, each IPv4 address once.
    pub neighbours: List<(u32, [u8; 6])>,
    /// What the application push writes.
    pub text: Bytes,
    /// The IPv4 addresses and ports to which the application push connects.
    pub peers: List<(u32, u16)>,
    pub ghost port_range: { 1 ≤ port },
    pub ghost cores_range: { (1 ≤ cores) × (cores ≤ 8) },
    pub ghost live_range: { (1 ≤ live) × (live ≤ cores) },
    pub ghost batch_range: { (1 ≤ batch) × (batch ≤ 256) },
    pub ghost buffers_range: { (64 ≤ buffers) × (buffers ≤ 4096) },
    pub ghost pace_range: { pace ≤ 65536 },
    pub ghost window_range: { 64 ≤ window },
    pub ghost mss_range: { (64 ≤ mss) × (mss ≤ 1460) },
    pub ghost rto_range: { (1 ≤ rto) × (rto ≤ 60000) },
    pub ghost retries_range: { (1 ≤ retries) × (retries ≤ 8) },
    pub ghost time_wait_range: { (1 ≤ time_wait) × (time_wait ≤ 60000) },
    pub ghost neighbours_count: { length neighbours ≤ 64 },
    pub ghost neighbours_distinct: { IsTrue (has_distinct_addresses neighbours) },
    pub ghost text_length: { length text ≤ 65536 },
    pub ghost peers_count: { length peers ≤ 64 },
    pub ghost peers_ports: { All (λ peer. 1 ≤ peer.1) peers },
}
