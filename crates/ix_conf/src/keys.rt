// The keys of a configuration by name, and what may be wrong with one.
ghost use Rattle.std.specs.Prelude.{◌≡◌};
ghost use Rattle.ix_conf.specs.Key.{key_text};

use std::fmt;
use thiserror::Error;

/// A key of the configuration, in the order in which the keys are tested.
#[derive(Clone, Copy, Debug, PartialEq, Eq)]
pub enum ConfKey {
    /// `local.mac`: the hardware address of the local side.
    LocalMac,
    /// `local.ip`: the IPv4 address of the local side.
    LocalIp,
    /// `local.port`: the port that is served.
    LocalPort,
    /// `local.app`: the application.
    LocalApp,
    /// `core.cores`: the number of cores.
    CoreCores,
    /// `core.live`: the number of cores that are live at the start.
    CoreLive,
    /// `core.batch`: the most frames of a turn.
    CoreBatch,
    /// `core.buffers`: the buffers of each core.
    CoreBuffers,
    /// `core.pace`: the frames after which a settle is added.
    CorePace,
    /// `tcp.window`: the receive window in octets.
    TcpWindow,
    /// `tcp.mss`: the greatest segment in octets.
    TcpMss,
    /// `tcp.rto`: the retransmission timeout in ticks.
    TcpRto,
    /// `tcp.retries`: the number of retransmissions.
    TcpRetries,
    /// `tcp.time_wait`: the time in TIME-WAIT in ticks.
    TcpTimeWait,
    /// `tcp.checksum`: whether checksums are tested.
    TcpChecksum,
    /// `neighbour`: the known neighbours.
    Neighbour,
    /// `push.text`: what the application push writes.
    PushText,
    /// `push.peers`: the peers of the application push.
    PushPeers,
}

impl ConfKey {
    /// The key as it is written, its section and its name joined by a dot, as `core.batch`.
    pub fn text(&self) -> &'static str
        ensures { result.now ≡ key_text self.now }
    {
        match self {
            ConfKey::LocalMac => "local.mac",
            ConfKey::LocalIp => "local.ip",
            ConfKey::LocalPort => "local.port",
            ConfKey::LocalApp => "local.app",
            ConfKey::CoreCores => "core.cores",
            ConfKey::CoreLive => "core.live",
            ConfKey::CoreBatch => "core.batch",
            ConfKey::CoreBuffers => "core.buffers",
            ConfKey::CorePace => "core.pace",
            ConfKey::TcpWindow => "tcp.window",
            ConfKey::TcpMss => "tcp.mss",
            ConfKey::TcpRto => "tcp.rto",
            ConfKey::TcpRetries => "tcp.retries",
            ConfKey::TcpTimeWait => "tcp.time_wait",
            ConfKey::TcpChecksum => "tcp.checksum",
            ConfKey::Neighbour => "neighbour",
            ConfKey::PushText => "push.text",
            ConfKey::PushPeers => "push.peers",
        }
    }
}

impl fmt::Display for ConfKey {
    fn fmt<W: fmt::Write>(&self, f: &mut fmt::Formatter<W>) -> fmt::Result {
        f.write_str(self.text())
    }
}

/// The first thing that is wrong with a configuration, or that memory ran out.
#[derive(Clone, Copy, Debug, PartialEq, Eq, Error)]
pub enum ConfFault {
    /// The bytes are no TOML document.
    #[error("the configuration is no TOML")]
    Text,
    /// A table has a key that no configuration has.
    #[error("the configuration has an unknown key")]
    Unknown,
    /// A key that has to be there is not.
    #[error("the configuration lacks {key}")]
    Missing { key: ConfKey },
    /// A key has a value of another kind, or one that it may not have.
    #[error("the configuration has another value at {key} than it may have")]
    Range { key: ConfKey },
    /// Memory ran out.
    #[error("out of memory")]
    NoMemory,
}
