// The sections of numbers, each with its keys in the order in which they are tested.
ghost use Rattle.std.specs.Prelude.{◌≡◌, IfOk};
ghost use Rattle.toml.specs.View.{table_view};
ghost use Rattle.ix_conf.specs.Sections.{IsCoreInRange, IsLocalInRange, IsTcpInRange, core_of, local_of, tcp_of};

use crate::keys::{ConfFault, ConfKey};
use crate::settings::AppKind;
use crate::values::{
    flag_or, number_or, required_app, required_ip, required_mac, required_number, section, value_in,
};
use toml::Table;

/// The keys of `local`.
#[derive(Clone, Copy, Debug, PartialEq, Eq)]
pub struct LocalKeys {
    pub mac: [u8; 6],
    pub ip: u32,
    pub port: u16,
    pub app: AppKind,
}

/// The keys of `core`.
#[derive(Clone, Copy, Debug, PartialEq, Eq)]
pub struct CoreKeys {
    pub cores: u8,
    pub live: u8,
    pub batch: u16,
    pub buffers: u32,
    pub pace: u32,
}

/// The keys of `tcp`.
#[derive(Clone, Copy, Debug, PartialEq, Eq)]
pub struct TcpKeys {
    pub window: u16,
    pub mss: u16,
    pub rto: u32,
    pub retries: u8,
    pub time_wait: u32,
    pub checksum: bool,
}

#[tactic(auto, unfolding(crate::specs::Sections::local_of))]
pub fn local_of(table: &Table) -> Result<LocalKeys, ConfFault>
    ensures keys { result ≡ local_of (table_view table.now) }
    ensures ranges { IfOk result IsLocalInRange }
{
    let local = section(table, "local", ConfKey::LocalMac)?;
    let mac = required_mac(value_in(local, "mac"), ConfKey::LocalMac)?;
    let ip = required_ip(value_in(local, "ip"), ConfKey::LocalIp)?;
    let port = required_number(value_in(local, "port"), ConfKey::LocalPort, 1, 65535)?;
    let app = required_app(value_in(local, "app"), ConfKey::LocalApp)?;
    Ok(LocalKeys {
        mac,
        ip,
        port: port as u16,
        app,
    })
}

#[tactic(auto, unfolding(crate::specs::Sections::core_of))]
pub fn core_of(table: &Table) -> Result<CoreKeys, ConfFault>
    ensures keys { result ≡ core_of (table_view table.now) }
    ensures ranges { IfOk result IsCoreInRange }
{
    let core = section(table, "core", ConfKey::CoreCores)?;
    let cores = number_or(value_in(core, "cores"), ConfKey::CoreCores, 1, 8, 1)?;
    let live = number_or(value_in(core, "live"), ConfKey::CoreLive, 1, cores, cores)?;
    let batch = number_or(value_in(core, "batch"), ConfKey::CoreBatch, 1, 256, 64)?;
    let buffers = number_or(
        value_in(core, "buffers"),
        ConfKey::CoreBuffers,
        64,
        4096,
        1024,
    )?;
    let pace = number_or(value_in(core, "pace"), ConfKey::CorePace, 0, 65536, 256)?;
    Ok(CoreKeys {
        cores: cores as u8,
        live: live as u8,
        batch: batch as u16,
        buffers,
        pace,
    })
}

#[tactic(auto, unfolding(crate::specs::Sections::tcp_of))]
pub fn tcp_of(table: &Table) -> Result<TcpKeys, ConfFault>
    ensures keys { result ≡ tcp_of (table_view table.now) }
    ensures ranges { IfOk result IsTcpInRange }
{
    let tcp = section(table, "tcp", ConfKey::TcpWindow)?;
    let window = number_or(
        value_in(tcp, "window"),
        ConfKey::TcpWindow,
        64,
        65535,
        32768,
    )?;
    let mss = number_or(value_in(tcp, "mss"), ConfKey::TcpMss, 64, 1460, 1460)?;
    let rto = number_or(value_in(tcp, "rto"), ConfKey::TcpRto, 1, 60000, 200)?;
    let retries = number_or(value_in(tcp, "retries"), ConfKey::TcpRetries, 1, 8, 5)?;
    let time_wait = number_or(
        value_in(tcp, "time_wait"),
        ConfKey::TcpTimeWait,
        1,
        60000,
        60000,
    )?;
    let checksum = flag_or(value_in(tcp, "checksum"), ConfKey::TcpChecksum, true)?;
    Ok(TcpKeys {
        window: window as u16,
        mss: mss as u16,
        rto,
        retries: retries as u8,
        time_wait,
        checksum,
    })
}
