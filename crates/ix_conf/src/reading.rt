// A whole configuration.
ghost use Rattle.std.specs.Prelude.{◌≡◌};
ghost use Rattle.toml.specs.View.{table_view};
ghost use Rattle.ix_conf.specs.Value.{Gives};
ghost use Rattle.ix_conf.specs.Settings.{conf_of, keys_of, settings_of};

use crate::keys::ConfFault;
use crate::neighbours::neighbours_of;
use crate::push::push_of;
use crate::sections::{core_of, local_of, tcp_of};
use crate::settings::Conf;
use crate::unknown::{Place, is_unknown_in_members};
use std::alloc::Global;
use toml::Table;

/// The configuration of a document all of whose keys are known.
#[tactic(auto, unfolding(crate::specs::Settings::keys_of))]
fn keys_of(alloc: Global, table: &Table) -> Result<Conf, ConfFault>
    ensures { Gives settings_of result (keys_of (table_view table.now)) }
{
    let local = local_of(table)?;
    let mac = local.mac;
    let core = core_of(table)?;
    let tcp = tcp_of(table)?;
    let neighbours = neighbours_of(alloc, table)?;
    let push = push_of(alloc, table)?;
    Ok(Conf {
        mac,
        ip: local.ip,
        port: local.port,
        app: local.app,
        cores: core.cores,
        live: core.live,
        batch: core.batch,
        buffers: core.buffers,
        pace: core.pace,
        window: tcp.window,
        mss: tcp.mss,
        rto: tcp.rto,
        retries: tcp.retries,
        time_wait: tcp.time_wait,
        checksum: tcp.checksum,
        neighbours,
        text: push.text,
        peers: push.peers,
    })
}

/// Reads the bytes of a configuration, or answers the first fault: `Text` where they are no TOML
/// document, `Unknown` where a table at any depth has a key that no configuration has, and then the
/// first key in the order of `ConfKey` that is `Missing` or has another value than it may have.
pub fn read_conf(alloc: Global, bytes: &[u8]) -> Result<Conf, ConfFault>
    ensures { Gives settings_of result (conf_of bytes.now) }
{
    match toml::table_from_slice(alloc, bytes) {
        Ok(table) => {
            if is_unknown_in_members(Place::Root, &table) {
                return Err(ConfFault::Unknown);
            }
            keys_of(alloc, &table)
        }
        Err(error) => {
            if error.is_memory() {
                Err(ConfFault::NoMemory)
            } else {
                Err(ConfFault::Text)
            }
        }
    }
}
