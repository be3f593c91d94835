// The keys of the application push.
ghost use Rattle.std.specs.Prelude.{◌≡◌, ◌≤◌, [], All, IfOk, IfSome, length, ok_or, option_map};
ghost use Rattle.toml.specs.View.{array_view, table_view, view};
ghost use Rattle.ix_conf.specs.Value.{Gives, with_default};
ghost use Rattle.ix_conf.specs.Push.{IsPushInRange, push_of};
ghost use Rattle.ix_conf.specs.Tables.{HasPorts, all_of, peer_in, peers_in, text_in};

use crate::keys::{ConfFault, ConfKey};
use crate::values::{ip_in, number_in, section, value_at, value_in};
use ix_base::{Bytes, List};
use std::alloc::Global;
use toml::value::Array;
use toml::{Table, Value};

/// The keys of `push`.
#[derive(Debug, Drop)]
pub struct PushKeys {
    pub text: Bytes,
    pub peers: List<(u32, u16)>,
}

/// A text of at most 65,536 bytes, empty where the key is absent.
fn text_of(alloc: Global, found: Option<&Value>) -> Result<Bytes, ConfFault>
    ensures read { Gives (λ l. l) result (with_default ConfKey.PushText [] text_in (option_map (λ v. view v.now) found.entry)) }
    ensures count { IfOk result (λ l. length l ≤ 65536) }
{
    let refused = ConfFault::Range {
        key: ConfKey::PushText,
    };
    let Some(value) = found else {
        return Ok(List::new(alloc));
    };
    let Some(text) = value.as_str() else {
        return Err(refused);
    };
    if text.len() > 65536 {
        return Err(refused);
    }
    match Bytes::from_slice(alloc, text.as_bytes()) {
        Ok(bytes) => Ok(bytes),
        Err(_) => Err(ConfFault::NoMemory),
    }
}

/// A table of `push.peers`: an IPv4 address and a port.
fn peer_in(value: &Value) -> Option<(u32, u16)>
    ensures read { result ≡ peer_in (view value.now) }
    ensures port { IfSome result (λ peer. 1 ≤ peer.1) }
{
    let members = value.as_table()?;
    let ip = ip_in(value_at(members, "ip")?)?;
    let port = number_in(value_at(members, "port")?, 1, 65535)?;
    Some((ip, port as u16))
}

/// The tables of an array, if each of them is a peer.
fn all_peers(alloc: Global, array: &Array) -> Result<List<(u32, u16)>, ConfFault>
    ensures read { Gives (λ l. l) result (ok_or (all_of peer_in (array_view array.now)) (ConfFault.Range ConfKey.PushPeers)) }
    ensures ports { IfOk result HasPorts }
{
    let mut peers = List::new(alloc);
    for element in array {
        match peer_in(element) {
            Some(peer) => {
                if peers.push(peer).is_err() {
                    return Err(ConfFault::NoMemory);
                }
            }
            None => {
                return Err(ConfFault::Range {
                    key: ConfKey::PushPeers,
                });
            }
        }
    }
    Ok(peers)
}

/// An array of at most 64 peers.
fn peers_in(alloc: Global, value: &Value) -> Result<List<(u32, u16)>, ConfFault>
    ensures read { Gives (λ l. l) result (ok_or (peers_in (view value.now)) (ConfFault.Range ConfKey.PushPeers)) }
    ensures count { IfOk result (λ l. length l ≤ 64) }
    ensures ports { IfOk result HasPorts }
{
    let refused = ConfFault::Range {
        key: ConfKey::PushPeers,
    };
    let Some(array) = value.as_array() else {
        return Err(refused);
    };
    let peers = all_peers(alloc, array)?;
    if peers.len() > 64 {
        return Err(refused);
    }
    Ok(peers)
}

/// The peers, none where the key is absent.
fn peers_of(alloc: Global, found: Option<&Value>) -> Result<List<(u32, u16)>, ConfFault>
    ensures read { Gives (λ l. l) result (with_default ConfKey.PushPeers [] peers_in (option_map (λ v. view v.now) found.entry)) }
    ensures count { IfOk result (λ l. length l ≤ 64) }
    ensures ports { IfOk result HasPorts }
{
    match found {
        Some(value) => peers_in(alloc, value),
        None => Ok(List::new(alloc)),
    }
}

#[tactic(auto, unfolding(crate::specs::Push::push_of))]
pub fn push_of(alloc: Global, table: &Table) -> Result<PushKeys, ConfFault>
    ensures keys { Gives (λ keys. keys) result (push_of (table_view table.now)) }
    ensures ranges { IfOk result IsPushInRange }
{
    let push = section(table, "push", ConfKey::PushText)?;
    let text = text_of(alloc, value_in(push, "text"))?;
    let peers = peers_of(alloc, value_in(push, "peers"))?;
    Ok(PushKeys { text, peers })
}
