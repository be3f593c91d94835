// Keys that no configuration has, at any depth.
ghost use Rattle.std.specs.Prelude.{◌≡◌};
ghost use Rattle.toml.specs.View.{view, array_view, table_view};
ghost use Rattle.ix_conf.specs.Unknown.{allows, below, is_unknown, is_unknown_in_items, is_unknown_in_members};

use toml::value::Array;
use toml::{Table, Value};

/// Where a value stands in a configuration.
#[derive(Clone, Copy, Debug, PartialEq, Eq)]
pub enum Place {
    Root,
    Local,
    Core,
    Tcp,
    Neighbour,
    Push,
    Peers,
    /// At a key whose value is no table.
    Leaf,
}

/// Whether a table at this place may have a key.
#[tactic(auto, unfolding(crate::specs::Unknown::allows))]
fn allows(place: Place, key: &str) -> bool
    ensures { result ≡ allows place key.now }
{
    match place {
        Place::Root => {
            key == "local" || key == "core" || key == "tcp" || key == "neighbour" || key == "push"
        }
        Place::Local => key == "mac" || key == "ip" || key == "port" || key == "app",
        Place::Core => {
            key == "cores" || key == "live" || key == "batch" || key == "buffers" || key == "pace"
        }
        Place::Tcp => {
            key == "window"
                || key == "mss"
                || key == "rto"
                || key == "retries"
                || key == "time_wait"
                || key == "checksum"
        }
        Place::Neighbour => key == "ip" || key == "mac",
        Place::Push => key == "text" || key == "peers",
        Place::Peers => key == "ip" || key == "port",
        Place::Leaf => false,
    }
}

/// Where the value of an allowed key of a table at this place stands.
#[tactic(auto, unfolding(crate::specs::Unknown::below))]
fn below(place: Place, key: &str) -> Place
    ensures { result ≡ below place key.now }
{
    match place {
        Place::Root => {
            if key == "local" {
                Place::Local
            } else if key == "core" {
                Place::Core
            } else if key == "tcp" {
                Place::Tcp
            } else if key == "neighbour" {
                Place::Neighbour
            } else {
                Place::Push
            }
        }
        Place::Push => {
            if key == "peers" {
                Place::Peers
            } else {
                Place::Leaf
            }
        }
        _ => Place::Leaf,
    }
}

/// Whether some key at or below this place is unknown. The elements of an array stand at its place.
#[cycle(unknown)]
fn is_unknown(place: Place, value: &Value) -> bool
    ensures { result ≡ is_unknown place (view value.now) }
{
    match value {
        Value::Array(array) => is_unknown_in_items(place, array),
        Value::Table(table) => is_unknown_in_members(place, table),
        _ => false,
    }
}

#[cycle(unknown)]
fn is_unknown_in_items(place: Place, array: &Array) -> bool
    ensures { result ≡ is_unknown_in_items place (array_view array.now) }
{
    'items: for item in array {
        if is_unknown(place, item) {
            return true;
        }
    }
    false
}

#[cycle(unknown)]
pub fn is_unknown_in_members(place: Place, table: &Table) -> bool
    ensures { result ≡ is_unknown_in_members place (table_view table.now) }
{
    'members: for (key, member) in table.iter() {
        if !allows(place, key) || is_unknown(below(place, key), member) {
            return true;
        }
    }
    false
}
