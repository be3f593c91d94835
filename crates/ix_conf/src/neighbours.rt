// The neighbours, whose hardware addresses the configuration gives.
ghost use Rattle.std.specs.Prelude.{◌≡◌, ◌≤◌, [], IfOk, IsTrue, codes, length, ok_or};
ghost use Rattle.toml.specs.Data.{get_member};
ghost use Rattle.toml.specs.View.{array_view, table_view, view};
ghost use Rattle.ix_conf.specs.Value.{Gives, with_default};
ghost use Rattle.ix_conf.specs.Neighbour.{has_address, has_distinct_addresses};
ghost use Rattle.ix_conf.specs.Tables.{all_of, neighbour_in, neighbours_in};

use crate::keys::{ConfFault, ConfKey};
use crate::values::{ip_in, mac_in, value_at};
use ix_base::List;
use std::alloc::Global;
use toml::value::Array;
use toml::{Table, Value};

/// A table of `neighbour`: an IPv4 address and a hardware address.
fn neighbour_in(value: &Value) -> Option<(u32, [u8; 6])>
    ensures { result ≡ neighbour_in (view value.now) }
{
    let members = value.as_table()?;
    let ip = ip_in(value_at(members, "ip")?)?;
    let mac = mac_in(value_at(members, "mac")?)?;
    Some((ip, mac))
}

fn has_address(neighbours: &[(u32, [u8; 6])], ip: u32) -> bool
    ensures { result ≡ has_address neighbours.now ip }
{
    neighbours.iter().any(|neighbour| neighbour.0 == ip)
}

fn has_distinct_addresses(neighbours: &[(u32, [u8; 6])]) -> bool
    ensures { result ≡ has_distinct_addresses neighbours.now }
{
    for (i, neighbour) in neighbours.iter().enumerate() {
        if has_address(&neighbours[i + 1..], neighbour.0) {
            return false;
        }
    }
    true
}

/// The tables of an array, if each of them is a neighbour.
fn all_neighbours(alloc: Global, array: &Array) -> Result<List<(u32, [u8; 6])>, ConfFault>
    ensures { Gives (λ l. l) result (ok_or (all_of neighbour_in (array_view array.now)) (ConfFault.Range ConfKey.Neighbour)) }
{
    let mut neighbours = List::new(alloc);
    for element in array {
        match neighbour_in(element) {
            Some(neighbour) => {
                if neighbours.push(neighbour).is_err() {
                    return Err(ConfFault::NoMemory);
                }
            }
            None => {
                return Err(ConfFault::Range {
                    key: ConfKey::Neighbour,
                });
            }
        }
    }
    Ok(neighbours)
}

/// An array of at most 64 neighbours, no two of which have one IPv4 address.
fn neighbours_in(alloc: Global, value: &Value) -> Result<List<(u32, [u8; 6])>, ConfFault>
    ensures read { Gives (λ l. l) result (ok_or (neighbours_in (view value.now)) (ConfFault.Range ConfKey.Neighbour)) }
    ensures count { IfOk result (λ l. length l ≤ 64) }
    ensures distinct { IfOk result (λ l. IsTrue (has_distinct_addresses l)) }
{
    let refused = ConfFault::Range {
        key: ConfKey::Neighbour,
    };
    let Some(array) = value.as_array() else {
        return Err(refused);
    };
    let neighbours = all_neighbours(alloc, array)?;
    if neighbours.len() > 64 {
        return Err(refused);
    }
    if !has_distinct_addresses(neighbours.as_slice()) {
        return Err(refused);
    }
    Ok(neighbours)
}

/// The neighbours, none where the key is absent.
pub fn neighbours_of(alloc: Global, table: &Table) -> Result<List<(u32, [u8; 6])>, ConfFault>
    ensures read { Gives (λ l. l) result (with_default ConfKey.Neighbour [] neighbours_in (get_member (codes "neighbour") (table_view table.now))) }
    ensures count { IfOk result (λ l. length l ≤ 64) }
    ensures distinct { IfOk result (λ l. IsTrue (has_distinct_addresses l)) }
{
    match value_at(table, "neighbour") {
        Some(value) => neighbours_in(alloc, value),
        None => Ok(List::new(alloc)),
    }
}
