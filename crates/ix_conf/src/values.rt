// The values of a configuration, one at a time.
ghost use Rattle.std.specs.Prelude.{◌≡◌, ◌≤◌, option_map, IfOk, IfSome};
ghost use Rattle.toml.specs.Data.{as_bool, get_member};
ghost use Rattle.toml.specs.View.{table_view, view};
ghost use Rattle.ix_conf.specs.Value.{app_in, ip_in, mac_in, number_in, required, section_of, section_members, section_view, with_default};

use crate::address::{ip_of, mac_of};
use crate::keys::{ConfFault, ConfKey};
use crate::settings::AppKind;
use toml::{Table, Value};

/// The value at a key of a table, if it is there.
pub fn value_at<'a>(table: &'a Table, name: &str) -> Option<&'a Value>
    ensures { option_map (λ v. view v.now) result ≡ get_member name.now (table_view table.now) }
{
    table.get(name)
}

/// A section of the configuration, if it is there. One that is no table is a fault at its first key.
#[tactic(auto, unfolding(crate::specs::Value::section_of))]
pub fn section<'a>(
    table: &'a Table,
    name: &str,
    first: ConfKey,
) -> Result<Option<&'a Table>, ConfFault>
    ensures { section_view result ≡ section_of name.now first (table_view table.now) }
{
    match value_at(table, name) {
        None => Ok(None),
        Some(value) => match value.as_table() {
            Some(members) => Ok(Some(members)),
            None => Err(ConfFault::Range { key: first }),
        },
    }
}

/// The value at a key of a section, if both are there.
pub fn value_in<'a>(section: Option<&'a Table>, name: &str) -> Option<&'a Value>
    ensures { option_map (λ v. view v.now) result ≡ get_member name.now (section_members section.entry) }
{
    match section {
        Some(members) => value_at(members, name),
        None => None,
    }
}

/// A whole number within a range.
pub fn number_in(value: &Value, low: u32, high: u32) -> Option<u32>
    ensures number { result ≡ number_in low high (view value.now) }
    ensures range { IfSome result (λ n. (low ≤ n) × (n ≤ high)) }
{
    match value {
        Value::Integer(n) => {
            if *n < low as i64 || *n > high as i64 {
                None
            } else {
                Some(*n as u32)
            }
        }
        _ => None,
    }
}

/// A hardware address.
pub fn mac_in(value: &Value) -> Option<[u8; 6]>
    ensures { result ≡ mac_in (view value.now) }
{
    match value.as_str() {
        Some(text) => mac_of(text.as_bytes()),
        None => None,
    }
}

/// An IPv4 address.
pub fn ip_in(value: &Value) -> Option<u32>
    ensures { result ≡ ip_in (view value.now) }
{
    match value.as_str() {
        Some(text) => ip_of(text.as_bytes()),
        None => None,
    }
}

fn app_in(value: &Value) -> Option<AppKind>
    ensures { result ≡ app_in (view value.now) }
{
    match value.as_str() {
        Some(text) => {
            if text == "echo" {
                Some(AppKind::Echo)
            } else if text == "kv" {
                Some(AppKind::Kv)
            } else if text == "push" {
                Some(AppKind::Push)
            } else {
                None
            }
        }
        None => None,
    }
}

/// A number that has to be there.
pub fn required_number(
    found: Option<&Value>,
    key: ConfKey,
    low: u32,
    high: u32,
) -> Result<u32, ConfFault>
    ensures number { result ≡ required key (number_in low high) (option_map (λ v. view v.now) found.entry) }
    ensures range { IfOk result (λ n. (low ≤ n) × (n ≤ high)) }
{
    match found {
        Some(value) => number_in(value, low, high).ok_or(ConfFault::Range { key }),
        None => Err(ConfFault::Missing { key }),
    }
}

/// A number with a default.
pub fn number_or(
    found: Option<&Value>,
    key: ConfKey,
    low: u32,
    high: u32,
    default: u32,
) -> Result<u32, ConfFault>
    requires low { low ≤ default }
    requires high { default ≤ high }
    ensures number { result ≡ with_default key default (number_in low high) (option_map (λ v. view v.now) found.entry) }
    ensures range { IfOk result (λ n. (low ≤ n) × (n ≤ high)) }
{
    match found {
        Some(value) => number_in(value, low, high).ok_or(ConfFault::Range { key }),
        None => Ok(default),
    }
}

/// A truth value with a default.
pub fn flag_or(found: Option<&Value>, key: ConfKey, default: bool) -> Result<bool, ConfFault>
    ensures { result ≡ with_default key default as_bool (option_map (λ v. view v.now) found.entry) }
{
    match found {
        Some(value) => value.as_bool().ok_or(ConfFault::Range { key }),
        None => Ok(default),
    }
}

/// A hardware address that has to be there.
pub fn required_mac(found: Option<&Value>, key: ConfKey) -> Result<[u8; 6], ConfFault>
    ensures { result ≡ required key mac_in (option_map (λ v. view v.now) found.entry) }
{
    match found {
        Some(value) => mac_in(value).ok_or(ConfFault::Range { key }),
        None => Err(ConfFault::Missing { key }),
    }
}

/// An IPv4 address that has to be there.
pub fn required_ip(found: Option<&Value>, key: ConfKey) -> Result<u32, ConfFault>
    ensures { result ≡ required key ip_in (option_map (λ v. view v.now) found.entry) }
{
    match found {
        Some(value) => ip_in(value).ok_or(ConfFault::Range { key }),
        None => Err(ConfFault::Missing { key }),
    }
}

/// An application that has to be there.
pub fn required_app(found: Option<&Value>, key: ConfKey) -> Result<AppKind, ConfFault>
    ensures { result ≡ required key app_in (option_map (λ v. view v.now) found.entry) }
{
    match found {
        Some(value) => app_in(value).ok_or(ConfFault::Range { key }),
        None => Err(ConfFault::Missing { key }),
    }
}
