// The store of one connection.
ghost use Rattle.std.specs.Prelude.{◌≡◌, ◌++◌, codes, OnOk};
ghost use Rattle.std.specs.List.{position};
ghost use Rattle.ix_appdef.specs.Store.{line, has_key, entry, set_at, value_at, removed_at, carried_out};

use crate::request::Request;
use ix_base::{Bytes, List, NoMemory};

/// How many keys a store may hold.
pub const KEYS_MOST: usize = 256;

/// A key with its value.
#[derive(Debug, Drop)]
pub struct Entry {
    pub key: Bytes,
    pub value: Bytes,
}

fn has_key(entry: &Entry, key: &[u8]) -> bool
    ensures { result ≡ has_key key.now entry.now }
{
    entry.key.as_slice() == key
}

// The place of a key.
fn find_key(store: &List<Entry>, key: &[u8]) -> Option<usize>
    ensures { result ≡ position (has_key key.now) store.now }
{
    store
        .as_slice()
        .iter()
        .position(|entry| has_key(entry, key))
}

fn set(
    key: Bytes,
    value: Bytes,
    store: &mut List<Entry>,
    answer: &mut Bytes,
) -> Result<(), NoMemory>
    ensures store { OnOk result (store.new ≡ (set_at (position (has_key key) store.old) (entry key value) store.old).store) }
    ensures answer { OnOk result (answer.new ≡ answer.old ++ (set_at (position (has_key key) store.old) (entry key value) store.old).answer) }
{
    match find_key(store, key.as_slice()) {
        Some(at) => {
            store.set(at, Entry { key, value });
            answer.extend_from_slice(b"ok\n")
        }
        None => {
            if store.len() >= KEYS_MOST {
                return answer.extend_from_slice(b"full\n");
            }
            store.push(Entry { key, value })?;
            answer.extend_from_slice(b"ok\n")
        }
    }
}

// The line of a value that is held.
#[tactic(auto, using(crate::proofs::AnswerLaws::append_joins))]
fn put_value(value: &[u8], answer: &mut Bytes) -> Result<(), NoMemory>
    ensures { OnOk result (answer.new ≡ answer.old ++ line (codes "value " ++ value.now)) }
{
    answer.extend_from_slice(b"value ")?;
    answer.extend_from_slice(value)?;
    answer.extend_from_slice(b"\n")
}

fn get(key: &[u8], store: &List<Entry>, answer: &mut Bytes) -> Result<(), NoMemory>
    ensures { OnOk result (answer.new ≡ answer.old ++ value_at (position (has_key key.now) store.now) store.now) }
{
    match find_key(store, key) {
        Some(at) => match store.get(at) {
            Some(entry) => put_value(entry.value.as_slice(), answer),
            None => answer.extend_from_slice(b"none\n"),
        },
        None => answer.extend_from_slice(b"none\n"),
    }
}

fn del(key: &[u8], store: &mut List<Entry>, answer: &mut Bytes) -> Result<(), NoMemory>
    ensures store { OnOk result (store.new ≡ (removed_at (position (has_key key.now) store.old) store.old).store) }
    ensures answer { OnOk result (answer.new ≡ answer.old ++ (removed_at (position (has_key key.now) store.old) store.old).answer) }
{
    match find_key(store, key) {
        Some(at) => {
            let _gone = store.remove(at);
            answer.extend_from_slice(b"ok\n")
        }
        None => answer.extend_from_slice(b"none\n"),
    }
}

/// Carries out a request: the store changes, and the answer with its line feed joins what was answered. A new key is `full` where 256 are
/// held.
#[tactic(auto, unfolding(crate::specs::Store::carried_out))]
pub fn carry_out(
    request: Request,
    store: &mut List<Entry>,
    answer: &mut Bytes,
) -> Result<(), NoMemory>
    ensures store { OnOk result (store.new ≡ (carried_out request store.old).store) }
    ensures answer { OnOk result (answer.new ≡ answer.old ++ (carried_out request store.old).answer) }
{
    match request {
        Request::Set { key, value } => set(key, value, store, answer),
        Request::Get { key } => get(key.as_slice(), store, answer),
        Request::Del { key } => del(key.as_slice(), store, answer),
        Request::Bad => answer.extend_from_slice(b"bad\n"),
    }
}
