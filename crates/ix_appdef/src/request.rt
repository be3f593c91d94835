// One line of the key-value protocol.
ghost use Rattle.std.specs.Prelude.{◌≡◌, IfOk};
ghost use Rattle.std.specs.List.{list_all, position};
ghost use Rattle.ix_appdef.specs.Request.{is_visible, is_blank, is_word, set_of, request_in, without_return, request_of};

use ix_base::{Bytes, NoMemory};
use std::alloc::Global;

/// How many bytes a key, a value and a line before its line feed may have.
pub const KEY_MOST: usize = 64;

pub const VALUE_MOST: usize = 512;

pub const LINE_MOST: usize = 1024;

/// What a line asks for.
#[derive(Debug, Drop)]
pub enum Request {
    /// `set K V`: the key has this value from now on.
    Set { key: Bytes, value: Bytes },
    /// `get K`: which value the key has.
    Get { key: Bytes },
    /// `del K`: the key is held no longer.
    Del { key: Bytes },
    /// Anything else.
    Bad,
}

fn is_visible(b: &u8) -> bool
    ensures { result ≡ is_visible b.now }
{
    *b >= 0x21 && *b <= 0x7e
}

fn all_visible(bytes: &[u8]) -> bool
    ensures { result ≡ list_all is_visible bytes.now }
{
    bytes.iter().all(is_visible)
}

// Whether the bytes are one to `most` visible characters.
#[tactic(auto, unfolding(crate::specs::Request::is_word))]
fn is_word(bytes: &[u8], most: usize) -> bool
    ensures { result ≡ is_word bytes.now most }
{
    if bytes.is_empty() || bytes.len() > most {
        return false;
    }
    all_visible(bytes)
}

fn first_blank(bytes: &[u8]) -> Option<usize>
    ensures { result ≡ position is_blank bytes.now }
{
    bytes.iter().position(|b| *b == b' ')
}

// A key up to the first blank, and a value behind it.
#[tactic(auto, unfolding(crate::specs::Request::set_of))]
fn read_set(alloc: Global, rest: &[u8]) -> Result<Request, NoMemory>
    ensures { IfOk result (λ r. r ≡ set_of rest.now) }
{
    match first_blank(rest) {
        Some(at) => {
            let key = &rest[..at];
            let value = &rest[at + 1..];
            if !is_word(key, KEY_MOST) {
                return Ok(Request::Bad);
            }
            if !is_word(value, VALUE_MOST) {
                return Ok(Request::Bad);
            }
            let key = Bytes::from_slice(alloc, key)?;
            let value = Bytes::from_slice(alloc, value)?;
            Ok(Request::Set { key, value })
        }
        None => Ok(Request::Bad),
    }
}

// A line by its first word.
#[tactic(auto, unfolding(crate::specs::Request::request_in))]
fn read_words(alloc: Global, text: &[u8]) -> Result<Request, NoMemory>
    ensures { IfOk result (λ r. r ≡ request_in text.now) }
{
    if text.starts_with(b"set ") {
        return read_set(alloc, &text[4..]);
    }
    if text.starts_with(b"get ") {
        let key = &text[4..];
        if !is_word(key, KEY_MOST) {
            return Ok(Request::Bad);
        }
        let key = Bytes::from_slice(alloc, key)?;
        return Ok(Request::Get { key });
    }
    if text.starts_with(b"del ") {
        let key = &text[4..];
        if !is_word(key, KEY_MOST) {
            return Ok(Request::Bad);
        }
        let key = Bytes::from_slice(alloc, key)?;
        return Ok(Request::Del { key });
    }
    Ok(Request::Bad)
}

// A carriage return before the line feed is dropped.
#[tactic(auto, unfolding(crate::specs::Request::without_return))]
fn without_return(line: &[u8]) -> &[u8]
    ensures { result.now ≡ without_return line.now }
{
    if line.ends_with(b"\r") {
        return &line[..line.len() - 1];
    }
    line
}

/// The request that a line is: the bytes before its line feed, a carriage return among them. Words are separated by one blank. A line of
/// more than 1,024 bytes is bad, and so is a key of more than 64 bytes, a value of more than 512, or one with another character than a
/// visible one.
#[tactic(auto, unfolding(crate::specs::Request::request_of))]
pub fn request_of(alloc: Global, line: &[u8]) -> Result<Request, NoMemory>
    ensures { IfOk result (λ r. r ≡ request_of line.now) }
{
    if line.len() > LINE_MOST {
        return Ok(Request::Bad);
    }
    read_words(alloc, without_return(line))
}
