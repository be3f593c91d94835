// Reads a capture file: a header of 24 bytes, then records of a header of 16 bytes and a frame each.
ghost use Rattle.std.specs.Prelude.{◌≡◌, ◌≤◌, All, IfOk, IsTrue, drop, length, vec_len};
ghost use Rattle.ix_pcap.specs.Capture.{Gives, IsSpanOf, body_of, capture_of, records};

use crate::records::{Capture, CaptureFault, Span};
use byteorder::{BigEndian, ByteOrder, LittleEndian};
use std::alloc::Global;

// The block type of a pcapng section header, which reads the same in both byte orders.
const PCAPNG: u32 = 0x0a0d_0d0a;

// Timestamps of seconds and microseconds.
const MICROSECONDS: u32 = 0xa1b2_c3d4;

// Timestamps of seconds and nanoseconds.
const NANOSECONDS: u32 = 0xa1b2_3c4d;

const HEADER_LEN: usize = 24;

const RECORD_HEADER_LEN: usize = 16;

const ETHERNET: u32 = 1;

const MAX_RECORDS: usize = 262_144;

/// Reads the bytes of a capture file and answers where the frames of its records lie, or the first
/// fault in the order of `CaptureFault`. Files of version 2.4 with the link type Ethernet are read,
/// in both byte orders, with timestamps in microseconds or nanoseconds. The format is that of the
/// IETF draft "PCAP Capture File Format" (draft-ietf-opsawg-pcap), sections 4 and 5.
#[tactic(auto, unfolding(crate::specs::Capture::capture_of))]
pub fn read_capture(alloc: Global, bytes: &[u8]) -> Result<Capture, CaptureFault>
    ensures read { Gives (λ spans. spans) result (capture_of bytes.now) }
    ensures within { IfOk result (λ spans. All (IsSpanOf bytes.now) spans) }
    ensures count { IfOk result (λ spans. length spans ≤ 262144) }
{
    if bytes.len() < 4 {
        return Err(CaptureFault::CutHeader { at: bytes.len() });
    }
    if BigEndian::read_u32(bytes) == PCAPNG {
        return Err(CaptureFault::Pcapng);
    }
    let little = LittleEndian::read_u32(bytes);
    if little == MICROSECONDS || little == NANOSECONDS {
        return read_body::<LittleEndian>(alloc, bytes);
    }
    let big = BigEndian::read_u32(bytes);
    if big == MICROSECONDS || big == NANOSECONDS {
        return read_body::<BigEndian>(alloc, bytes);
    }
    Err(CaptureFault::BadMagic)
}

// The rest of the file's header, and the records.
#[tactic(auto, unfolding(crate::specs::Capture::body_of))]
fn read_body<T: ByteOrder>(alloc: Global, bytes: &[u8]) -> Result<Capture, CaptureFault>
    ensures read { Gives (λ spans. spans) result (body_of T.number_of bytes.now) }
    ensures within { IfOk result (λ spans. All (IsSpanOf bytes.now) spans) }
    ensures count { IfOk result (λ spans. length spans ≤ 262144) }
{
    if bytes.len() < HEADER_LEN {
        return Err(CaptureFault::CutHeader { at: bytes.len() });
    }
    if T::read_u16(&bytes[4..]) != 2 || T::read_u16(&bytes[6..]) != 4 {
        return Err(CaptureFault::BadVersion);
    }
    if T::read_u32(&bytes[20..]) != ETHERNET {
        return Err(CaptureFault::BadLink);
    }
    match read_records::<T>(alloc, bytes, MAX_RECORDS) {
        Ok(spans) => Ok(Capture::of(spans)),
        Err(fault) => Err(fault),
    }
}

// The spans of the records behind the file's header, of which there are at most `max`.
fn read_records<T: ByteOrder>(
    alloc: Global,
    bytes: &[u8],
    max: usize,
) -> Result<Vec<Span>, CaptureFault>
    requires { HEADER_LEN ≤ length bytes.now }
    ensures read { Gives (λ spans. spans.items) result (records T.number_of max 24 (drop 24 bytes.now)) }
    ensures within { IfOk result (λ spans. All (IsSpanOf bytes.now) spans.items) }
    ensures count { IfOk result (λ spans. length spans.items ≤ max) }
{
    let mut spans = Vec::new(alloc);
    let mut at = HEADER_LEN;
    while at < bytes.len() {
        if spans.len() == max {
            return Err(CaptureFault::TooManyRecords);
        }
        let rest = &bytes[at..];
        if rest.len() < RECORD_HEADER_LEN {
            return Err(CaptureFault::CutRecord { at });
        }
        let len = T::read_u32(&rest[8..]) as usize;
        if rest.len() - RECORD_HEADER_LEN < len {
            return Err(CaptureFault::CutRecord { at });
        }
        let from = at + RECORD_HEADER_LEN;
        let to = from + len;
        if spans.push(Span { from, to }).is_err() {
            return Err(CaptureFault::NoMemory);
        }
        at = to;
    }
    Ok(spans)
}
