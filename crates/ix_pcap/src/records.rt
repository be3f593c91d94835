// What a capture consists of once it is read, and what may be wrong with its file.
ghost use Rattle.std.specs.Prelude.{◌≡◌, ◌≤◌, length, vec_len};

use std::marker::Model;
use thiserror::Error;

/// Where the captured bytes of one record lie in the file: from the byte `from` up to the byte `to`,
/// which is not among them.
#[derive(Clone, Copy, Debug, PartialEq, Eq)]
pub struct Span {
    pub from: usize,
    pub to: usize,
}

/// The records of a capture file in the order of the file, at most 262,144. A contract sees it as
/// the list of their spans.
#[derive(Drop)]
pub struct Capture {
    spans: Vec<Span>,
}

impl Model for Capture {
    ghost use Rattle.std.specs.Prelude.{◌≤◌, List, length};
    ghost use Rattle.ix_pcap.specs.declared.records.Span.{Span};

    ghost Value = { List Span };

    ghost view = { λ c. c.spans.items };

    ghost invariant = { λ c. length c.spans.items ≤ 262144 };
}

impl Capture {
    pub(crate) fn of(spans: Vec<Span>) -> Capture
        requires { length spans.items ≤ 262144 }
        ensures { result ≡ spans.items }
    {
        Capture { spans }
    }

    /// Where the captured bytes of each record lie, record by record.
    pub fn spans(&self) -> &[Span]
        ensures spans { result.now ≡ self.now }
        ensures count { length result.now ≤ 262144 }
    {
        self.spans.as_slice()
    }
}

/// The first thing that is wrong with a capture file, or that memory ran out.
#[derive(Clone, Copy, Debug, PartialEq, Eq, Error)]
pub enum CaptureFault {
    /// The file ends within its header; `at` is its length.
    #[error("the capture ends within its header, after {at} bytes")]
    CutHeader { at: usize },
    /// The file has the other format of the same family, which begins with a section header block.
    #[error("the capture is a pcapng file")]
    Pcapng,
    /// The file does not begin with one of the two magic numbers, in either byte order.
    #[error("the capture has no known magic number")]
    BadMagic,
    /// The file has another version than 2.4.
    #[error("the capture has another version than 2.4")]
    BadVersion,
    /// The file has another link type than Ethernet.
    #[error("the capture has another link type than Ethernet")]
    BadLink,
    /// A record begins after the 262,144th.
    #[error("the capture has more than 262144 records")]
    TooManyRecords,
    /// The header of a record or its captured bytes are not whole; the record begins at `at`.
    #[error("the record at byte {at} of the capture is cut")]
    CutRecord { at: usize },
    #[error("out of memory")]
    NoMemory,
}
