// What the top call answers, with its number and its text.
ghost use Rattle.std.specs.Prelude.{◌≡◌, ◌≢◌, ◌++◌, IfOk, string_bytes};
ghost use Rattle.std.specs.Fmt.{decimal};
ghost use Rattle.ix_top.specs.Top.{IsStop};
ghost use Rattle.ix_top.specs.Status.{text_of, conf_text_of, conf_refusal, finding_text_of, script_text_of, capture_text_of, capture_refusal, script_refusal};

use ix_base::{Bytes, NoMemory};
use ix_check::Finding;
use ix_conf::{ConfFault, ConfKey};
use ix_pcap::CaptureFault;
use ix_script::{ScriptFault, ScriptKind};
use std::alloc::{AllocError, Global};

/// How a call of the program ended. A status's number is the program's exit status.
#[derive(Clone, Copy, Debug, PartialEq, Eq)]
pub enum Status {
    /// The whole work was done and written (0).
    Done,
    /// The words name no command of the program (1).
    Usage,
    /// The configuration is refused (2).
    Conf(ConfRefusal),
    /// The script is refused (3).
    Script(ScriptRefusal),
    /// The capture is refused (4).
    Capture(CaptureRefusal),
    /// The host failed on a role that is read (5).
    ReadFault,
    /// The host failed on a role that is written (6).
    WriteFault,
    /// Memory ran out, and nothing was written (7).
    NoMemory,
    /// The files that were checked are not those of a play (8).
    Refused(Finding),
}

/// Why a configuration is refused.
#[derive(Clone, Copy, Debug, PartialEq, Eq)]
pub enum ConfRefusal {
    /// The bytes are no TOML document.
    Text,
    /// A table has a key that no configuration has.
    Unknown,
    /// A key that has to be there is not.
    Missing { key: ConfKey },
    /// A key has a value of another kind, or one that it may not have.
    Range { key: ConfKey },
    /// It has more than 65,536 bytes.
    TooBig,
}

/// Why a script is refused: its first faulty line, counted from 1, or its size.
#[derive(Clone, Copy, Debug, PartialEq, Eq)]
pub enum ScriptRefusal {
    /// The first line that can't be played, and why.
    At { line: u32, kind: ScriptKind },
    /// It has more than 8,388,608 bytes.
    TooBig,
}

/// Why a capture is refused. `at` counts octets from the begin of the file.
#[derive(Clone, Copy, Debug, PartialEq, Eq)]
pub enum CaptureRefusal {
    /// It ends within its header; `at` is its length.
    CutHeader { at: usize },
    /// It has the other format of the same family, which begins with a section header block.
    Pcapng,
    /// It begins with none of the magic numbers, in either byte order.
    BadMagic,
    /// It has another version than 2.4.
    BadVersion,
    /// It has another link type than Ethernet.
    BadLink,
    /// It has more than 262,144 records.
    TooManyRecords,
    /// The record that begins at `at` is not whole.
    CutRecord { at: usize },
    /// It has more than 67,108,864 bytes.
    TooBig,
}

impl Status {
    ghost use Rattle.ix_top.specs.Status.{number_of};

    /// The exit status of a program that ends so.
    pub fn number(&self) -> u8
        ensures { result ≡ number_of self.now }
    {
        match self {
            Status::Done => 0,
            Status::Usage => 1,
            Status::Conf(_) => 2,
            Status::Script(_) => 3,
            Status::Capture(_) => 4,
            Status::ReadFault => 5,
            Status::WriteFault => 6,
            Status::NoMemory => 7,
            Status::Refused(_) => 8,
        }
    }
}

/// The status of a configuration that the reader refused.
pub fn conf_status(fault: ConfFault) -> Status
    ensures status { result ≡ conf_refusal fault }
    ensures stops { IsStop result }
    ensures no_fault { result ≢ Status.ReadFault }
{
    Status::Conf(match fault {
        ConfFault::Text => ConfRefusal::Text,
        ConfFault::Unknown => ConfRefusal::Unknown,
        ConfFault::Missing { key } => ConfRefusal::Missing { key },
        ConfFault::Range { key } => ConfRefusal::Range { key },
        ConfFault::NoMemory => return Status::NoMemory,
    })
}

/// The status of a capture that the reader refused.
pub fn capture_status(fault: CaptureFault) -> Status
    ensures status { result ≡ capture_refusal fault }
    ensures stops { IsStop result }
    ensures no_fault { result ≢ Status.ReadFault }
{
    Status::Capture(match fault {
        CaptureFault::CutHeader { at } => CaptureRefusal::CutHeader { at },
        CaptureFault::Pcapng => CaptureRefusal::Pcapng,
        CaptureFault::BadMagic => CaptureRefusal::BadMagic,
        CaptureFault::BadVersion => CaptureRefusal::BadVersion,
        CaptureFault::BadLink => CaptureRefusal::BadLink,
        CaptureFault::TooManyRecords => CaptureRefusal::TooManyRecords,
        CaptureFault::CutRecord { at } => CaptureRefusal::CutRecord { at },
        CaptureFault::NoMemory => return Status::NoMemory,
    })
}

/// The status of a script that the reader refused.
pub fn script_status(fault: ScriptFault) -> Status
    ensures status { result ≡ script_refusal fault }
    ensures stops { IsStop result }
    ensures no_fault { result ≢ Status.ReadFault }
{
    match fault {
        ScriptFault::At { line, kind } => Status::Script(ScriptRefusal::At { line, kind }),
        ScriptFault::NoMemory => Status::NoMemory,
    }
}

/// The one line, without its line feed, that tells a status on standard error; nothing for `Done`.
pub fn status_text(alloc: Global, status: &Status) -> Result<Bytes, NoMemory>
    ensures { IfOk result (λ text. text ≡ text_of status.now) }
{
    let text = match status {
        Status::Done => String::new(alloc),
        Status::Usage => String::from_str(alloc, USAGE)?,
        Status::Conf(refusal) => conf_text(alloc, refusal)?,
        Status::Script(refusal) => script_text(alloc, refusal)?,
        Status::Capture(refusal) => capture_text(alloc, refusal)?,
        Status::ReadFault => String::from_str(alloc, "ix: read fault")?,
        Status::WriteFault => String::from_str(alloc, "ix: write fault")?,
        Status::NoMemory => String::from_str(alloc, "ix: no memory")?,
        Status::Refused(finding) => finding_text(alloc, finding)?,
    };
    Ok(Bytes::from_vec(text.into_bytes()))
}

const USAGE: &str =
    "ix: usage: ix play CONF SCRIPT CAPTURE REPLIES TRACE | ix check CONF SCRIPT CAPTURE REPLIES TRACE";

fn conf_text(alloc: Global, refusal: &ConfRefusal) -> Result<String, AllocError>
    ensures { IfOk result (λ text. string_bytes text ≡ conf_text_of refusal.now) }
{
    match refusal {
        ConfRefusal::Text => String::from_str(alloc, "ix: conf: text"),
        ConfRefusal::Unknown => String::from_str(alloc, "ix: conf: unknown"),
        ConfRefusal::Missing { key } => named(alloc, "ix: conf: missing ", key.text()),
        ConfRefusal::Range { key } => named(alloc, "ix: conf: range ", key.text()),
        ConfRefusal::TooBig => String::from_str(alloc, "ix: conf: too-big"),
    }
}

fn capture_text(alloc: Global, refusal: &CaptureRefusal) -> Result<String, AllocError>
    ensures { IfOk result (λ text. string_bytes text ≡ capture_text_of refusal.now) }
{
    match refusal {
        CaptureRefusal::CutHeader { at } => counted(alloc, "ix: capture: cut-header ", *at),
        CaptureRefusal::Pcapng => String::from_str(alloc, "ix: capture: pcapng"),
        CaptureRefusal::BadMagic => String::from_str(alloc, "ix: capture: bad-magic"),
        CaptureRefusal::BadVersion => String::from_str(alloc, "ix: capture: bad-version"),
        CaptureRefusal::BadLink => String::from_str(alloc, "ix: capture: bad-link"),
        CaptureRefusal::TooManyRecords => {
            String::from_str(alloc, "ix: capture: too-many-records")
        }
        CaptureRefusal::CutRecord { at } => counted(alloc, "ix: capture: cut-record ", *at),
        CaptureRefusal::TooBig => String::from_str(alloc, "ix: capture: too-big"),
    }
}

fn script_text(alloc: Global, refusal: &ScriptRefusal) -> Result<String, AllocError>
    ensures { IfOk result (λ text. string_bytes text ≡ script_text_of refusal.now) }
{
    match refusal {
        ScriptRefusal::At { line, kind } => {
            let mut text = counted(alloc, "ix: script: line ", *line as usize)?;
            text.push_str(": ")?;
            text.push_str(kind.text())?;
            Ok(text)
        }
        ScriptRefusal::TooBig => String::from_str(alloc, "ix: script: too-big"),
    }
}

fn finding_text(alloc: Global, finding: &Finding) -> Result<String, AllocError>
    ensures { IfOk result (λ text. string_bytes text ≡ finding_text_of finding.now) }
{
    match finding {
        Finding::Text { line } => counted(alloc, "ix: refused: text ", *line as usize),
        Finding::Point { number } => counted(alloc, "ix: refused: point ", *number as usize),
    }
}

// These words and a name.
fn named(alloc: Global, words: &str, name: &str) -> Result<String, AllocError>
    ensures { IfOk result (λ text. string_bytes text ≡ words.now ++ name.now) }
{
    let mut text = String::from_str(alloc, words)?;
    text.push_str(name)?;
    Ok(text)
}

// These words and a number.
fn counted(alloc: Global, words: &str, n: usize) -> Result<String, AllocError>
    ensures { IfOk result (λ text. string_bytes text ≡ words.now ++ decimal n) }
{
    let mut text = String::from_str(alloc, words)?;
    text.push_str(n.to_string(alloc)?.as_str())?;
    Ok(text)
}
