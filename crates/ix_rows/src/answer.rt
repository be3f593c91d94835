// What is decided of a case.
ghost use Rattle.std.specs.Prelude.{All};
ghost use Rattle.ix_pcap.specs.Capture.{IsSpanOf};

use crate::case::Case;
use crate::files::Files;
use ix_base::NoMemory;
use ix_check::{Verdict, check};
use ix_conf::{Conf, read_conf};
use ix_pcap::{Capture, read_capture};
use ix_playdef::is_own;
use ix_script::read_script;
use ix_wire::Entry;
use std::alloc::{AllocError, AllocFailed};

/// Why there is no answer.
#[derive(Clone, Copy)]
pub enum Fault {
    /// Memory ran out, or the wire list is longer than a play's.
    NoMemory,
    /// A file can't be read.
    File,
    /// One that was read is no configuration, ..
    Conf,
    /// .. no capture, ..
    Capture,
    /// .. no script, ..
    Script,
    /// .. or a trace that is no text.
    Trace,
    /// The text that is to be changed doesn't stand in the trace.
    Edit,
}

impl From<NoMemory> for Fault {
    fn from(_: NoMemory) -> Fault {
        Fault::NoMemory
    }
}

impl From<AllocError> for Fault {
    fn from(_: AllocError) -> Fault {
        Fault::NoMemory
    }
}

impl<T: Drop> From<AllocFailed<T>> for Fault {
    fn from(_: AllocFailed<T>) -> Fault {
        Fault::NoMemory
    }
}

// The most entries that a wire list may have here.
const MOST: usize = 1_000_000;

// The wire list of a script.
fn wire_of(
    rt: &HostRuntime,
    conf: &Conf,
    script: &[u8],
    bytes: &[u8],
    capture: &Capture,
) -> Result<Vec<Entry>, Fault>
    requires { All (IsSpanOf bytes.now) capture.now }
{
    let mut own = Vec::new(rt.alloc());
    for span in capture.spans() {
        own.push(is_own(&conf.mac, &bytes[span.from..span.to]))?;
    }
    read_script(rt.alloc(), script, conf, own.as_slice()).map_err(|_| Fault::Script)
}

// The verdict for a wire list.
fn verdict_for(
    rt: &HostRuntime,
    files: &Files,
    conf: &Conf,
    capture: &Capture,
    wire: &[Entry],
) -> Result<Verdict, Fault>
    requires { All (IsSpanOf files.now.capture.items) capture.now }
{
    if MOST < wire.len() {
        return Err(Fault::NoMemory);
    }
    let bytes = files.capture.as_slice();
    let replies = files.replies.as_slice();
    let trace = files.trace.as_bytes();
    Ok(check(rt.alloc(), conf, bytes, capture, wire, replies, trace)?)
}

// The same for a capture.
fn verdict_with(
    rt: &HostRuntime,
    files: &Files,
    conf: &Conf,
    capture: &Capture,
) -> Result<Verdict, Fault>
    requires { All (IsSpanOf files.now.capture.items) capture.now }
{
    let script = files.script.as_slice();
    let wire = wire_of(rt, conf, script, files.capture.as_slice(), capture)?;
    verdict_for(rt, files, conf, capture, wire.as_slice())
}

// The same for a configuration.
fn verdict_under(rt: &HostRuntime, files: &Files, conf: &Conf) -> Result<Verdict, Fault> {
    let capture = read_capture(rt.alloc(), files.capture.as_slice()).map_err(|_| Fault::Capture)?;
    verdict_with(rt, files, conf, &capture)
}

/// The verdict on a case.
pub fn verdict_of(rt: &HostRuntime, case: &Case<'_>) -> Result<Verdict, Fault> {
    let files = Files::of(rt, case)?;
    let conf = read_conf(rt.alloc(), files.conf.as_slice()).map_err(|_| Fault::Conf)?;
    verdict_under(rt, &files, &conf)
}
