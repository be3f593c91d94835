// The files of a play, and the changes of its trace.

use crate::answer::Fault;
use crate::case::Case;
use std::fs;

// A file of a play.
fn read(rt: &HostRuntime, play: &str, name: &str) -> Result<Vec<u8>, Fault> {
    let path = format!(in rt.alloc(); "{play}/{name}")?;
    fs::read(rt, path.as_str()).map_err(|_| Fault::File)
}

// A text in which `~` stands for a line feed.
fn with_feeds(rt: &HostRuntime, text: &str) -> Result<String, Fault> {
    let mut fed = String::new(rt.alloc());
    for letter in text.chars() {
        fed.push(if letter == '~' { '\n' } else { letter })?;
    }
    Ok(fed)
}

// A text after one change.
fn edited(rt: &HostRuntime, text: &str, edit: &str) -> Result<String, Fault> {
    let (old, new) = edit.split_once(" => ").ok_or(Fault::Edit)?;
    let old = with_feeds(rt, old)?;
    let new = with_feeds(rt, new)?;
    let (before, after) = text.split_once(old.as_str()).ok_or(Fault::Edit)?;
    Ok(format!(in rt.alloc(); "{before}{new}{after}")?)
}

// The trace of a case, with its changes.
fn trace(rt: &HostRuntime, case: &Case<'_>) -> Result<String, Fault> {
    let bytes = read(rt, case.play, "trace.txt")?;
    let mut text = String::from_utf8(bytes).map_err(|_| Fault::Trace)?;
    if let Some(edits) = case.edits {
        for edit in edits.split("; ") {
            text = edited(rt, text.as_str(), edit)?;
        }
    }
    Ok(text)
}

/// What the files of a case hold.
#[derive(Drop)]
pub struct Files {
    pub conf: Vec<u8>,
    pub script: Vec<u8>,
    pub capture: Vec<u8>,
    pub replies: Vec<u8>,
    pub trace: String,
}

impl Files {
    /// Reads them, and changes the trace.
    pub fn of(rt: &HostRuntime, case: &Case<'_>) -> Result<Files, Fault> {
        Ok(Files {
            conf: read(rt, case.play, "conf.toml")?,
            script: read(rt, case.play, "script")?,
            capture: read(rt, case.play, "capture.pcap")?,
            replies: read(rt, case.play, case.replies)?,
            trace: trace(rt, case)?,
        })
    }
}
