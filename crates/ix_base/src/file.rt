// The adapter over files and standard output.
ghost use Rattle.std.specs.Prelude.{◌≡◌, ◌<◌, ◌≤◌, length, IsTrue, IsSome, IfSome, OnOk, OnErr};
ghost use Rattle.ix_base.specs.Sink.{is_open};

use crate::faults::Faults;
use crate::{Failed, Host, Role};
use std::io::{Read, Write};
use std::rt::Files;
use std::{fs, io};

/// Where the bytes of a role that is written go.
#[derive(Drop)]
pub enum Sink<F: Drop> {
    Closed,
    Standard,
    Open(F),
}

/// A host over files, by their names; the name `-` of a role that is written is standard output. It tells no content, and counts as a
/// fault each error of the runtime, whatever its cause, and each write of which the device takes nothing.
#[derive(Drop)]
pub struct FileHost<'a, R: Files + Print> {
    rt: &'a R,
    conf: Option<R::File>,
    capture: Option<R::File>,
    script: Option<R::File>,
    given_trace: Option<R::File>,
    given_replies: Option<R::File>,
    other: Option<R::File>,
    replies: Sink<R::File>,
    trace: Sink<R::File>,
    played: Sink<R::File>,
    faults: Faults,
}

impl<'a, R: Files + Print> FileHost<'a, R> {
    ghost use Rattle.ix_base.specs.File.{IsNew};

    /// A host with no role attached and no fault counted.
    pub fn new(rt: &'a R) -> Self
        ensures { IsNew result }
    {
        FileHost {
            rt,
            conf: None,
            capture: None,
            script: None,
            given_trace: None,
            given_replies: None,
            other: None,
            replies: Sink::Closed,
            trace: Sink::Closed,
            played: Sink::Closed,
            faults: Faults::new(),
        }
    }
}

impl<R: Files + Print> Host for FileHost<'_, R> {
    ghost use Rattle.ix_base.specs.File.{file_state};

    ghost state = { file_state };

    fn attach(&mut self, role: Role, name: &str) -> Result<(), Failed> {
        let prepared = match role {
            Role::Conf => open(self.rt, name, &mut self.conf),
            Role::Capture => open(self.rt, name, &mut self.capture),
            Role::Script => open(self.rt, name, &mut self.script),
            Role::GivenTrace => open(self.rt, name, &mut self.given_trace),
            Role::GivenReplies => open(self.rt, name, &mut self.given_replies),
            Role::Other => open(self.rt, name, &mut self.other),
            Role::Replies => create(self.rt, name, &mut self.replies),
            Role::Trace => create(self.rt, name, &mut self.trace),
            Role::Played => create(self.rt, name, &mut self.played),
        };
        match prepared {
            Ok(()) => Ok(()),
            Err(_) => Err(self.faults.raise(role)),
        }
    }

    fn read(&mut self, role: Role, buf: &mut [u8]) -> Result<usize, Failed> {
        let taken = match role {
            Role::Conf => read_open(&mut self.conf, buf),
            Role::Capture => read_open(&mut self.capture, buf),
            Role::Script => read_open(&mut self.script, buf),
            Role::GivenTrace => read_open(&mut self.given_trace, buf),
            Role::GivenReplies => read_open(&mut self.given_replies, buf),
            Role::Other => read_open(&mut self.other, buf),
            Role::Replies | Role::Trace | Role::Played => unreachable!(),
        };
        match taken {
            Some(count) => Ok(count),
            None => Err(self.faults.raise(role)),
        }
    }

    fn write(&mut self, role: Role, bytes: &[u8]) -> Result<usize, Failed> {
        let taken = match role {
            Role::Replies => write_open(self.rt, &mut self.replies, bytes),
            Role::Trace => write_open(self.rt, &mut self.trace, bytes),
            Role::Played => write_open(self.rt, &mut self.played, bytes),
            Role::Conf
            | Role::Capture
            | Role::Script
            | Role::GivenTrace
            | Role::GivenReplies
            | Role::Other => unreachable!(),
        };
        match taken {
            Some(count) => Ok(count),
            None => Err(self.faults.raise(role)),
        }
    }
}

// Opens a file that is read.
fn open<R: Files>(rt: &R, name: &str, file: &mut Option<R::File>) -> io::Result<()>
    ensures ok { OnOk result (IsSome file.new) }
    ensures err { OnErr result (file.new ≡ file.old) }
{
    *file = Some(fs::open(rt, name)?);
    Ok(())
}

// Makes a file that is written, or takes standard output where the name is `-`.
fn create<R: Files>(rt: &R, name: &str, sink: &mut Sink<R::File>) -> io::Result<()>
    ensures ok { OnOk result (IsTrue (is_open sink.new)) }
    ensures err { OnErr result (sink.new ≡ sink.old) }
{
    *sink = if name == "-" {
        Sink::Standard
    } else {
        Sink::Open(fs::create(rt, name)?)
    };
    Ok(())
}

// How many bytes an open file gave, or nothing where it failed.
fn read_open<F: Read>(file: &mut Option<F>, buf: &mut [u8]) -> Option<usize>
    requires { IsSome file.old }
    ensures bound { IfSome result (λ count. count ≤ length buf.new) }
    ensures open { IsSome file.new }
{
    match file {
        Some(file) => file.read(buf).ok(),
        None => unreachable!(),
    }
}

// How many bytes an open sink took, one at least, or nothing where it failed.
fn write_open<P: Print, F: Write + Drop>(rt: &P, sink: &mut Sink<F>, bytes: &[u8]) -> Option<usize>
    requires { IsTrue (is_open sink.old) }
    ensures bound { IfSome result (λ count. (0 < count) × (count ≤ length bytes.now)) }
    ensures open { IsTrue (is_open sink.new) }
{
    let taken = match sink {
        Sink::Open(file) => file.write(bytes),
        Sink::Standard => rt.write_some(bytes),
        Sink::Closed => unreachable!(),
    };
    match taken {
        Ok(count) if count > 0 => Some(count),
        _ => None,
    }
}
