// A host in memory, whose calls fail by a list of numbers.
ghost use Rattle.std.specs.Prelude.{◌≡◌, ◌<◌, ◌≤◌, ◌+◌, ◌-◌, ◌^◌, ◌++◌, ◌↔◌, ◌⊎◌, length, take, min, [], IsTrue, IfOk, OnOk, OnErr, IsErr, vec_capacity, vec_len, false, Contains, Some, IsNone, IfSome, IfNone};
ghost use Rattle.std.specs.Io.KnownBytes.{IsAtEnd};
ghost use Rattle.ix_base.specs.declared.role.Kind.TheVariants.{Reading, Writing};
ghost use Rattle.ix_base.specs.Role.{kind_of, IsRead, IsWritten};
ghost use Rattle.ix_base.specs.Host.{State, Rose, Attaches, Reads, Writes, front};

use crate::faults::Faults;
use crate::{Bytes, Failed, Host, NoMemory, Role};
use std::alloc::Global;

/// A file that is read.
#[derive(Drop)]
pub struct Input {
    bytes: Bytes,
    at: usize,
    attached: bool,
    ghost within: { at ≤ length bytes },
}

impl Input {
    ghost use Rattle.ix_base.specs.Input.{input_left};

    fn new(bytes: Bytes) -> Input
        ensures { (input_left result ≡ bytes) × (result.attached ≡ false) }
    {
        Input {
            bytes,
            at: 0,
            attached: false,
        }
    }

    /// Gives as much as fits.
    fn take(&mut self, buf: &mut [u8]) -> usize
        requires { 0 < length buf.old }
        ensures count { result ≡ min (length (input_left self.old)) (length buf.new) }
        ensures bytes { input_left self.old ≡ take result buf.new ++ input_left self.new }
        ensures attached { self.new.attached ≡ self.old.attached }
    {
        let rest = &self.bytes.as_slice()[self.at..];
        let count = rest.len().min(buf.len());
        buf[..count].copy_from_slice(&rest[..count]);
        self.at += count;
        count
    }
}

/// A file that is written, in room that was taken at its making.
#[derive(Drop)]
pub struct Output {
    bytes: Vec<u8>,
    room: usize,
    attached: bool,
    ghost fits: { vec_len bytes + room ≤ vec_capacity bytes },
}

impl Output {
    fn new(alloc: Global, room: usize) -> Result<Output, NoMemory>
        ensures { IfOk result (λ o. (o.bytes.items ≡ []) × (o.room ≡ room) × (o.attached ≡ false)) }
    {
        Ok(Output {
            bytes: Vec::with_capacity(alloc, room)?,
            room,
            attached: false,
        })
    }

    /// Takes as much as there is room for, or nothing where there is none.
    fn put(&mut self, bytes: &[u8]) -> Option<usize>
        requires { 0 < length bytes.now }
        ensures full { IsNone result ↔ (self.old.room ≡ 0) }
        ensures count { IfSome result (λ n. (n ≡ min self.old.room (length bytes.now)) × (n + self.new.room ≡ self.old.room)) }
        ensures bytes { IfSome result (λ n. self.new.bytes.items ≡ self.old.bytes.items ++ take n bytes.now) }
        ensures none { IfNone result (self.new ≡ self.old) }
        ensures attached { self.new.attached ≡ self.old.attached }
    {
        if self.room == 0 {
            return None;
        }
        let count = self.room.min(bytes.len());
        match self.bytes.extend_from_slice(&bytes[..count]) {
            Ok(()) => {
                self.room -= count;
                Some(count)
            }
            Err(_) => unreachable!(),
        }
    }
}

/// A host over files in memory. Its calls of the three kinds are numbered together from 0; a call fails exactly where its number stands in
/// a list that was given, or where it writes to a role whose room is used up. It gives and takes as much as fits, and takes no memory.
#[derive(Drop)]
pub struct MemHost {
    conf: Input,
    capture: Input,
    script: Input,
    given_trace: Input,
    given_replies: Input,
    other: Input,
    replies: Output,
    trace: Output,
    played: Output,
    fail: Vec<u64>,
    calls: u64,
    faults: Faults,
}

impl MemHost {
    ghost use Rattle.ix_base.specs.Mem.{mem_state, written_bytes, file_or, IsFresh, Fills, Places};

    /// A host with these files, and `room` bytes for each role that is written. A role without a file is empty; of several files of a role the
    /// first counts, and a file of a role that is written is ignored. `fail` has the numbers of the calls that fail.
    pub fn new(
        alloc: Global,
        files: Vec<(Role, Bytes)>,
        room: usize,
        fail: Vec<u64>,
    ) -> Result<MemHost, NoMemory>
        ensures { IfOk result (IsFresh (λ role. file_or [] role files.items) room fail.items) }
    {
        let mut host = MemHost::empty(alloc, room, fail)?;
        host.fill(files);
        Ok(host)
    }

    fn empty(alloc: Global, room: usize, fail: Vec<u64>) -> Result<MemHost, NoMemory>
        ensures { IfOk result (IsFresh (λ _. []) room fail.items) }
    {
        Ok(MemHost {
            conf: Input::new(Bytes::new(alloc)),
            capture: Input::new(Bytes::new(alloc)),
            script: Input::new(Bytes::new(alloc)),
            given_trace: Input::new(Bytes::new(alloc)),
            given_replies: Input::new(Bytes::new(alloc)),
            other: Input::new(Bytes::new(alloc)),
            replies: Output::new(alloc, room)?,
            trace: Output::new(alloc, room)?,
            played: Output::new(alloc, room)?,
            fail,
            calls: 0,
            faults: Faults::new(),
        })
    }

    // Puts files into their roles, the last file first, so that of several files of a role the first stays.
    fn fill(&mut self, files: Vec<(Role, Bytes)>)
        ensures { Fills files.items self.old self.new }
    {
        let mut rest = files;
        while let Some((role, bytes)) = rest.pop() {
            self.place(role, bytes);
        }
    }

    // Puts a file into its role, if that is read.
    fn place(&mut self, role: Role, bytes: Bytes)
        ensures { Places role bytes self.old self.new }
    {
        match role {
            Role::Conf => self.conf = Input::new(bytes),
            Role::Capture => self.capture = Input::new(bytes),
            Role::Script => self.script = Input::new(bytes),
            Role::GivenTrace => self.given_trace = Input::new(bytes),
            Role::GivenReplies => self.given_replies = Input::new(bytes),
            Role::Other => self.other = Input::new(bytes),
            Role::Replies | Role::Trace | Role::Played => {}
        }
    }

    /// The bytes written to a role so far; none of a role that is read.
    pub fn written(&self, role: Role) -> &[u8]
        ensures { result.now ≡ written_bytes self.now role }
    {
        match role {
            Role::Replies => &self.replies.bytes,
            Role::Trace => &self.trace.bytes,
            Role::Played => &self.played.bytes,
            Role::Conf
            | Role::Capture
            | Role::Script
            | Role::GivenTrace
            | Role::GivenReplies
            | Role::Other => &[],
        }
    }
}

// Takes the next number, and says whether the call with it fails.
fn is_refused(calls: &mut u64, fail: &[u64]) -> bool
    ensures refused { IsTrue result ↔ Contains fail.now calls.old }
    ensures next { calls.new ≡ min (calls.old + 1) (2 ^ 64 - 1) }
{
    let number = *calls;
    *calls = number.saturating_add(1);
    fail.contains(&number)
}

impl Host for MemHost {
    ghost use Rattle.ix_base.specs.Mem.{mem_state, IsRefused, CountsCall, room_left, left_bytes};

    ghost state = { mem_state };

    fn attach(&mut self, role: Role, _name: &str) -> Result<(), Failed>
        ensures state { Attaches role (mem_state self.old) (mem_state self.new) }
        ensures attached { OnOk result (IsTrue ((mem_state self.new).is_attached role)) }
        ensures uncounted { OnOk result ((mem_state self.new).faults ≡ (mem_state self.old).faults) }
        ensures failed { OnErr result (Rose ((mem_state self.old).faults (kind_of role)) ((mem_state self.new).faults (kind_of role))) }
        ensures refused { IsErr result ↔ IsRefused self.old }
        ensures call { CountsCall self.old self.new }
    {
        if is_refused(&mut self.calls, &self.fail) {
            return Err(self.faults.raise(role));
        }
        match role {
            Role::Conf => self.conf.attached = true,
            Role::Capture => self.capture.attached = true,
            Role::Script => self.script.attached = true,
            Role::GivenTrace => self.given_trace.attached = true,
            Role::GivenReplies => self.given_replies.attached = true,
            Role::Other => self.other.attached = true,
            Role::Replies => self.replies.attached = true,
            Role::Trace => self.trace.attached = true,
            Role::Played => self.played.attached = true,
        }
        Ok(())
    }

    fn read(&mut self, role: Role, buf: &mut [u8]) -> Result<usize, Failed>
        requires kind { IsRead role }
        requires attached { IsTrue ((mem_state self.old).is_attached role) }
        requires room { 0 < length buf.old }
        ensures bound { IfOk result (λ n. n ≤ length buf.new) }
        ensures state { Reads role (front result buf.new) (mem_state self.old) (mem_state self.new) }
        ensures uncounted { OnOk result ((mem_state self.new).faults ≡ (mem_state self.old).faults) }
        ensures end { IfOk result (λ n. n ≡ 0 → IsAtEnd ((mem_state self.new).left role)) }
        ensures failed { OnErr result (Rose ((mem_state self.old).faults Reading) ((mem_state self.new).faults Reading)) }
        ensures refused { IsErr result ↔ IsRefused self.old }
        ensures amount { IfOk result (λ n. n ≡ min (length (left_bytes self.old role)) (length buf.new)) }
        ensures call { CountsCall self.old self.new }
    {
        if is_refused(&mut self.calls, &self.fail) {
            return Err(self.faults.raise(role));
        }
        match role {
            Role::Conf => Ok(self.conf.take(buf)),
            Role::Capture => Ok(self.capture.take(buf)),
            Role::Script => Ok(self.script.take(buf)),
            Role::GivenTrace => Ok(self.given_trace.take(buf)),
            Role::GivenReplies => Ok(self.given_replies.take(buf)),
            Role::Other => Ok(self.other.take(buf)),
            Role::Replies | Role::Trace | Role::Played => unreachable!(),
        }
    }

    fn write(&mut self, role: Role, bytes: &[u8]) -> Result<usize, Failed>
        requires kind { IsWritten role }
        requires attached { IsTrue ((mem_state self.old).is_attached role) }
        requires some { 0 < length bytes.now }
        ensures bound { IfOk result (λ n. (0 < n) × (n ≤ length bytes.now)) }
        ensures state { Writes role (front result bytes.now) (mem_state self.old) (mem_state self.new) }
        ensures uncounted { OnOk result ((mem_state self.new).faults ≡ (mem_state self.old).faults) }
        ensures failed { OnErr result (Rose ((mem_state self.old).faults Writing) ((mem_state self.new).faults Writing)) }
        ensures refused { IsErr result ↔ (IsRefused self.old ⊎ (room_left self.old role ≡ 0)) }
        ensures amount { IfOk result (λ n. n ≡ min (room_left self.old role) (length bytes.now)) }
        ensures room { IfOk result (λ n. n + room_left self.new role ≡ room_left self.old role) }
        ensures call { CountsCall self.old self.new }
    {
        if is_refused(&mut self.calls, &self.fail) {
            return Err(self.faults.raise(role));
        }
        match role {
            Role::Replies => match self.replies.put(bytes) {
                Some(count) => Ok(count),
                None => Err(self.faults.raise(role)),
            },
            Role::Trace => match self.trace.put(bytes) {
                Some(count) => Ok(count),
                None => Err(self.faults.raise(role)),
            },
            Role::Played => match self.played.put(bytes) {
                Some(count) => Ok(count),
                None => Err(self.faults.raise(role)),
            },
            Role::Conf
            | Role::Capture
            | Role::Script
            | Role::GivenTrace
            | Role::GivenReplies
            | Role::Other => unreachable!(),
        }
    }
}
