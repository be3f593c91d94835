// The records of a capture that was read.
ghost use Rattle.std.specs.Prelude.{◌≡◌, map, IfOk, All};
ghost use Rattle.ix_pcap.specs.Capture.{IsSpanOf, frames_of};
ghost use Rattle.ix_playdef.specs.Own.{own_frame};

use crate::status::{Status, capture_status};
use ix_base::{Bytes, NoMemory};
use ix_check::{Verdict, check};
use ix_conf::Conf;
use ix_pcap::{Capture, read_capture};
use ix_play::play;
use ix_playdef::{Reply, is_own};
use ix_run::Gate;
use ix_trace::Report;
use ix_wire::Entry;
use std::alloc::Global;
use std::marker::Model;
use std::sync::Wait;
use std::thread::Threads;

/// A capture's records with the bytes that they lie in. A contract sees the list of their frames.
#[derive(Drop)]
pub struct Records {
    bytes: Bytes,
    capture: Capture,
}

impl Model for Records {
    ghost use Rattle.std.specs.Prelude.{◌<◌, ◌^◌, List, ℕ, All, length};
    ghost use Rattle.ix_pcap.specs.Capture.{IsSpanOf, frames_of};

    ghost Value = { List (List ℕ) };

    ghost view = { λ r. frames_of r.bytes r.capture };

    ghost invariant = { λ r. All (IsSpanOf r.bytes) r.capture × (length r.bytes < 2 ^ 32) };
}

impl Records {
    ghost use Rattle.std.specs.Prelude.{◌≡◌, ◌≢◌, ◌≤◌, ◌<◌, ◌^◌, All, length, map, IfOk, IfErr, Ok, Err};
    ghost use Rattle.ix_pcap.specs.Capture.{capture_of};
    ghost use Rattle.ix_conf.specs.Settings.{settings_of};
    ghost use Rattle.std.specs.Bool.{Decides};
    ghost use Rattle.ix_playdef.specs.Own.{own_frame};
    ghost use Rattle.ix_playdef.specs.Replies.{IsShort};
    ghost use Rattle.ix_fits.specs.Fits.{Fits};
    ghost use Rattle.ix_fits.specs.Replies.{reply_file};
    ghost use Rattle.ix_engine.specs.Courses.{IsWireFor};
    ghost use Rattle.ix_check.specs.Verdict.{Fit, IsVerdict, is_yes};
    ghost use Rattle.ix_top.specs.Top.{frames_read, Refuses, IsStop};

    /// The records of a capture file.
    pub fn parse(alloc: Global, bytes: Bytes) -> Result<Records, Status>
        requires { length bytes < 2 ^ 32 }
        ensures ok { IfOk result (λ r. frames_read bytes (capture_of bytes) ≡ Ok r) }
        ensures err { IfErr result (λ e. Refuses e (frames_read bytes (capture_of bytes))) }
        ensures stops { IfErr result IsStop }
        ensures failed { result ≢ Err Status.ReadFault }
    {
        match read_capture(alloc, bytes.as_slice()) {
            Ok(capture) => Ok(Records { bytes, capture }),
            Err(fault) => Err(capture_status(fault)),
        }
    }

    /// Of each record, whether it is the local side's own.
    pub fn own(&self, alloc: Global, mac: &[u8; 6]) -> Result<Vec<bool>, NoMemory>
        ensures { IfOk result (λ own. own.items ≡ map (own_frame mac.now) self.now) }
    {
        own_of(alloc, self.bytes.as_slice(), &self.capture, mac)
    }

    /// Plays a wire list over them: the report, and the replies in their order.
    pub fn play<R: Threads + Wait + Sync, G: Gate + Sync>(
        self,
        rt: &R,
        alloc: Global,
        conf: &Conf,
        entries: Vec<Entry>,
        gate: &G,
    ) -> Result<(Report, Vec<Reply>), NoMemory>
        requires { IsWireFor (settings_of conf.now) self entries.items }
        ensures fits { IfOk result (λ told. Fits (settings_of conf.now) self entries.items told.0 (reply_file entries.items told.1.items)) }
        ensures short { IfOk result (λ told. All IsShort told.1.items) }
    {
        let Records { bytes, capture } = self;
        play(rt, alloc, conf, bytes, capture, entries, gate)
    }

    /// Whether a trace and a file of replies are those of a play of a wire list over them.
    pub fn check(
        &self,
        alloc: Global,
        conf: &Conf,
        entries: &[Entry],
        replies: &[u8],
        trace: &[u8],
    ) -> Result<Verdict, NoMemory>
        requires { IsWireFor (settings_of conf.now) self.now entries.now }
        ensures decides { IfOk result (λ verdict. Decides (is_yes verdict) (Fit (settings_of conf.now) self.now entries.now replies.now trace.now)) }
        ensures finding { IfOk result (λ verdict. IsVerdict (settings_of conf.now) self.now entries.now replies.now trace.now verdict) }
    {
        let bytes = self.bytes.as_slice();
        check(alloc, conf, bytes, &self.capture, entries, replies, trace)
    }
}

// Of each record, whether it is the local side's own.
fn own_of(
    alloc: Global,
    bytes: &[u8],
    capture: &Capture,
    mac: &[u8; 6],
) -> Result<Vec<bool>, NoMemory>
    requires { All (IsSpanOf bytes.now) capture.now }
    ensures { IfOk result (λ own. own.items ≡ map (own_frame mac.now) (frames_of bytes.now capture.now)) }
{
    let spans = capture.spans();
    let mut own = Vec::with_capacity(alloc, spans.len())?;
    for i in 0..spans.len() {
        let span = spans[i];
        own.push(is_own(mac, &bytes[span.from..span.to]))?;
    }
    Ok(own)
}
