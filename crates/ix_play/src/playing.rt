// A whole play.
ghost use Rattle.std.specs.Prelude.{◌≡◌, ◌<◌, ◌^◌, All, IfOk, length};
ghost use Rattle.std.specs.List.{AllByRecursion};
ghost use Rattle.ix_conf.specs.Settings.{settings_of};
ghost use Rattle.ix_engine.specs.Courses.{IsWireFor};
ghost use Rattle.ix_fits.specs.Fits.{Fits};
ghost use Rattle.ix_fits.specs.Replies.{reply_file};
ghost use Rattle.ix_pcap.specs.Capture.{IsSpanOf, frames_of};
ghost use Rattle.ix_playdef.specs.Replies.{IsShort};
ghost use Rattle.ix_playdef.specs.Sound.{AreBytes};

use crate::closing::close;
use ix_base::{Bytes, NoMemory};
use ix_conf::Conf;
use ix_engine::run;
use ix_entire::runs_are_whole;
use ix_pcap::Capture;
use ix_playdef::{Reply, local_of};
use ix_run::Gate;
use ix_sheet::report_of;
use ix_trace::Report;
use ix_whole::plays_fit;
use ix_wire::Entry;
use std::alloc::Global;
use std::sync::Wait;
use std::thread::Threads;

// The frames of a capture are of the bytes of its file: nothing happens here.
fn frames_are_bytes(bytes: &[u8], capture: &Capture)
    ensures { AllByRecursion AreBytes (frames_of bytes.now capture.now) }
{}

// A hardware address has six bytes: nothing happens here.
fn has_mac(conf: &Conf)
    ensures { length conf.now.mac ≡ 6 }
{
    let _local = local_of(conf);
}

/// Plays a wire list of a capture's frames on the cores of a configuration, each in a thread of its own as far as the gate lets it, and reports
/// it: the report and the file of the replies fit the configuration, the capture and the wire list, whatever the threads' schedule and
/// whatever the gate answers. The replies are in the order of their numbers.
///
/// Memory runs out where there are more than 4,294,967,295 replies, which no report can tell. The call need not return: no clause says that the
/// cores come to rest.
pub fn play<R: Threads + Wait + Sync, T: Gate + Sync>(
    rt: &R,
    alloc: Global,
    conf: &Conf,
    bytes: Bytes,
    capture: Capture,
    entries: Vec<Entry>,
    gate: &T,
) -> Result<(Report, Vec<Reply>), NoMemory>
    requires spans { All (IsSpanOf bytes) capture }
    requires small { length bytes < 2 ^ 32 }
    requires wire { IsWireFor (settings_of conf.now) (frames_of bytes capture) entries.items }
    ensures fits { IfOk result (λ told. Fits (settings_of conf.now) (frames_of bytes capture) entries.items told.0 (reply_file entries.items told.1.items)) }
    ensures short { IfOk result (λ told. All IsShort told.1.items) }
{
    frames_are_bytes(bytes.as_slice(), &capture);
    has_mac(conf);
    runs_are_whole();
    plays_fit();
    let ran = run(rt, alloc, conf, bytes, capture, entries, gate)?;
    let outcome = close(alloc, ran)?;
    report_of(alloc, conf, outcome)
}
