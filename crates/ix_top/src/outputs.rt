// Makes the two files of a play, and writes them.
ghost use Rattle.std.specs.Prelude.{◌≡◌, All, IfOk, OnOk, OnErr};
ghost use Rattle.ix_base.specs.declared.role.Kind.TheVariants.{Reading, Writing};
ghost use Rattle.ix_base.specs.Host.{Rose};
ghost use Rattle.ix_fits.specs.Replies.{reply_file};
ghost use Rattle.ix_playdef.specs.Replies.{IsShort};
ghost use Rattle.ix_top.specs.Top.{AreFiles, Appends, AppendsFront, KeepsOthers};

use crate::inputs::Inputs;
use crate::writing::store;
use ix_base::{Bytes, Failed, Host, NoMemory, Role};
use ix_pcap::write_capture;
use ix_playdef::{Reply, sent_at};
use ix_run::Gate;
use ix_trace::trace_text;
use ix_wire::Entry;
use std::alloc::Global;
use std::sync::Wait;
use std::thread::Threads;

/// The two files that a play writes.
#[derive(Drop)]
pub struct Output {
    pub replies: Bytes,
    pub trace: Bytes,
}

// The file of some replies: each stands at the clock of its entry.
fn replies_file(alloc: Global, entries: &[Entry], replies: Vec<Reply>) -> Result<Bytes, NoMemory>
    requires { All IsShort replies.items }
    ensures { IfOk result (λ bytes. bytes ≡ reply_file entries.now replies.items) }
{
    let sent = sent_at(alloc, entries, replies)?;
    write_capture(alloc, sent.as_slice())
}

/// Plays, and makes both files whole.
pub fn perform<R: Threads + Wait + Sync, G: Gate + Sync>(
    rt: &R,
    alloc: Global,
    inputs: Inputs,
    gate: &G,
) -> Result<Output, NoMemory>
    ensures { IfOk result (λ output. AreFiles inputs output.replies output.trace) }
{
    let entries = inputs.entries().to_vec(alloc)?;
    let (report, replies) = inputs.play(rt, alloc, gate)?;
    // Whoever reads the trace learns what each report keeps.
    let _ = report.head();
    let trace = trace_text(alloc, &report)?;
    let replies = replies_file(alloc, &entries, replies)?;
    Ok(Output { replies, trace })
}

/// Writes the replies, then the trace.
pub fn deliver<H: Host>(
    host: &mut H,
    replies: &str,
    trace: &str,
    output: &Output,
) -> Result<(), Failed>
    ensures ok { OnOk result (Appends (H.state host.old) (H.state host.new) output.now.replies output.now.trace) }
    ensures err { OnErr result (AppendsFront (H.state host.old) (H.state host.new) output.now.replies output.now.trace) }
    ensures failed { OnErr result (Rose ((H.state host.old).faults Writing) ((H.state host.new).faults Writing)) }
    ensures left { (H.state host.new).left ≡ (H.state host.old).left }
    ensures other { (H.state host.new).faults Reading ≡ (H.state host.old).faults Reading }
    ensures others { KeepsOthers (H.state host.old) (H.state host.new) }
{
    store(host, Role::Replies, replies, output.replies.as_slice())?;
    store(host, Role::Trace, trace, output.trace.as_slice())
}
