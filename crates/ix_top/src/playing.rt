// The command that plays a script over a capture.
ghost use Rattle.std.specs.Prelude.{◌≡◌, ◌≢◌, IsOk};
ghost use Rattle.ix_base.specs.declared.role.Kind.TheVariants.{Reading, Writing};
ghost use Rattle.ix_base.specs.Host.{Rose};
ghost use Rattle.ix_top.specs.Check.{IsRefused};
ghost use Rattle.ix_top.specs.Top.{Answers, Tells, Given, AllRead, Played, PlayedFront, WritesNothing, KeepsOthers, play_meaning, IsDoneOrNoMemory};

use crate::command::PlayFiles;
use crate::inputs::read_inputs;
use crate::outputs::{deliver, perform};
use crate::status::Status;
use ix_base::Host;
use ix_run::Gate;
use std::alloc::Global;
use std::sync::Wait;
use std::thread::Threads;

/// Reads the three inputs, plays them, and writes the replies and the trace.
pub fn play<R: Threads + Wait + Sync, H: Host, G: Gate + Sync>(
    rt: &R,
    alloc: Global,
    files: &PlayFiles<'_>,
    host: &mut H,
    gate: &G,
) -> Status
    ensures command { result ≢ Status.Usage }
    ensures plays { ¬ IsRefused result }
    ensures answers { (g : Given) → Tells (H.state host.old) g → Answers result (play_meaning g) }
    ensures read { result ≡ Status.Done → AllRead (H.state host.new) }
    ensures done { result ≡ Status.Done → (g : Given) → Tells (H.state host.old) g → Played g (H.state host.old) (H.state host.new) }
    ensures front { result ≡ Status.WriteFault → (g : Given) → Tells (H.state host.old) g → PlayedFront g (H.state host.old) (H.state host.new) }
    ensures nothing { result ≢ Status.Done → result ≢ Status.WriteFault → WritesNothing (H.state host.old) (H.state host.new) }
    ensures others { KeepsOthers (H.state host.old) (H.state host.new) }
    ensures complete { (g : Given) → Tells (H.state host.old) g → IsOk (play_meaning g)
        → ¬ Rose ((H.state host.old).faults Reading) ((H.state host.new).faults Reading)
        → ¬ Rose ((H.state host.old).faults Writing) ((H.state host.new).faults Writing) → IsDoneOrNoMemory result }
    ensures read_fault { result ≡ Status.ReadFault → Rose ((H.state host.old).faults Reading) ((H.state host.new).faults Reading) }
    ensures write_fault { result ≡ Status.WriteFault → Rose ((H.state host.old).faults Writing) ((H.state host.new).faults Writing) }
{
    let inputs = match read_inputs(alloc, host, files.conf, files.script, files.capture) {
        Ok(inputs) => inputs,
        Err(status) => return status,
    };
    let Ok(output) = perform(rt, alloc, inputs, gate) else {
        return Status::NoMemory;
    };
    match deliver(host, files.replies, files.trace, &output) {
        Ok(()) => Status::Done,
        Err(_) => Status::WriteFault,
    }
}
