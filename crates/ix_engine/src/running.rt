// A play from its opening to its last settle.
ghost use Rattle.std.specs.Prelude.{◌≡◌, ◌<◌, ◌^◌, All, IfOk, length};
ghost use Rattle.ix_conf.specs.Settings.{settings_of};
ghost use Rattle.ix_groupdef.specs.Owners.{sends_parts};
ghost use Rattle.ix_pcap.specs.Capture.{IsSpanOf, frames_of};
ghost use Rattle.ix_playdef.specs.Setting.{application_of};
ghost use Rattle.ix_engine.specs.Courses.{CanGoOn, HasRun, IsWireFor, engine_of};

use crate::beginning::{Begun, begin};
use crate::course::{Machine, run_epochs};
use ix_base::{Bytes, List, NoMemory};
use ix_conf::Conf;
use ix_lines::{ConnectLine, SettleLine};
use ix_pcap::Capture;
use ix_plainstack::StackEnv;
use ix_run::Gate;
use ix_wire::Entry;
use std::alloc::Global;
use std::sync::Wait;
use std::thread::Threads;

/// A play behind its last settle.
#[derive(Drop)]
pub struct Ran {
    /// What the flow groups read.
    pub env: StackEnv,
    /// What became of each connect, in the order of the peers.
    pub connects: List<ConnectLine>,
    /// The settle before the first entry, and that of each settle among the entries.
    pub settles: List<SettleLine>,
    /// The card, of whose wire list all entries were carried out, and the cores.
    pub machine: Machine,
}

/// Runs a play from its opening until no entry of its wire list is left, and the last epoch is settled. The card and each core run in threads of their
/// own, as far as the gate lets them.
///
/// It need not return: no clause says that an epoch ends.
pub fn run<R: Threads + Wait + Sync, T: Gate + Sync>(
    rt: &R,
    alloc: Global,
    conf: &Conf,
    bytes: Bytes,
    capture: Capture,
    entries: Vec<Entry>,
    gate: &T,
) -> Result<Ran, NoMemory>
    requires spans { All (IsSpanOf bytes) capture }
    requires small { length bytes < 2 ^ 32 }
    requires wire { IsWireFor (settings_of conf.now) (frames_of bytes capture) entries.items }
    ensures run { IfOk result (λ ran. HasRun (settings_of conf.now) (frames_of bytes capture) entries.items ran.env ran.connects ran.settles (engine_of ran.machine)) }
    ensures can { IfOk result (λ ran. CanGoOn (engine_of ran.machine)) }
    ensures whole { IfOk result (λ ran. sends_parts ran.env.app ≡ sends_parts (application_of conf.now.app conf.now.text)) }
{
    let Begun {
        env,
        connects,
        line,
        machine,
    } = begin(alloc, conf, bytes, capture, entries)?;
    let (machine, mut later) = run_epochs(rt, alloc, &env, machine, gate)?;
    let mut settles = Vec::new(alloc);
    settles.push(line)?;
    settles.append(&mut later)?;
    Ok(Ran {
        env,
        connects,
        settles: List::from_vec(settles),
        machine,
    })
}
