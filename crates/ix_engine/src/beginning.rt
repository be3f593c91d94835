// The beginning of a play, up to its first settle.
ghost use Rattle.std.specs.Prelude.{◌≡◌, ◌<◌, ◌≤◌, ◌^◌, All, IfOk, OnOk, length};
ghost use Rattle.ix_conf.specs.Settings.{settings_of};
ghost use Rattle.ix_epochs.specs.Ready.{IsReady};
ghost use Rattle.ix_feed.specs.Told.{CardIsClear};
ghost use Rattle.ix_groupdef.specs.Env.{setting_of};
ghost use Rattle.ix_groupdef.specs.Owners.{sends_parts};
ghost use Rattle.ix_pcap.specs.Capture.{IsSpanOf, frames_of};
ghost use Rattle.ix_playdef.specs.Setting.{application_of, setting_of_play};
ghost use Rattle.ix_engine.specs.Courses.{CanGoOn, HasBegun, IsWireFor, SetsOut, engine_of};

use crate::course::Machine;
use crate::dialing::dial;
use crate::opening::open;
use crate::settling::{meet_cores, settle_cores};
use ix_base::{Bytes, List, NoMemory};
use ix_conf::Conf;
use ix_core::Core;
use ix_epochs::{meetings_are_ready, openings_are_ready, settles_are_ready};
use ix_feed::{Replay, wires_can_be_fed};
use ix_lines::{ConnectLine, SettleLine};
use ix_nic::Nic;
use ix_pcap::Capture;
use ix_plainstack::{PlainStack, StackEnv};
use ix_playdef::env_of;
use ix_wire::Entry;
use std::alloc::Global;

/// A play behind its first settle.
#[derive(Drop)]
pub struct Begun {
    /// What the flow groups read.
    pub env: StackEnv,
    /// What became of each connect, in the order of the peers.
    pub connects: List<ConnectLine>,
    /// The settle before the first entry.
    pub line: SettleLine,
    /// The card, of whose wire list nothing was carried out yet, and the cores.
    pub machine: Machine,
}

// What the flow groups of a play read: its configuration, and the initial sequence numbers that its capture names.
fn stack_env(
    alloc: Global,
    conf: &Conf,
    bytes: &[u8],
    capture: &Capture,
) -> Result<StackEnv, NoMemory>
    requires { All (IsSpanOf bytes.now) capture.now }
    ensures setting { IfOk result (λ env. setting_of env ≡ setting_of_play (settings_of conf.now) (frames_of bytes.now capture.now)) }
    ensures whole { IfOk result (λ env. sends_parts env.app ≡ sends_parts (application_of conf.now.app conf.now.text)) }
{
    let env = env_of(alloc, conf, bytes, capture)?;
    Ok(StackEnv::new(env))
}

// Core 0 connects to its peers, and the first settle is made.
fn set_out(
    alloc: Global,
    conf: &Conf,
    env: &StackEnv,
    nic: &mut Nic,
    cores: &mut Vec<Core<PlainStack>>,
) -> Result<(List<ConnectLine>, SettleLine), NoMemory>
    requires some { 1 ≤ length cores.old.items }
    requires ready { IsReady nic.old cores.old.items }
    ensures sets_out { IfOk result (λ r. SetsOut (settings_of conf.now) env.now r.0 r.1 nic.old nic.new cores.old.items cores.new.items) }
    ensures ready { OnOk result (IsReady nic.new cores.new.items) }
    ensures clear { OnOk result (CardIsClear nic.new) }
    ensures table { OnOk result (nic.new.table ≡ nic.old.table) }
    ensures count { OnOk result (length cores.new.items ≡ length cores.old.items) }
{
    meetings_are_ready::<PlainStack>();
    settles_are_ready::<PlainStack>();
    let connects = dial(alloc, conf, env, cores)?;
    meet_cores(nic, cores);
    let line = settle_cores(alloc, nic, cores)?;
    Ok((connects, line))
}

/// Opens the card and the cores of a play, has core 0 connect to its peers, and makes the first settle. The wire list of the capture's frames can be
/// fed from then on.
pub fn begin(
    alloc: Global,
    conf: &Conf,
    bytes: Bytes,
    capture: Capture,
    entries: Vec<Entry>,
) -> Result<Begun, NoMemory>
    requires spans { All (IsSpanOf bytes) capture }
    requires small { length bytes < 2 ^ 32 }
    requires wire { IsWireFor (settings_of conf.now) (frames_of bytes capture) entries.items }
    ensures begun { IfOk result (λ begun. HasBegun (settings_of conf.now) (frames_of bytes capture) entries.items begun.env begun.connects begun.line (engine_of begun.machine)) }
    ensures can { IfOk result (λ begun. CanGoOn (engine_of begun.machine)) }
    ensures whole { IfOk result (λ begun. sends_parts begun.env.app ≡ sends_parts (application_of conf.now.app conf.now.text)) }
{
    openings_are_ready::<PlainStack>();
    wires_can_be_fed();
    let env = stack_env(alloc, conf, bytes.as_slice(), &capture)?;
    let replay = Replay::new(alloc, entries, bytes, capture)?;
    let (mut nic, mut cores) = open(alloc, conf, replay.moves())?;
    let (connects, line) = set_out(alloc, conf, &env, &mut nic, &mut cores)?;
    Ok(Begun {
        env,
        connects,
        line,
        machine: Machine { nic, replay, cores },
    })
}
