// The connects before the first entry.
ghost use Rattle.std.specs.Prelude.{◌≡◌, ◌<◌, length, IfOk};
ghost use Rattle.ix_conf.specs.Settings.{settings_of};
ghost use Rattle.ix_playdef.specs.Setting.{is_push};
ghost use Rattle.ix_engine.specs.Courses.{peers_of};
ghost use Rattle.ix_engine.specs.Steps.{FirstDials, IsDialed};

use ix_base::{List, NoMemory};
use ix_conf::{AppKind, Conf};
use ix_core::Core;
use ix_dials::connect_line;
use ix_lines::ConnectLine;
use ix_plainstack::{PlainStack, StackEnv};
use std::alloc::Global;

// A core connects to these peers in turn. Each connect has its place as cookie.
fn dial_peers(
    alloc: Global,
    env: &StackEnv,
    core: &mut Core<PlainStack>,
    peers: &[(u32, u16)],
) -> Result<Vec<ConnectLine>, NoMemory>
    ensures { IfOk result (λ told. IsDialed env.now peers.now told.items core.old core.new) }
{
    let mut told = Vec::new(alloc);
    for (cookie, peer) in peers.iter().enumerate() {
        let (ip, port) = *peer;
        let answer = core.connect(env, cookie as u64, ip, port)?;
        told.push(connect_line(answer))?;
    }
    Ok(told)
}

// Whether the application opens connections itself.
fn is_push(kind: AppKind) -> bool
    ensures { result ≡ is_push kind }
{
    matches!(kind, AppKind::Push)
}

// A core connects to each peer of a configuration whose application pushes, and to none of another.
fn dial_core(
    alloc: Global,
    conf: &Conf,
    env: &StackEnv,
    core: &mut Core<PlainStack>,
) -> Result<List<ConnectLine>, NoMemory>
    ensures { IfOk result (λ told. IsDialed env.now (peers_of (settings_of conf.now)) told core.old core.new) }
{
    if !is_push(conf.app) {
        return Ok(List::new(alloc));
    }
    let told = dial_peers(alloc, env, core, conf.peers.as_slice())?;
    Ok(List::from_vec(told))
}

/// Core 0 connects to each peer of a configuration whose application pushes, and to none of another. What became of each connect is told.
pub fn dial(
    alloc: Global,
    conf: &Conf,
    env: &StackEnv,
    cores: &mut Vec<Core<PlainStack>>,
) -> Result<List<ConnectLine>, NoMemory>
    requires { 0 < length cores.old.items }
    ensures { IfOk result (λ told. FirstDials env.now (peers_of (settings_of conf.now)) told cores.old.items cores.new.items) }
{
    let core = &mut cores[0];
    let told = dial_core(alloc, conf, env, core)?;
    Ok(told)
}
