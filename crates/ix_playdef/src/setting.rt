// What the groups of a play are told.
ghost use Rattle.std.specs.Prelude.{◌≡◌, All, IfOk, length};
ghost use Rattle.ix_conf.specs.Settings.{settings_of};
ghost use Rattle.ix_groupdef.specs.Env.{setting_of};
ghost use Rattle.ix_pcap.specs.Capture.{IsSpanOf, frames_of};
ghost use Rattle.ix_tcpdef.specs.Sound.{IsInRange};
ghost use Rattle.ix_playdef.specs.Setting.{application_of, cfg_of, is_push, setting_of_play};

use crate::own::{initial_numbers, local_of};
use ix_appdef::Application;
use ix_base::{Bytes, NoMemory};
use ix_conf::{AppKind, Conf};
use ix_groupdef::{Env, Neighbours};
use ix_pcap::Capture;
use ix_tcpdef::Cfg;
use std::alloc::Global;

// What connections obey.
fn cfg_of(conf: &Conf) -> Cfg
    ensures cfg { result ≡ cfg_of (settings_of conf.now) }
    ensures range { IsInRange result }
{
    Cfg {
        window: conf.window,
        mss: conf.mss,
        rto: conf.rto,
        retries: conf.retries,
        time_wait: conf.time_wait,
    }
}

// An application of this kind.
fn application_of(alloc: Global, kind: AppKind, text: &[u8]) -> Result<Application, NoMemory>
    ensures { IfOk result (λ app. app ≡ application_of kind text.now) }
{
    match kind {
        AppKind::Echo => Ok(Application::Echo),
        AppKind::Kv => Ok(Application::Kv),
        AppKind::Push => Ok(Application::Push {
            text: Bytes::from_slice(alloc, text)?,
        }),
    }
}

/// Whether an application of this kind pushes: it opens its connections itself, and serves nobody.
pub fn is_push(kind: AppKind) -> bool
    ensures { result ≡ is_push kind }
{
    matches!(kind, AppKind::Push)
}

/// The neighbours of a configuration.
pub fn neighbours_of(alloc: Global, conf: &Conf) -> Result<Neighbours, NoMemory>
    ensures { IfOk result (λ neighbours. neighbours ≡ (settings_of conf.now).neighbours) }
{
    let pairs = Vec::from_slice(alloc, conf.neighbours.as_slice())?;
    Ok(Neighbours::new(pairs))
}

/// What the connections of a play obey and its application is, with the initial sequence numbers that its capture names.
pub fn env_of(
    alloc: Global,
    conf: &Conf,
    bytes: &[u8],
    capture: &Capture,
) -> Result<Env<Application>, NoMemory>
    requires { All (IsSpanOf bytes.now) capture.now }
    ensures setting { IfOk result (λ env. setting_of env ≡ setting_of_play (settings_of conf.now) (frames_of bytes.now capture.now)) }
    ensures range { IfOk result (λ env. IsInRange env.cfg) }
    ensures mac { IfOk result (λ env. length env.local.mac ≡ 6) }
{
    let local = local_of(conf);
    let isns = initial_numbers(alloc, &local, bytes, capture)?;
    let neighbours = neighbours_of(alloc, conf)?;
    let app = application_of(alloc, conf.app, conf.text.as_slice())?;
    Ok(Env {
        cfg: cfg_of(conf),
        local,
        check: conf.checksum,
        listens: !is_push(conf.app),
        isns,
        neighbours,
        app,
    })
}
