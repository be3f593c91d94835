// The connects of an application that pushes, and what becomes of each.
ghost use Rattle.std.specs.Prelude.{◌≡◌, ◌+◌, ◌-◌, ◌<◌, ◌++◌, ◌∷◌, [], ℕ, List as Sequence, IfOk, OnOk, filter, if◌then◌else◌};
ghost use Rattle.std.specs.List.{list_any};
ghost use Rattle.ix_conf.specs.Settings.{settings_of};
ghost use Rattle.ix_fits.specs.Connects.{answer_behind, answers_from, answers_of, asked_behind, asked_from, asked_of, connect_by, group_asked, is_free, lives_behind, port_behind};
ghost use Rattle.ix_groupdef.specs.Env.{setting_of};
ghost use Rattle.ix_groupdef.specs.Group.{Connect, connect_all, empty, has_room};
ghost use Rattle.ix_groupdef.specs.Life.{hears};
ghost use Rattle.ix_lines.specs.declared.types.ConnectLine.TheVariants as becomes;
ghost use Rattle.ix_playdef.specs.Connects.{flow_asked, is_asked_in};
ghost use Rattle.ix_playdef.specs.Setting.{is_push};
ghost use Rattle.ix_tcpdef.specs.Sound.{IsInRange};

use ix_appdef::Application;
use ix_base::{CoreId, Flow, GroupId, NoMemory};
use ix_conf::{AppKind, Conf};
use ix_fits::opening_core;
use ix_groupdef::{Env, LIMIT, PlainGroup, PlainLife};
use ix_hash::group_of;
use ix_lines::ConnectLine;
use std::alloc::Global;
use std::marker::Model;

// The ports that are chosen freely (RFC 6335, section 6).
const FIRST_PORT: u32 = 49152;

const LAST_PORT: u32 = 65535;

/// A connect on core 0, which an application that pushes makes before the first entry.
#[derive(Debug, Drop)]
pub struct Asked {
    ip: u32,
    port: u16,
    local_port: u16,
}

impl Model for Asked {
    ghost use Rattle.ix_groupdef.specs.Group.{Connect};
    ghost use Rattle.ix_playdef.specs.Connects.{core0};

    ghost Value = { Connect };

    ghost view = { λ a. record { core = core0; ip = a.ip; port = a.port; local_port = a.local_port } };
}

impl Asked {
    // One to a peer, from a local port.
    fn new(peer: (u32, u16), local_port: u16) -> Asked
        ensures { result ≡ connect_by peer local_port }
    {
        Asked {
            ip: peer.0,
            port: peer.1,
            local_port,
        }
    }

    // The flow that it asks for from this address.
    fn flow(&self, local: u32) -> Flow
        ensures { result ≡ flow_asked local self.now }
    {
        Flow {
            remote: self.ip,
            local,
            remote_port: self.port,
            local_port: self.local_port,
        }
    }

    // Whether that flow is of a group.
    fn is_in(&self, local: u32, group: GroupId) -> bool
        ensures { result ≡ is_asked_in local group.0 self.now }
    {
        group_of(&self.flow(local)).0 == group.0
    }
}

/// The connects that ask a group, and what becomes of the connect to each peer.
#[derive(Debug, Drop)]
pub struct PlayConnects {
    /// Those to a peer with a neighbour and a free port, in the order of the peers.
    pub asked: Vec<Asked>,
    /// The answers, in the order of the peers.
    pub answers: Vec<ConnectLine>,
}

fn is_heard(flow: &Flow, lives: &[PlainLife]) -> bool
    ensures { result ≡ list_any (hears flow.now) lives.now }
{
    lives.iter().any(|life| life.hears(flow))
}

fn has_room(lives: &[PlainLife]) -> bool
    ensures { result ≡ has_room lives.now }
{
    lives.iter().filter(|life| life.lives()).count() < LIMIT
}

// Makes a connect; one whose flow has a connection makes nothing.
#[tactic(auto, using(crate::proofs::ConnectLaws::for_one))]
fn make(
    alloc: Global,
    env: &Env<Application>,
    connect: &Asked,
    plain: &mut PlainGroup,
) -> Result<(), NoMemory>
    requires { IsInRange env.now.cfg }
    ensures { (asked : Sequence Connect) → plain.old ≡ connect_all (setting_of env.now) asked empty
        → OnOk result (plain.new ≡ connect_all (setting_of env.now) (asked ++ connect.now ∷ []) empty) }
{
    if is_heard(&connect.flow(env.local.ip), plain.lives()) {
        return Ok(());
    }
    let core = CoreId(0);
    let _answer = plain.connect(
        alloc,
        env,
        core,
        connect.ip,
        connect.port,
        connect.local_port,
    )?;
    Ok(())
}

// Makes a connect where its flow is of a group.
#[tactic(auto, using(crate::proofs::ConnectLaws::for_filters))]
fn make_if_in(
    alloc: Global,
    env: &Env<Application>,
    connect: &Asked,
    group: GroupId,
    plain: &mut PlainGroup,
) -> Result<(), NoMemory>
    requires { IsInRange env.now.cfg }
    ensures { (asked : Sequence Connect) → plain.old ≡ connect_all (setting_of env.now) asked empty
        → OnOk result (plain.new ≡ connect_all (setting_of env.now) (asked ++ filter (is_asked_in env.now.local.ip group.0) (connect.now ∷ [])) empty) }
{
    if !connect.is_in(env.local.ip, group) {
        return Ok(());
    }
    make(alloc, env, connect, plain)
}

/// A group behind those of some connects whose flows are of it, before its first cycle.
#[tactic(auto, using(crate::proofs::ConnectLaws::for_group))]
pub fn connected(
    alloc: Global,
    env: &Env<Application>,
    asked: &[Asked],
    group: GroupId,
) -> Result<PlainGroup, NoMemory>
    requires { IsInRange env.now.cfg }
    ensures { IfOk result (λ plain. plain ≡ connect_all (setting_of env.now) (filter (is_asked_in env.now.local.ip group.0) asked.now) empty) }
{
    let mut plain = PlainGroup::new(alloc);
    for connect in asked {
        make_if_in(alloc, env, connect, group, &mut plain)?;
    }
    Ok(plain)
}

// Whether a local port is free for a connect to a peer behind earlier ones.
#[tactic(auto, unfolding(ix_fits::specs::Connects::is_free))]
fn is_free(
    alloc: Global,
    env: &Env<Application>,
    live: u8,
    earlier: &[Asked],
    peer: (u32, u16),
    local_port: u16,
) -> Result<bool, NoMemory>
    requires range { IsInRange env.now.cfg }
    requires live { 0 < live }
    ensures { IfOk result (λ free. free ≡ is_free (setting_of env.now) live earlier.now peer local_port) }
{
    let flow = Asked::new(peer, local_port).flow(env.local.ip);
    let group = group_of(&flow);
    if opening_core(live, group).0 != 0 {
        return Ok(false);
    }
    let plain = connected(alloc, env, earlier, group)?;
    Ok(!is_heard(&flow, plain.lives()))
}

// The first free local port for a connect to a peer behind earlier ones.
#[tactic(auto, using(crate::proofs::ConnectLaws::for_ports))]
fn free_port(
    alloc: Global,
    env: &Env<Application>,
    live: u8,
    earlier: &[Asked],
    peer: (u32, u16),
) -> Result<Option<u16>, NoMemory>
    requires range { IsInRange env.now.cfg }
    requires live { 0 < live }
    ensures { IfOk result (λ port. port ≡ port_behind (setting_of env.now) live earlier.now peer) }
{
    for port in FIRST_PORT..LAST_PORT + 1 {
        let local_port = port as u16;
        if is_free(alloc, env, live, earlier, peer, local_port)? {
            return Ok(Some(local_port));
        }
    }
    Ok(None)
}

// The answer to a connect behind earlier ones: whether its group has room.
fn answer_to(
    alloc: Global,
    env: &Env<Application>,
    earlier: &[Asked],
    peer: (u32, u16),
    local_port: u16,
) -> Result<ConnectLine, NoMemory>
    requires { IsInRange env.now.cfg }
    ensures { IfOk result (λ answer. answer ≡ (if has_room (lives_behind (setting_of env.now) earlier.now (group_asked (setting_of env.now) peer local_port)) then becomes.Done else becomes.TableFull)) }
{
    let group = group_of(&Asked::new(peer, local_port).flow(env.local.ip));
    let plain = connected(alloc, env, earlier, group)?;
    if has_room(plain.lives()) {
        Ok(ConnectLine::Done)
    } else {
        Ok(ConnectLine::TableFull)
    }
}

// Makes the connect to one more peer.
#[tactic(auto, using(crate::proofs::ConnectLaws::for_peer))]
fn connect_to(
    alloc: Global,
    env: &Env<Application>,
    live: u8,
    peer: (u32, u16),
    asked: &mut Vec<Asked>,
    answers: &mut Vec<ConnectLine>,
) -> Result<(), NoMemory>
    requires range { IsInRange env.now.cfg }
    requires live { 0 < live }
    ensures asked { OnOk result (asked.new.items ≡ asked.old.items ++ asked_behind (setting_of env.now) live asked.old.items peer) }
    ensures answers { OnOk result (answers.new.items ≡ answers.old.items ++ answer_behind (setting_of env.now) live asked.old.items peer ∷ []) }
{
    let Some(_mac) = env.neighbours.get(peer.0) else {
        answers.push(ConnectLine::NoNeighbour)?;
        return Ok(());
    };
    let Some(local_port) = free_port(alloc, env, live, asked.as_slice(), peer)? else {
        answers.push(ConnectLine::NoPort)?;
        return Ok(());
    };
    let answer = answer_to(alloc, env, asked.as_slice(), peer, local_port)?;
    answers.push(answer)?;
    asked.push(Asked::new(peer, local_port))?;
    Ok(())
}

// Those to some peers, one after another.
#[tactic(auto, using(crate::proofs::ConnectLaws::for_peers))]
fn connects_to(
    alloc: Global,
    env: &Env<Application>,
    live: u8,
    peers: &[(u32, u16)],
) -> Result<PlayConnects, NoMemory>
    requires range { IsInRange env.now.cfg }
    requires live { 0 < live }
    ensures asked { IfOk result (λ connects. connects.asked.items ≡ asked_from (setting_of env.now) live [] peers.now) }
    ensures answers { IfOk result (λ connects. connects.answers.items ≡ answers_from (setting_of env.now) live [] peers.now) }
{
    let mut asked = Vec::new(alloc);
    let mut answers = Vec::new(alloc);
    for peer in peers {
        connect_to(alloc, env, live, *peer, &mut asked, &mut answers)?;
    }
    Ok(PlayConnects { asked, answers })
}

fn is_push(kind: AppKind) -> bool
    ensures { result ≡ is_push kind }
{
    matches!(kind, AppKind::Push)
}

/// The connects of a configuration in an environment of its own, on core 0 before the first entry: each to a peer, from the first port above
/// 49151 whose flow is of a group at home on core 0 and has no connection.
pub fn connects_of(
    alloc: Global,
    conf: &Conf,
    env: &Env<Application>,
) -> Result<PlayConnects, NoMemory>
    requires { IsInRange env.now.cfg }
    ensures asked { IfOk result (λ connects. connects.asked.items ≡ asked_of (setting_of env.now) (settings_of conf.now)) }
    ensures answers { IfOk result (λ connects. connects.answers.items ≡ answers_of (setting_of env.now) (settings_of conf.now)) }
{
    if !is_push(conf.app) {
        return Ok(PlayConnects {
            asked: Vec::new(alloc),
            answers: Vec::new(alloc),
        });
    }
    connects_to(alloc, env, conf.live, conf.peers.as_slice())
}
