// The connects of an application that pushes.
ghost use Rattle.std.specs.Prelude.{◌≡◌, ◌++◌, ◌∷◌, ◌≤◌, [], ℕ, List as Sequence, IfOk, OnOk, false, length, map, filter};
ghost use Rattle.std.specs.List.{list_any};
ghost use Rattle.ix_conf.specs.Settings.{settings_of};
ghost use Rattle.ix_groupdef.specs.Env.{setting_of};
ghost use Rattle.ix_groupdef.specs.Group.{Connect, connect_all, empty, flow_of_connect};
ghost use Rattle.ix_groupdef.specs.Life.{hears};
ghost use Rattle.ix_groupdef.specs.Setting.{mac_of};
ghost use Rattle.ix_tcpdef.specs.Sound.{IsInRange};
ghost use Rattle.ix_playdef.specs.Connects.{port_behind, connects_from, connects_of, is_asked_in, answer_with_room, answer_to_peer, answers_with_room, connect_answers, AreApart};

use crate::setting::{is_push, neighbours_of};
use ix_appdef::Application;
use ix_base::{CoreId, Flow, GroupId, NoMemory, Ret};
use ix_conf::Conf;
use ix_groupdef::{Env, Neighbours, PlainGroup};
use ix_hash::group_of;
use std::alloc::Global;
use std::marker::Model;

// The first port of those that are chosen freely.
const FIRST_PORT: u16 = 49152;

/// A connect on core 0, which an application that pushes makes.
#[derive(Debug, Drop)]
pub struct PushConnect {
    ip: u32,
    port: u16,
    local_port: u16,
}

impl Model for PushConnect {
    ghost use Rattle.ix_groupdef.specs.Group.{Connect};
    ghost use Rattle.ix_playdef.specs.Connects.{core0};

    ghost Value = { Connect };

    ghost view = { λ c. record { core = core0; ip = c.ip; port = c.port; local_port = c.local_port } };
}

impl PushConnect {
    // Whether the flow that it asks for from this address is of a group.
    fn is_in(&self, ip: u32, group: GroupId) -> bool
        ensures { result ≡ is_asked_in ip group.0 self.now }
    {
        let flow = Flow {
            remote: self.ip,
            local: ip,
            remote_port: self.port,
            local_port: self.local_port,
        };
        group_of(&flow).0 == group.0
    }
}

// The local port of a connect to a peer behind those to earlier ones.
fn port_behind(earlier: &[(u32, u16)], peer: (u32, u16)) -> u16
    requires { length earlier.now ≤ 64 }
    ensures { result ≡ port_behind earlier.now peer }
{
    let again = earlier
        .iter()
        .filter(|one| one.0 == peer.0 && one.1 == peer.1)
        .count();
    FIRST_PORT + again as u16
}

// One connect to each of these peers.
#[tactic(auto, using(crate::proofs::ConnectLaws::for_connects))]
fn connects_to(alloc: Global, peers: &[(u32, u16)]) -> Result<Vec<PushConnect>, NoMemory>
    requires { length peers.now ≤ 64 }
    ensures connects { IfOk result (λ connects. connects.items ≡ connects_from [] peers.now) }
    ensures apart { (ip : ℕ) → IfOk result (λ connects. AreApart ip connects.items) }
{
    let mut connects = Vec::new(alloc);
    for (i, peer) in peers.iter().enumerate() {
        let (ip, port) = *peer;
        let local_port = port_behind(&peers[..i], (ip, port));
        connects.push(PushConnect {
            ip,
            port,
            local_port,
        })?;
    }
    Ok(connects)
}

/// The connects of a configuration: one to each peer of an application that pushes, and none of another. Each asks for a flow of its own.
#[tactic(auto, using(crate::proofs::ConnectLaws::apart_none))]
pub fn connects_of(alloc: Global, conf: &Conf) -> Result<Vec<PushConnect>, NoMemory>
    ensures connects { IfOk result (λ connects. connects.items ≡ connects_of (settings_of conf.now)) }
    ensures apart { (ip : ℕ) → IfOk result (λ connects. AreApart ip connects.items) }
{
    if !is_push(conf.app) {
        return Ok(Vec::new(alloc));
    }
    connects_to(alloc, conf.peers.as_slice())
}

// Makes a connect where its flow is of a group.
#[tactic(auto, using(crate::proofs::ConnectLaws::for_one))]
fn connect_if_in(
    alloc: Global,
    env: &Env<Application>,
    connect: &PushConnect,
    group: GroupId,
    plain: &mut PlainGroup,
) -> Result<(), NoMemory>
    requires range { IsInRange env.now.cfg }
    requires free { list_any (hears (flow_of_connect (setting_of env.now) connect.now)) plain.old.lives ≡ false }
    ensures { (asked : Sequence Connect) → plain.old ≡ connect_all (setting_of env.now) asked empty
        → OnOk result (plain.new ≡ connect_all (setting_of env.now) (asked ++ filter (is_asked_in env.now.local.ip group.0) (connect.now ∷ [])) empty) }
{
    if !connect.is_in(env.local.ip, group) {
        return Ok(());
    }
    let core = CoreId(0);
    let _answer = plain.connect(
        alloc,
        env,
        core,
        connect.ip,
        connect.port,
        connect.local_port,
    )?;
    Ok(())
}

/// Makes those of some connects whose flows are of a group, in their order.
#[tactic(auto, using(crate::proofs::ConnectLaws::for_group))]
pub fn connect_in(
    alloc: Global,
    env: &Env<Application>,
    connects: &[PushConnect],
    group: GroupId,
    plain: &mut PlainGroup,
) -> Result<(), NoMemory>
    requires range { IsInRange env.now.cfg }
    requires apart { AreApart env.now.local.ip connects.now }
    requires fresh { plain.old ≡ empty }
    ensures { OnOk result (plain.new ≡ connect_all (setting_of env.now) (filter (is_asked_in env.now.local.ip group.0) connects.now) empty) }
{
    for connect in connects {
        connect_if_in(alloc, env, connect, group, plain)?;
    }
    Ok(())
}

// The answer to a connect to this address, where its group has room.
fn answer_with_room(neighbours: &Neighbours, ip: u32) -> Ret
    ensures { result ≡ answer_with_room (mac_of ip neighbours.now) }
{
    match neighbours.get(ip) {
        Some(_) => Ret::Done(0),
        None => Ret::NoNeighbour,
    }
}

// Those to one connect to each of these peers, where every group has room.
fn answers_to(
    alloc: Global,
    neighbours: &Neighbours,
    peers: &[(u32, u16)],
) -> Result<Vec<Ret>, NoMemory>
    ensures { IfOk result (λ answers. answers.items ≡ map (answer_to_peer neighbours.now) peers.now) }
{
    let mut answers = Vec::with_capacity(alloc, peers.len())?;
    for peer in peers {
        answers.push(answer_with_room(neighbours, peer.0))?;
    }
    Ok(answers)
}

/// What becomes of each connect of a configuration, in the order of its peers, whatever the frames of the capture. No connection ends
/// before the first entry, and there are at most 64 peers, so every group has room: a connect to a peer with a neighbour is done.
pub fn connect_answers(alloc: Global, conf: &Conf) -> Result<Vec<Ret>, NoMemory>
    ensures answers { (frames : Sequence (Sequence ℕ)) → IfOk result (λ answers. answers.items ≡ connect_answers (settings_of conf.now) frames) }
    ensures room { IfOk result (λ answers. answers.items ≡ answers_with_room (settings_of conf.now)) }
{
    if is_push(conf.app) {
        let neighbours = neighbours_of(alloc, conf)?;
        return answers_to(alloc, &neighbours, conf.peers.as_slice());
    }
    Ok(Vec::new(alloc))
}

#[cfg(test)]
mod tests {
    use super::connect_answers;
    use ix_base::Ret;
    use ix_conf::read_conf;
    use std::alloc::{AllocError, Global};
    use std::test::Fail;

    // A local side with the application echo, which makes no connects, and one with the application push; and what becomes of its connects:
    // two to a peer with a neighbour, and between them one to a peer without.
    const ROWS: [(&[u8], &[Ret]); 2] = [
        (
            b"[local]\nmac = \"02:00:00:00:00:01\"\nip = \"161.142.100.80\"\nport = 1766\napp = \"echo\"
[push]\npeers = [{ ip = \"10.0.0.2\", port = 9 }]
[[neighbour]]\nip = \"10.0.0.2\"\nmac = \"02:00:00:00:00:02\"\n",
            &[],
        ),
        (
            b"[local]\nmac = \"02:00:00:00:00:01\"\nip = \"161.142.100.80\"\nport = 1766\napp = \"push\"
[push]\npeers = [{ ip = \"10.0.0.2\", port = 9 }, { ip = \"10.0.0.3\", port = 9 }, { ip = \"10.0.0.2\", port = 9 }]
[[neighbour]]\nip = \"10.0.0.2\"\nmac = \"02:00:00:00:00:02\"\n",
            &[Ret::Done(0), Ret::NoNeighbour, Ret::Done(0)],
        ),
    ];

    #[test]
    fn answers(rt: HostRuntime) -> Result<(), Fail> {
        let alloc = rt.alloc();
        for (conf, expected) in ROWS {
            let conf = read_conf(alloc, conf).map_err(|_| "a configuration")?;
            let answers = connect_answers(alloc, &conf)?;
            assert!(rt; answers.as_slice() == expected);
        }
        Ok(())
    }

    // A local side whose application pushes to one peer 64 times.
    fn many_peers(alloc: Global) -> Result<String, AllocError> {
        let mut text = String::from_str(
            alloc,
            "[local]\nmac = \"02:00:00:00:00:01\"\nip = \"161.142.100.80\"\nport = 1766\napp = \"push\"
[[neighbour]]\nip = \"10.0.0.2\"\nmac = \"02:00:00:00:00:02\"\n",
        )?;
        for _ in 0..64 {
            text.push_str("[[push.peers]]\nip = \"10.0.0.2\"\nport = 9\n")?;
        }
        Ok(text)
    }

    #[test]
    fn room_for_all(rt: HostRuntime) -> Result<(), Fail> {
        let alloc = rt.alloc();
        let text = many_peers(alloc)?;
        let conf = read_conf(alloc, text.as_bytes()).map_err(|_| "a configuration")?;
        let answers = connect_answers(alloc, &conf)?;
        assert!(rt; answers.as_slice() == [Ret::Done(0); 64].as_slice());
        Ok(())
    }
}
