// What the groups of a play leave.
ghost use Rattle.std.specs.Prelude.{◌≡◌, ◌<◌, ◌^◌, All, IfOk, length};
ghost use Rattle.ix_conf.specs.Settings.{settings_of};
ghost use Rattle.ix_groupdef.specs.Env.{setting_of};
ghost use Rattle.ix_pcap.specs.Capture.{IsSpanOf, frames_of};
ghost use Rattle.ix_tcpdef.specs.Sound.{IsInRange};
ghost use Rattle.ix_playdef.specs.Connects.{AreApart};
ghost use Rattle.ix_playdef.specs.Replies.{FitsGroup};
ghost use Rattle.ix_playdef.specs.Groups.{record_given, AreRecordsGiven, AreRecords};

use crate::connects::{PushConnect, connect_in, connects_of};
use crate::run::run_given;
use crate::setting::env_of;
use crate::wire::{Given, entries_by_group};
use ix_appdef::Application;
use ix_base::{CoreId, FLOW_GROUPS, GroupId, List, NoMemory};
use ix_conf::Conf;
use ix_groupdef::{Env, GroupRecord, PlainGroup, groups_are_sound};
use ix_ip::payloads_lie_within;
use ix_pcap::Capture;
use ix_wire::Entry;
use std::alloc::Global;

// What a group leaves of these connects and of what it is given.
fn record_given(
    alloc: Global,
    env: &Env<Application>,
    connects: &[PushConnect],
    group: GroupId,
    given: List<Given>,
) -> Result<GroupRecord, NoMemory>
    requires range { IsInRange env.now.cfg }
    requires apart { AreApart env.now.local.ip connects.now }
    ensures { IfOk result (λ left. left ≡ record_given (setting_of env.now) connects.now group.0 given) }
{
    let mut plain = PlainGroup::new(alloc);
    connect_in(alloc, env, connects, group, &mut plain)?;
    run_given(alloc, env, CoreId(0), given, &mut plain)?;
    plain.finish(alloc, env)
}

// What the groups leave of what each is given.
#[tactic(auto, using(crate::proofs::GroupLaws::for_lists))]
fn records_given(
    alloc: Global,
    env: &Env<Application>,
    connects: &[PushConnect],
    lists: Vec<List<Given>>,
) -> Result<Vec<GroupRecord>, NoMemory>
    requires range { IsInRange env.now.cfg }
    requires apart { AreApart env.now.local.ip connects.now }
    requires groups { length lists.items ≡ 512 }
    ensures { IfOk result (λ records. AreRecordsGiven (setting_of env.now) connects.now lists.items records.items) }
{
    let mut records = Vec::with_capacity(alloc, FLOW_GROUPS)?;
    for given in lists {
        let group = GroupId(records.len() as u16);
        let left = record_given(alloc, env, connects, group, given)?;
        records.push(left)?;
    }
    Ok(records)
}

/// What all flow groups leave of a play on core 0, group by group.
#[tactic(auto, using(crate::proofs::GroupLaws::for_records))]
pub fn group_records(
    alloc: Global,
    conf: &Conf,
    bytes: &[u8],
    capture: &Capture,
    entries: &[Entry],
) -> Result<Vec<GroupRecord>, NoMemory>
    requires spans { All (IsSpanOf bytes.now) capture.now }
    requires numbers { length entries.now < 2 ^ 32 }
    ensures groups { IfOk result (λ records. length records.items ≡ 512) }
    ensures each { IfOk result (λ records. AreRecords (settings_of conf.now) (frames_of bytes.now capture.now) entries.now records.items) }

    // What each leaves can be written and told.
    ensures fit { IfOk result (λ records. All FitsGroup records.items) }
{
    groups_are_sound();
    payloads_lie_within();
    let env = env_of(alloc, conf, bytes, capture)?;
    let connects = connects_of(alloc, conf)?;
    let lists = entries_by_group(alloc, bytes, capture, entries)?;
    records_given(alloc, &env, connects.as_slice(), lists)
}

#[cfg(test)]
mod tests {
    use super::group_records;
    use ix_base::NoMemory;
    use ix_conf::read_conf;
    use ix_groupdef::GroupRecord;
    use ix_pcap::read_capture;
    use std::alloc::Global;
    use std::test::Fail;

    // A capture without records.
    const EMPTY: [u8; 24] = [
        0xd4, 0xc3, 0xb2, 0xa1, 2, 0, 4, 0, 0, 0, 0, 0, 0, 0, 0, 0, 0xff, 0xff, 0, 0, 1, 0, 0, 0,
    ];

    // A local side that serves port 1766 of 161.142.100.80 or pushes from there, with its peers and neighbours; and the group and the
    // local port of each connection that it asks for.
    const ROWS: [(&[u8], &[(usize, u16)]); 4] = [
        (
            b"[local]\nmac = \"02:00:00:00:00:01\"\nip = \"161.142.100.80\"\nport = 1766\napp = \"push\"
[push]\npeers = [{ ip = \"10.0.0.2\", port = 9 }]\n",
            &[],
        ),
        (
            b"[local]\nmac = \"02:00:00:00:00:01\"\nip = \"161.142.100.80\"\nport = 1766\napp = \"push\"
[push]\npeers = [{ ip = \"10.0.0.2\", port = 9 }]
[[neighbour]]\nip = \"10.0.0.2\"\nmac = \"02:00:00:00:00:02\"\n",
            &[(392, 49152)],
        ),
        (
            b"[local]\nmac = \"02:00:00:00:00:01\"\nip = \"161.142.100.80\"\nport = 1766\napp = \"push\"
[push]\npeers = [{ ip = \"10.0.0.2\", port = 9 }, { ip = \"10.0.0.2\", port = 9 }]
[[neighbour]]\nip = \"10.0.0.2\"\nmac = \"02:00:00:00:00:02\"\n",
            &[(80, 49153), (392, 49152)],
        ),
        (
            b"[local]\nmac = \"02:00:00:00:00:01\"\nip = \"161.142.100.80\"\nport = 1766\napp = \"echo\"
[push]\npeers = [{ ip = \"10.0.0.2\", port = 9 }]
[[neighbour]]\nip = \"10.0.0.2\"\nmac = \"02:00:00:00:00:02\"\n",
            &[],
        ),
    ];

    // The group and the local port of each connection.
    fn ports(alloc: Global, records: &[GroupRecord]) -> Result<Vec<(usize, u16)>, NoMemory> {
        let mut found = Vec::new(alloc);
        for (group, left) in records.iter().enumerate() {
            for conn in left.conns.as_slice() {
                found.push((group, conn.flow.local_port))?;
            }
        }
        Ok(found)
    }

    #[test]
    fn connects(rt: HostRuntime) -> Result<(), Fail> {
        let alloc = rt.alloc();
        let capture = read_capture(alloc, &EMPTY).map_err(|_| "a capture")?;
        for (conf, expected) in ROWS {
            let conf = read_conf(alloc, conf).map_err(|_| "a configuration")?;
            let records = group_records(alloc, &conf, &EMPTY, &capture, &[])?;
            let found = ports(alloc, records.as_slice())?;
            assert!(rt; found.as_slice() == expected);
        }
        Ok(())
    }
}
