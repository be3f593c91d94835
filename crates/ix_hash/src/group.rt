// The flow group of a flow.
ghost use Rattle.std.specs.Prelude.{◌≡◌, ◌<◌};
ghost use Rattle.ix_hash.specs.Group.{flow_bytes, hash_of_flow, group_of_flow};

use crate::hash::{KEY, toeplitz};
use ix_base::{FLOW_GROUPS, Flow, GroupId};

/// What is hashed of a flow, in network order: remote address, local address, remote port, local port.
fn flow_bytes(flow: &Flow) -> [u8; 12]
    ensures { result ≡ flow_bytes flow.now }
{
    let [r0, r1, r2, r3] = flow.remote.to_be_bytes();
    let [l0, l1, l2, l3] = flow.local.to_be_bytes();
    let [p0, p1] = flow.remote_port.to_be_bytes();
    let [q0, q1] = flow.local_port.to_be_bytes();
    [r0, r1, r2, r3, l0, l1, l2, l3, p0, p1, q0, q1]
}

/// The hash of a flow under [`KEY`].
#[tactic(auto, unfolding(crate::specs::Key::key))]
pub fn flow_hash(flow: &Flow) -> u32
    ensures { result ≡ hash_of_flow flow.now }
{
    toeplitz(&KEY, &flow_bytes(flow))
}

/// The group of a flow: the low nine bits of its hash.
pub fn group_of(flow: &Flow) -> GroupId
    ensures group { result.0 ≡ group_of_flow flow.now }
    ensures below { result.0 < FLOW_GROUPS }
{
    GroupId((flow_hash(flow) % FLOW_GROUPS as u32) as u16)
}

#[cfg(test)]
mod tests {
    use super::{flow_hash, group_of};
    use ix_base::Flow;
    use std::test::Fail;

    #[test]
    fn published_flow(rt: HostRuntime) -> Result<(), Fail> {
        let flow = Flow {
            remote: 0x4209_95bb,
            local: 0xa18e_6450,
            remote_port: 2794,
            local_port: 1766,
        };
        assert_eq!(rt; flow_hash(&flow), 0x51cc_c178);
        assert_eq!(rt; group_of(&flow).0, 376);
        Ok(())
    }
}
