// What no clause says: an opening and two steps, over numbers that wrap.
use crate::Positions;
use ix_base::Flow;
use ix_tcpdef::{State, Tcb, unopened};
use std::test::Fail;

fn listening() -> Tcb {
    let flow = Flow {
        remote: 0x0a00_0001,
        local: 0x0a00_0002,
        remote_port: 4000,
        local_port: 80,
    };
    unopened(flow, [2, 0, 0, 0, 0, 1], 0xffff_ff00)
}

#[test]
fn counted_over_the_end_of_the_numbers(rt: HostRuntime) -> Result<(), Fail> {
    let mut before = listening();
    let mut after = listening();
    after.state = State::SynReceived;
    let opened = Positions::unopened().after(&before, &after)?;
    assert_eq!(rt;
        opened,
        Positions {
            una: 0,
            nxt: 1,
            rcv: 1
        }
    );
    before.state = State::Established;
    before.una = 0xffff_ff01;
    before.nxt = 0xffff_ff01;
    before.rcv_nxt = 0xffff_fffe;
    after.state = State::Established;
    after.una = 0xffff_ff01;
    after.nxt = 0x0000_0101;
    after.rcv_nxt = 2;
    let sent = Positions {
        una: 1,
        nxt: 1,
        rcv: 1,
    }
    .after(&before, &after)?;
    assert_eq!(rt;
        sent,
        Positions {
            una: 1,
            nxt: 513,
            rcv: 5
        }
    );
    let left = sent.left(&after);
    assert_eq!(rt; (left.una, left.nxt, left.rcv), (1, 513, 5));
    Ok(())
}

#[test]
fn a_peer_is_counted_from_its_syn(rt: HostRuntime) -> Result<(), Fail> {
    let mut before = listening();
    let mut after = listening();
    after.state = State::SynSent;
    let opened = Positions::unopened().after(&before, &after)?;
    assert_eq!(rt;
        opened,
        Positions {
            una: 0,
            nxt: 1,
            rcv: 0
        }
    );
    before.state = State::SynSent;
    before.una = 0xffff_ff00;
    before.nxt = 0xffff_ff01;
    after.state = State::Established;
    after.una = 0xffff_ff01;
    after.nxt = 0xffff_ff01;
    after.rcv_nxt = 77;
    assert_eq!(rt;
        opened.after(&before, &after)?,
        Positions {
            una: 1,
            nxt: 1,
            rcv: 1
        }
    );
    let far = Positions {
        una: u64::MAX,
        nxt: 1,
        rcv: 1,
    };
    assert!(rt; far.after(&before, &after).is_err());
    Ok(())
}
