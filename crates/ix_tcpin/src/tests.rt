use super::{Take, arrive};
use ix_base::{ACK, Flow, SYN, SegHead};
use ix_tcpdef::{BEHIND_HEADER, BEHIND_SYN, Cfg, State, unopened};

const FLOW: Flow = Flow {
    remote: 0x0a00_0001,
    local: 0x0a00_0002,
    remote_port: 4000,
    local_port: 80,
};

const MAC: [u8; 6] = [2, 0, 0, 0, 0, 1];

fn usual() -> Cfg {
    Cfg {
        window: 32_768,
        mss: 1460,
        rto: 200,
        retries: 4,
        time_wait: 400,
    }
}

#[test]
fn a_syn_opens(rt: HostRuntime) {
    let mut tcb = unopened(FLOW, MAC, 0xffff_ffff);
    let syn = SegHead {
        flow: FLOW,
        peer_mac: MAC,
        seq: 0xffff_ffff,
        ack: 0,
        flags: SYN,
        window: 1000,
        mss: Some(1000),
        len: 0,
        at: BEHIND_HEADER,
    };
    let verdict = arrive(&usual(), &mut tcb, &syn, 7);
    let syn_ack = SegHead {
        flow: FLOW,
        peer_mac: MAC,
        seq: 0xffff_ffff,
        ack: 0,
        flags: SYN + ACK,
        window: 32_768,
        mss: Some(1460),
        len: 0,
        at: BEHIND_SYN,
    };
    assert!(rt; tcb.state == State::SynReceived);
    assert_eq!(rt; tcb.nxt, 0);
    assert_eq!(rt; tcb.rcv_nxt, 0);
    assert_eq!(rt; tcb.deadline, Some(207));
    assert_eq!(rt; verdict.reply, Some(syn_ack));
    assert_eq!(rt; verdict.take, Take::Nothing);
    assert!(rt; verdict.held.is_empty());
    assert!(rt; !verdict.ended);
}
