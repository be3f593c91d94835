// What no clause says: each public call once, on numbers that wrap.
use crate::{accept, close, connect, is_live, recv_done, sendv};
use ix_base::{Flow, Ret, SYN};
use ix_tcpdef::{Cfg, State, Tcb, unopened};

const CFG: Cfg = Cfg {
    window: 1000,
    mss: 100,
    rto: 200,
    retries: 3,
    time_wait: 400,
};

// A connection of which a knock was told.
fn knocking() -> Tcb {
    let flow = Flow {
        remote: 0x0a00_0001,
        local: 0x0a00_0002,
        remote_port: 4000,
        local_port: 80,
    };
    let mut tcb = unopened(flow, [2, 0, 0, 0, 0, 1], 0xffff_ff00);
    tcb.state = State::Established;
    tcb.una = 0xffff_ff01;
    tcb.nxt = 0xffff_ff01;
    tcb.mss = 100;
    tcb.wnd = 250;
    tcb.cwnd = 400;
    tcb.knocked = true;
    tcb
}

#[test]
fn accepted_once(rt: HostRuntime) {
    let mut tcb = knocking();
    assert_eq!(rt; sendv(5, &mut tcb), Ret::NotOpen);
    assert_eq!(rt; recv_done(&CFG, 0, &mut tcb), Ret::NotOpen);
    assert_eq!(rt; accept(&mut tcb), Ret::Done(0));
    assert_eq!(rt; accept(&mut tcb), Ret::NotKnocked);
}

#[test]
fn as_much_as_there_is_room_for(rt: HostRuntime) {
    let mut tcb = knocking();
    assert_eq!(rt; accept(&mut tcb), Ret::Done(0));
    assert_eq!(rt; sendv(200, &mut tcb), Ret::Done(200));
    assert_eq!(rt; (tcb.queued, tcb.wants), (200, false));
    assert_eq!(rt; sendv(100, &mut tcb), Ret::Done(50));
    assert_eq!(rt; (tcb.queued, tcb.wants), (250, true));
    assert_eq!(rt; sendv(100, &mut tcb), Ret::Done(0));
}

#[test]
fn room_given_back_opens_a_closed_window(rt: HostRuntime) {
    let mut tcb = knocking();
    assert_eq!(rt; accept(&mut tcb), Ret::Done(0));
    tcb.unread = 1000;
    assert_eq!(rt; recv_done(&CFG, 1001, &mut tcb), Ret::TooMuch);
    assert_eq!(rt; recv_done(&CFG, 400, &mut tcb), Ret::Done(400));
    assert_eq!(rt; (tcb.unread, tcb.ack_owed), (600, true));
}

#[test]
fn closed_once(rt: HostRuntime) {
    let mut tcb = knocking();
    tcb.deadline = Some(7);
    tcb.expiries = 2;
    tcb.unread = 10;
    assert_eq!(rt; accept(&mut tcb), Ret::Done(0));
    assert_eq!(rt; close(&mut tcb), Ret::Done(0));
    assert_eq!(rt;
        (tcb.state, tcb.deadline, tcb.expiries, tcb.unread),
        (State::FinWait1, None, 0, 0)
    );
    assert!(rt; !is_live(&tcb));
    assert_eq!(rt; close(&mut tcb), Ret::BadHandle);
}

#[test]
fn opened_once(rt: HostRuntime) {
    let mut tcb = knocking();
    assert!(rt; connect(&CFG, 3, &mut tcb).is_none());
    tcb.state = State::Listen;
    let syn = connect(&CFG, 3, &mut tcb);
    assert_eq!(rt;
        syn.map(|head| (head.seq, head.flags, head.mss)),
        Some((0xffff_ff00, SYN, Some(100)))
    );
    assert_eq!(rt;
        (tcb.state, tcb.nxt, tcb.deadline),
        (State::SynSent, 0xffff_ff01, Some(203))
    );
}
