ghost use Rattle.std.specs.Prelude.{◌≤◌};
ghost use Rattle.ix_tcpdef.specs.Sound.{FitsPeer};

use super::{expire, flush};
use ix_base::{ACK, FIN, Flow, PSH};
use ix_tcpdef::{Cfg, State, Tcb, Told, unopened};

const CFG: Cfg = Cfg {
    window: 1000,
    mss: 100,
    rto: 200,
    retries: 3,
    time_wait: 400,
};

/// A connection whose numbers wrap within its first bytes.
fn talking(state: State, queued: u32, wnd: u32) -> Tcb
    requires { wnd ≤ 65535 }
    ensures { FitsPeer result.state result.mss result.wnd result.cwnd result.ssthresh }
{
    let flow = Flow {
        remote: 0x0a00_0001,
        local: 0x0a00_0002,
        remote_port: 4000,
        local_port: 80,
    };
    let mut tcb = unopened(flow, [2, 0, 0, 0, 0, 1], 0xffff_ff00);
    tcb.state = state;
    tcb.una = 0xffff_ff01;
    tcb.nxt = 0xffff_ff01;
    tcb.mss = 100;
    tcb.wnd = wnd;
    tcb.cwnd = 400;
    tcb.queued = queued;
    tcb
}

#[test]
fn cut_by_the_window(rt: HostRuntime) {
    let mut tcb = talking(State::Established, 300, 250);
    let outs = flush(&CFG, &mut tcb, 7);
    let mut ranges = outs.entries.iter().map(|o| (o.from, o.to, o.head.flags));
    assert_eq!(rt; ranges.next(), Some((0, 100, ACK)));
    assert_eq!(rt; ranges.next(), Some((100, 200, ACK)));
    assert_eq!(rt; ranges.next(), Some((200, 250, ACK)));
    assert_eq!(rt; ranges.next(), None);
    assert_eq!(rt; tcb.nxt, 0xffff_fffb);
    assert_eq!(rt; tcb.deadline, Some(207));
}

#[test]
fn fin_behind_the_data(rt: HostRuntime) {
    let mut tcb = talking(State::FinWait1, 260, 1000);
    tcb.fin_wanted = true;
    let outs = flush(&CFG, &mut tcb, 0);
    let mut heads = outs.entries.iter().map(|o| (o.head.seq, o.head.flags));
    assert_eq!(rt; heads.next(), Some((0xffff_ff01, ACK)));
    assert_eq!(rt; heads.next(), Some((0xffff_ff65, ACK)));
    assert_eq!(rt; heads.next(), Some((0xffff_ffc9, PSH + ACK)));
    assert_eq!(rt; heads.next(), Some((5, FIN + ACK)));
    assert_eq!(rt; heads.next(), None);
    assert_eq!(rt; tcb.nxt, 6);
}

#[test]
fn twice_and_then_dead(rt: HostRuntime) {
    let mut tcb = talking(State::Established, 300, 1000);
    tcb.nxt = 45;
    tcb.accepted = true;
    tcb.deadline = Some(10);
    let first = expire(&CFG, &mut tcb, 10);
    assert_eq!(rt; first.entries.len(), 1);
    assert_eq!(rt; tcb.deadline, Some(410));
    assert_eq!(rt; tcb.ssthresh, 200);
    tcb.deadline = Some(410);
    let second = expire(&CFG, &mut tcb, 410);
    assert_eq!(rt; second.ended, false);
    assert_eq!(rt; tcb.deadline, Some(1210));
    tcb.deadline = Some(1210);
    let third = expire(&CFG, &mut tcb, 1210);
    assert_eq!(rt; third.told, Some(Told::DeadTimeout));
    assert!(rt; third.ended && tcb.state == State::Closed);
}
