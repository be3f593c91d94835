// A connection that the application asks for.
ghost use Rattle.std.specs.Prelude.{◌≡◌, ℕ};
ghost use Rattle.ix_tcpdef.specs.Step.{step};
ghost use Rattle.ix_tcpdef.specs.Stands.{send_queue, StandsFor};
ghost use Rattle.ix_tcpdef.specs.declared.types.Ask.TheVariants as asks;
ghost use Rattle.ix_tcpdef.specs.declared.types.Connection.{Connection};
ghost use Rattle.ix_tcpdef.specs.declared.types.Input.TheVariants as inputs;
ghost use Rattle.ix_tcpcall.specs.Given.{Gives, sent_head};
ghost use Rattle.ix_tcpcall.specs.Parts.{active_numbers, syn_head as syn_head_of, opened, connect_part};

use ix_base::{SYN, SegHead, SeqNumber};
use ix_tcpdef::{
    BEHIND_SYN, Cfg, FIRST_THRESHOLD, State, Tcb, later, numbers_stand_on, offered_window, send_mss,
};

/// The SYN of an active opening.
fn syn_head(cfg: &Cfg, tcb: &Tcb) -> SegHead
    ensures { result ≡ syn_head_of cfg.now tcb.now }
{
    SegHead {
        flow: tcb.flow,
        peer_mac: tcb.peer_mac,
        seq: SeqNumber(tcb.iss).at(0).0,
        ack: 0,
        flags: SYN,
        window: offered_window(cfg, tcb.unread),
        mss: Some(cfg.mss),
        len: 0,
        at: BEHIND_SYN,
    }
}

fn open(cfg: &Cfg, now: u64, tcb: &mut Tcb)
    ensures { tcb.new ≡ active_numbers cfg.now now tcb.old }
{
    tcb.state = State::SynSent;
    tcb.mss = send_mss(cfg, None);
    tcb.una = SeqNumber(tcb.iss).at(0).0;
    tcb.nxt = SeqNumber(tcb.iss).at(1).0;
    tcb.wnd = 0;
    tcb.wl1 = 0;
    tcb.wl2 = 0;
    tcb.cwnd = 0;
    tcb.ssthresh = FIRST_THRESHOLD;
    tcb.deadline = Some(later(now, cfg.rto));
}

#[tactic(auto, unfolding(crate::specs::Parts::connect_part))]
fn connect_numbers(cfg: &Cfg, now: u64, tcb: &mut Tcb) -> Option<SegHead>
    ensures { opened tcb.new result ≡ connect_part cfg.now now tcb.old }
{
    if !matches!(tcb.state, State::Listen) {
        return None;
    }
    let head = syn_head(cfg, tcb);
    open(cfg, now, tcb);
    Some(head)
}

/// The application opens a connection: in LISTEN, which is the state before an opening, the answer is the head of the SYN that is sent, and
/// in a later state nothing happens. Of every connection that the numbers stand for, they stand for it after its step.
pub fn connect(cfg: &Cfg, now: u64, tcb: &mut Tcb) -> Option<SegHead>
    ensures numbers { opened tcb.new result ≡ connect_part cfg.now now tcb.old }
    ensures stands { (w : Connection) → StandsFor cfg.now tcb.old w → StandsFor cfg.now tcb.new (step cfg.now w (inputs.Call asks.Connect) now).connection }
    ensures gives { (w : Connection) → StandsFor cfg.now tcb.old w → Gives (sent_head result) (send_queue w) w.pieces w.held (step cfg.now w (inputs.Call asks.Connect) now) }
{
    numbers_stand_on(); // the law by which they stand for the next connection
    connect_numbers(cfg, now, tcb)
}
