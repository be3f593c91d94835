// How a connection opens.
ghost use Rattle.std.specs.Prelude.{◌≡◌, OnOk};
ghost use Rattle.ix_tcpdef.specs.Connection.{on};
ghost use Rattle.ix_tcpdef.specs.Opening.{
  connected,
  send_mss as send_mss_of,
  opens as opens_test,
  opening as opening_part,
  connecting as connecting_part,
  syn_sent as syn_sent_part,
};

use crate::congestion::initial_window;
use crate::connection::{end, give};
use crate::frames::{reset_frame, syn_ack_frame, syn_frame};
use crate::numbers::later;
use crate::types::{Cfg, Job, Output, State, Told};
use ix_base::{ACK, NoMemory, RST, SYN, SegHead, SeqNumber, has_flag};
use std::alloc::Global;

/// The largest body in octets of a segment to a peer that has no option (RFC 9293, section 3.7.1).
pub const DEFAULT_MSS: u16 = 536;

const LEAST_MSS: u16 = 64;

/// The slow start threshold in octets before any loss (RFC 5681, section 3.1).
pub const FIRST_THRESHOLD: u32 = 65_535;

/// The largest body in octets that is sent to a peer with this option, or without one (RFC 9293, section 3.7.1).
pub fn send_mss(cfg: &Cfg, option: Option<u16>) -> u16
    ensures { result ≡ send_mss_of cfg.now option }
{
    match option {
        Some(mss) => mss.min(cfg.mss).max(LEAST_MSS),
        None => DEFAULT_MSS.min(cfg.mss).max(LEAST_MSS),
    }
}

/// Whether a segment opens a connection.
pub fn opens(head: &SegHead) -> bool
    ensures { result ≡ opens_test head.now }
{
    !has_flag(head.flags, RST) && !has_flag(head.flags, ACK) && has_flag(head.flags, SYN)
}

/// A segment before the opening.
#[tactic(auto, unfolding(crate::specs::Opening::opening))]
pub fn opening(
    alloc: Global,
    cfg: &Cfg,
    head: &SegHead,
    now: u64,
    job: &mut Job,
) -> Result<(), NoMemory>
    ensures { OnOk result (job.new ≡ opening_part cfg.now head.now now job.old) }
{
    if !opens(head) {
        return Ok(());
    }
    let w = &mut job.connection;
    w.state = State::SynReceived;
    w.irs = head.seq;
    w.mss = send_mss(cfg, head.mss);
    w.una = 0;
    w.nxt = 1;
    w.rcv = 1;
    w.wnd = u32::from(head.window);
    w.wl1 = head.seq;
    w.wl2 = w.iss;
    w.cwnd = initial_window(w.mss);
    w.ssthresh = FIRST_THRESHOLD;
    w.deadline = Some(later(now, cfg.rto));
    let frame = syn_ack_frame(alloc, cfg, &job.connection);
    give(job, frame)
}

/// The call that opens a connection.
#[tactic(auto, unfolding(crate::specs::Opening::connecting))]
pub fn connecting(alloc: Global, cfg: &Cfg, now: u64, job: &mut Job) -> Result<(), NoMemory>
    ensures { OnOk result (job.new ≡ connecting_part cfg.now now job.old) }
{
    let w = &mut job.connection;
    w.state = State::SynSent;
    w.mss = send_mss(cfg, None);
    w.una = 0;
    w.nxt = 1;
    w.wnd = 0;
    w.wl1 = 0;
    w.wl2 = 0;
    w.cwnd = 0;
    w.ssthresh = FIRST_THRESHOLD;
    w.deadline = Some(later(now, cfg.rto));
    let frame = syn_frame(alloc, cfg, &job.connection);
    give(job, frame)
}

/// A segment in SYN-SENT.
#[tactic(auto, unfolding(crate::specs::Opening::syn_sent))]
pub fn syn_sent(alloc: Global, cfg: &Cfg, head: &SegHead, job: &mut Job) -> Result<(), NoMemory>
    ensures { OnOk result (job.new ≡ syn_sent_part cfg.now head.now job.old) }
{
    let has_ack = has_flag(head.flags, ACK);
    let has_reset = has_flag(head.flags, RST);
    if has_ack && SeqNumber(head.ack) != SeqNumber(job.connection.iss).at(1) {
        if has_reset {
            return Ok(());
        }
        let frame = reset_frame(alloc, &job.connection, head);
        return give(job, frame);
    }
    if has_reset {
        if !has_ack {
            return Ok(());
        }
        end(alloc, &mut job.connection);
        return give(job, Output::Told(Told::ConnectedRefused));
    }
    if !(has_flag(head.flags, SYN) && has_ack) {
        return Ok(());
    }
    connect(cfg, head, job);
    give(job, Output::Told(Told::ConnectedUp))
}

/// Takes the peer's SYN-ACK.
fn connect(cfg: &Cfg, head: &SegHead, job: &mut Job)
    ensures { job.new ≡ on job.old (connected cfg.now head.now job.old.connection) }
{
    let w = &mut job.connection;
    w.state = State::Established;
    w.irs = head.seq;
    w.mss = send_mss(cfg, head.mss);
    w.una = 1;
    w.rcv = 1;
    w.wnd = u32::from(head.window);
    w.wl1 = head.seq;
    w.wl2 = head.ack;
    w.cwnd = if w.expiries > 0 {
        u32::from(w.mss)
    } else {
        initial_window(w.mss)
    };
    w.deadline = None;
    w.expiries = 0;
    w.ack_owed = true;
    w.accepted = true;
}
