// Words of one connection, and what a step under way does to it.
ghost use Rattle.std.specs.Prelude.{◌≡◌, ◌≤◌, ◌+◌, ◌-◌, ◌^◌, ◌-ℤ◌, ◌≤ℤ◌, ◌<ℤ◌, pos, OnOk, IfOk};
ghost use Rattle.ix_tcpdef.specs.Connection.{
  snd_una as snd_una_of,
  snd_nxt as snd_nxt_of,
  rcv_nxt as rcv_nxt_of,
  seq_of as seq_in,
  offered_window as offered_of,
  rcv_wnd as rcv_wnd_of,
  acked_data as acked_of,
  room as room_of,
  loss_threshold as threshold_of,
  gives as gives_part,
  tells as tells_part,
  ended as ended_part,
};

use crate::congestion::threshold_after_loss;
use crate::types::{Cfg, Connection, Job, Output, State, Told};
use ix_base::{List, NoMemory, SegHead, SeqNumber};
use std::alloc::Global;

/// The sequence number of SND.UNA.
pub fn snd_una(w: &Connection) -> SeqNumber
    ensures { result.0 ≡ snd_una_of w.now }
{
    SeqNumber(w.iss).at(w.una)
}

/// The sequence number of SND.NXT.
pub fn snd_nxt(w: &Connection) -> SeqNumber
    ensures { result.0 ≡ snd_nxt_of w.now }
{
    SeqNumber(w.iss).at(w.nxt)
}

/// The sequence number of RCV.NXT.
pub fn rcv_nxt(w: &Connection) -> SeqNumber
    ensures { result.0 ≡ rcv_nxt_of w.now }
{
    SeqNumber(w.irs).at(w.rcv)
}

/// How far a segment begins past what is expected.
pub fn seq_of(w: &Connection, head: &SegHead) -> i64
    ensures value { result ≡ seq_in w.now head.now }
    ensures low { (pos 0 -ℤ pos (2 ^ 31)) ≤ℤ result }
    ensures high { result <ℤ pos (2 ^ 31) }
{
    rcv_nxt(w).offset(SeqNumber(head.seq))
}

/// The window in bytes that is offered to the peer where so many bytes are unread.
pub fn offered_window(cfg: &Cfg, unread: u32) -> u16
    ensures { result ≡ offered_of cfg.now unread }
{
    u32::from(cfg.window).saturating_sub(unread) as u16
}

/// The window that is offered to the peer.
pub fn rcv_wnd(cfg: &Cfg, w: &Connection) -> u16
    ensures { result ≡ rcv_wnd_of cfg.now w.now }
{
    offered_window(cfg, w.unread)
}

/// How many bytes of the stream are acknowledged.
pub fn acked_data(w: &Connection) -> u64
    ensures { result ≡ acked_of w.now }
{
    w.una.saturating_sub(1).min(w.sent.len() as u64)
}

/// How many more bytes the send queue takes.
pub fn room(w: &Connection) -> u32
    ensures { result ≡ room_of w.now }
{
    let wnd = w.wnd;
    let queued = w.sent.len() as u64 - acked_data(w);
    u64::from(wnd).saturating_sub(queued) as u32
}

/// The slow start threshold after a loss.
pub fn loss_threshold(w: &Connection) -> u32
    requires { w.now.nxt ≤ w.now.una + 65536 }
    ensures { result ≡ threshold_of w.now }
{
    let flight = w.nxt.saturating_sub(w.una) as u32;
    threshold_after_loss(flight, w.mss)
}

/// Gives an output.
pub fn give(job: &mut Job, output: Output) -> Result<(), NoMemory>
    ensures { OnOk result (job.new ≡ gives_part job.old output) }
{
    job.outputs.push(output)?;
    Ok(())
}

/// Tells an event, where the connection is accepted and not closed by the application.
pub fn tell(job: &mut Job, told: Told) -> Result<(), NoMemory>
    ensures { OnOk result (job.new ≡ tells_part job.old told) }
{
    if job.connection.accepted && !job.connection.shut {
        job.outputs.push(Output::Told(told))?;
    }
    Ok(())
}

/// The connection ends.
pub fn end(alloc: Global, w: &mut Connection)
    ensures { w.new ≡ ended_part w.old }
{
    w.state = State::Closed;
    w.deadline = None;
    w.held = List::new(alloc);
}
