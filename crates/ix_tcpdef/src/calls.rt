// Calls of the application.
ghost use Rattle.std.specs.Prelude.{◌≡◌, ◌≤◌, ◌+◌, ◌-◌, ◌++◌, map, IfOk, OnOk, length};
ghost use Rattle.ix_tcpdef.specs.Calls.{
  is_live as live_test,
  returns as returns_part,
  as_told,
  recv_of,
  kept_end,
  accept as accept_part,
  is_open as open_test,
  sendv as sendv_part,
  recv_done as recv_done_part,
  persists as persists_test,
  shut_down as shut_down_part,
  close as close_part,
  answered as answered_part,
  called as called_part,
};
ghost use Rattle.ix_tcpdef.specs.Needs.{AreParts};
ghost use Rattle.ix_tcpdef.specs.Connection.{is_listen as listen_test};

use crate::acknowledgement::unpersist;
use crate::connection::{give, rcv_wnd, room};
use crate::opening::connecting;
use crate::types::{Ask, Cfg, Connection, Job, Output, Outputs, Piece, State, Told};
use ix_base::{List, NoMemory, Ret};
use std::alloc::Global;
use std::mem;

/// Whether a handle of this connection is live.
pub fn is_live(w: &Connection) -> bool
    ensures { result ≡ live_test w.now }
{
    (w.knocked || w.accepted) && !w.shut && !matches!(w.state, State::Closed)
}

fn give_back(job: &mut Job, answer: Ret) -> Result<(), NoMemory>
    ensures { OnOk result (job.new ≡ returns_part job.old answer) }
{
    give(job, Output::Ret(answer))
}

/// Tells of parts that came before the connection was accepted.
fn tell_pieces(pieces: &[Piece], outputs: &mut Outputs) -> Result<(), NoMemory>
    requires { AreParts pieces.now }
    ensures { OnOk result (outputs.new ≡ outputs.old ++ map recv_of pieces.now) }
{
    for piece in pieces {
        outputs.push(Output::Told(Told::Recv {
            w: piece.w,
            from: piece.from,
            len: piece.bytes.len() as u16,
        }))?;
    }
    Ok(())
}

/// Marks parts as told.
fn mark_told(alloc: Global, pieces: List<Piece>) -> Result<List<Piece>, NoMemory>
    ensures { IfOk result (λ told. told ≡ map as_told pieces) }
{
    let mut told = List::new(alloc);
    for piece in pieces.into_vec() {
        told.push(Piece {
            told: true,
            ..piece
        })?;
    }
    Ok(told)
}

#[tactic(auto, unfolding(crate::specs::Calls::accept))]
pub fn accept(alloc: Global, job: &mut Job) -> Result<(), NoMemory>
    requires { AreParts job.old.connection.pieces }
    ensures { OnOk result (job.new ≡ accept_part job.old) }
{
    if job.connection.accepted {
        return give_back(job, Ret::NotKnocked);
    }
    give_back(job, Ret::Done(0))?;
    tell_pieces(job.connection.pieces.as_slice(), &mut job.outputs)?;
    let pieces = mem::replace(&mut job.connection.pieces, List::new(alloc));
    job.connection.pieces = mark_told(alloc, pieces)?;
    job.connection.accepted = true;
    if matches!(job.connection.state, State::CloseWait) {
        give(job, Output::Told(Told::RecvEnd))?;
    }
    Ok(())
}

/// Whether bytes can be given to be sent.
pub fn is_open(state: State) -> bool
    ensures { result ≡ open_test state }
{
    matches!(state, State::Established | State::CloseWait)
}

#[tactic(auto, unfolding(crate::specs::Calls::sendv))]
pub fn sendv(bytes: &[u8], job: &mut Job) -> Result<(), NoMemory>
    ensures { OnOk result (job.new ≡ sendv_part bytes.now job.old) }
{
    let w = &mut job.connection;
    if !(w.accepted && is_open(w.state)) {
        return give_back(job, Ret::NotOpen);
    }
    let room = room(w);
    let n = (room as usize).min(bytes.len());
    w.sent.extend_from_slice(&bytes[..n])?;
    w.wants = w.wants || n < bytes.len();
    give_back(job, Ret::Done(n as u32))
}

#[tactic(auto, unfolding(crate::specs::Calls::recv_done))]
pub fn recv_done(cfg: &Cfg, n: u32, job: &mut Job) -> Result<(), NoMemory>
    ensures { OnOk result (job.new ≡ recv_done_part cfg.now n job.old) }
{
    let w = &mut job.connection;
    if !w.accepted {
        return give_back(job, Ret::NotOpen);
    }
    if w.unread < n {
        return give_back(job, Ret::TooMuch);
    }
    let was_closed = rcv_wnd(cfg, w) == 0;
    w.unread -= n;
    w.ack_owed = w.ack_owed || was_closed && n > 0;
    give_back(job, Ret::Done(n))
}

/// Whether the persist timer stands.
pub fn persists(w: &Connection) -> bool
    ensures { result ≡ persists_test w.now }
{
    w.una == w.nxt && w.deadline.is_some() && !w.state.is_time_wait()
}

fn shut_down(alloc: Global, w: &mut Connection)
    ensures { w.new ≡ shut_down_part w.old }
{
    match w.state {
        State::Established => w.state = State::FinWait1,
        State::CloseWait => w.state = State::LastAck,
        _ => {}
    }
    w.fin_wanted = true;
    w.wants = false;
    w.unread = 0;
    w.held = List::new(alloc);
    w.shut = true;
}

#[tactic(auto, unfolding(crate::specs::Calls::close))]
pub fn close(alloc: Global, job: &mut Job) -> Result<(), NoMemory>
    ensures { OnOk result (job.new ≡ close_part job.old) }
{
    let persists = persists(&job.connection);
    shut_down(alloc, &mut job.connection);
    if persists {
        unpersist(&mut job.connection);
    }
    give_back(job, Ret::Done(0))
}

/// A call on a live handle.
#[tactic(auto, unfolding(crate::specs::Calls::answered))]
pub fn answer(alloc: Global, cfg: &Cfg, ask: &Ask, job: &mut Job) -> Result<(), NoMemory>
    requires { AreParts job.old.connection.pieces }
    ensures { OnOk result (job.new ≡ answered_part cfg.now ask.now job.old) }
{
    match ask {
        Ask::Connect => Ok(()),
        Ask::Accept => accept(alloc, job),
        Ask::Sendv { bytes } => sendv(bytes.as_slice(), job),
        Ask::RecvDone { bytes } => recv_done(cfg, *bytes, job),
        Ask::Close => close(alloc, job),
    }
}

fn is_listen(state: State) -> bool
    ensures { result ≡ listen_test state }
{
    matches!(state, State::Listen)
}

/// A call.
#[tactic(auto, unfolding(crate::specs::Calls::called))]
pub fn call(alloc: Global, cfg: &Cfg, ask: &Ask, now: u64, job: &mut Job) -> Result<(), NoMemory>
    requires { AreParts job.old.connection.pieces }
    ensures { OnOk result (job.new ≡ called_part cfg.now ask.now now job.old) }
{
    if matches!(ask, Ask::Connect) {
        if is_listen(job.connection.state) {
            return connecting(alloc, cfg, now, job);
        }
        return Ok(());
    }
    if !is_live(&job.connection) {
        return give_back(job, Ret::BadHandle);
    }
    answer(alloc, cfg, ask, job)
}
