// Calls on a handle, but for bytes that are given to be sent.
ghost use Rattle.std.specs.Prelude.{◌≡◌, ℕ};
ghost use Rattle.ix_tcpdef.specs.Step.{step};
ghost use Rattle.ix_tcpdef.specs.Stands.{send_queue, StandsFor};
ghost use Rattle.ix_tcpdef.specs.declared.types.Ask.TheVariants as asks;
ghost use Rattle.ix_tcpdef.specs.declared.types.Cfg.{Cfg as ACfg};
ghost use Rattle.ix_tcpdef.specs.declared.types.Connection.{Connection};
ghost use Rattle.ix_tcpdef.specs.declared.types.Input.TheVariants as inputs;
ghost use Rattle.ix_tcpdef.specs.Calls.{is_live as is_live_of, closed_state as closed_state_of};
ghost use Rattle.ix_tcpcall.specs.Given.{Gives, returned, told_with, pieces_with, held_with};
ghost use Rattle.ix_tcpcall.specs.Parts.{
  answer,
  has_handle,
  on_handle,
  accept_part,
  recv_done_part,
  shut_numbers,
  persists_at,
  without_persist,
  close_part,
};
ghost use Rattle.std.specs.Prelude.{◌++◌};

use arrayvec::ArrayVec;
use ix_base::Ret;
use ix_tcpdef::{Cfg, State, Tcb, numbers_stand_on, offered_window};

/// Whether the handle of the connection that the numbers stand for is live: the application was told of it, did not close it, and the
/// connection has not ended.
pub fn is_live(tcb: &Tcb) -> bool
    ensures test { result ≡ has_handle tcb.now }
    ensures live { (cfg : ACfg) (w : Connection) → StandsFor cfg tcb.now w → result ≡ is_live_of w }
{
    (tcb.knocked || tcb.accepted) && !tcb.shut && !matches!(tcb.state, State::Closed)
}

#[tactic(auto, unfolding(crate::specs::Parts::accept_part))]
fn accept_live(tcb: &mut Tcb) -> Ret
    ensures { answer tcb.new result ≡ accept_part tcb.old }
{
    if tcb.accepted {
        return Ret::NotKnocked;
    }
    tcb.accepted = true;
    Ret::Done(0)
}

#[tactic(auto, unfolding(crate::specs::Parts::on_handle))]
fn accept_numbers(tcb: &mut Tcb) -> Ret
    ensures { answer tcb.new result ≡ on_handle accept_part tcb.old }
{
    if !is_live(tcb) {
        return Ret::BadHandle;
    }
    accept_live(tcb)
}

/// The application takes up a connection that has knocked. Of every connection that the numbers stand for, they stand for it after its step.
/// Where it is done, the parts that came are told behind the return, and then the end of the stream where that came in CLOSE-WAIT.
pub fn accept(tcb: &mut Tcb) -> Ret
    ensures numbers { answer tcb.new result ≡ on_handle accept_part tcb.old }
    ensures stands { (cfg : ACfg) (w : Connection) (now : ℕ) → StandsFor cfg tcb.old w → StandsFor cfg tcb.new (step cfg w (inputs.Call asks.Accept) now).connection }
    ensures gives { (cfg : ACfg) (w : Connection) (now : ℕ) → StandsFor cfg tcb.old w → Gives (returned result ++ told_with result w) (send_queue w) (pieces_with result w.pieces) w.held (step cfg w (inputs.Call asks.Accept) now) }
{
    numbers_stand_on(); // the law by which they stand for the next connection
    accept_numbers(tcb)
}

#[tactic(auto, unfolding(crate::specs::Parts::recv_done_part))]
fn recv_done_live(cfg: &Cfg, n: u32, tcb: &mut Tcb) -> Ret
    ensures { answer tcb.new result ≡ recv_done_part cfg.now n tcb.old }
{
    if !tcb.accepted {
        return Ret::NotOpen;
    }
    if tcb.unread < n {
        return Ret::TooMuch;
    }
    let was_closed = offered_window(cfg, tcb.unread) == 0;
    tcb.unread -= n;
    tcb.ack_owed = tcb.ack_owed || was_closed && n > 0;
    Ret::Done(n)
}

#[tactic(auto, unfolding(crate::specs::Parts::on_handle))]
fn recv_done_numbers(cfg: &Cfg, n: u32, tcb: &mut Tcb) -> Ret
    ensures { answer tcb.new result ≡ on_handle (recv_done_part cfg.now n) tcb.old }
{
    if !is_live(tcb) {
        return Ret::BadHandle;
    }
    recv_done_live(cfg, n, tcb)
}

/// The application gives back room for so many bytes that were told. Of every connection that the numbers stand for, they stand for it after
/// its step.
pub fn recv_done(cfg: &Cfg, n: u32, tcb: &mut Tcb) -> Ret
    ensures numbers { answer tcb.new result ≡ on_handle (recv_done_part cfg.now n) tcb.old }
    ensures stands { (w : Connection) (now : ℕ) → StandsFor cfg.now tcb.old w → StandsFor cfg.now tcb.new (step cfg.now w (inputs.Call (asks.RecvDone n)) now).connection }
    ensures gives { (w : Connection) (now : ℕ) → StandsFor cfg.now tcb.old w → Gives (returned result) (send_queue w) w.pieces w.held (step cfg.now w (inputs.Call (asks.RecvDone n)) now) }
{
    numbers_stand_on(); // the law by which they stand for the next connection
    recv_done_numbers(cfg, n, tcb)
}

fn closed_state(state: State) -> State
    ensures { result ≡ closed_state_of state }
{
    match state {
        State::Established => State::FinWait1,
        State::CloseWait => State::LastAck,
        other => other,
    }
}

fn shut_down(tcb: &mut Tcb)
    ensures { tcb.new ≡ shut_numbers tcb.old }
{
    tcb.state = closed_state(tcb.state);
    tcb.fin_wanted = true;
    tcb.wants = false;
    tcb.unread = 0;
    tcb.held = ArrayVec::new();
    tcb.shut = true;
}

fn persists(tcb: &Tcb) -> bool
    ensures { result ≡ persists_at tcb.now }
{
    tcb.una == tcb.nxt && tcb.deadline.is_some() && !tcb.state.is_time_wait()
}

fn clear_persist(tcb: &mut Tcb)
    ensures { tcb.new ≡ without_persist tcb.old }
{
    tcb.expiries = 0;
    if tcb.state.is_time_wait() {
        return;
    }
    tcb.deadline = None;
}

#[tactic(auto, unfolding(crate::specs::Parts::close_part))]
fn close_live(tcb: &mut Tcb) -> Ret
    ensures { answer tcb.new result ≡ close_part tcb.old }
{
    let persists = persists(tcb);
    shut_down(tcb);
    if !persists {
        return Ret::Done(0);
    }
    clear_persist(tcb);
    Ret::Done(0)
}

#[tactic(auto, unfolding(crate::specs::Parts::on_handle))]
fn close_numbers(tcb: &mut Tcb) -> Ret
    ensures { answer tcb.new result ≡ on_handle close_part tcb.old }
{
    if !is_live(tcb) {
        return Ret::BadHandle;
    }
    close_live(tcb)
}

/// The application ends its stream, and reads no more. Of every connection that the numbers stand for, they stand for it after its step.
/// Where it is done, what was held is held no more.
pub fn close(tcb: &mut Tcb) -> Ret
    ensures numbers { answer tcb.new result ≡ on_handle close_part tcb.old }
    ensures stands { (cfg : ACfg) (w : Connection) (now : ℕ) → StandsFor cfg tcb.old w → StandsFor cfg tcb.new (step cfg w (inputs.Call asks.Close) now).connection }
    ensures gives { (cfg : ACfg) (w : Connection) (now : ℕ) → StandsFor cfg tcb.old w → Gives (returned result) (send_queue w) w.pieces (held_with result w.held) (step cfg w (inputs.Call asks.Close) now) }
{
    numbers_stand_on(); // the law by which they stand for the next connection
    close_numbers(tcb)
}
