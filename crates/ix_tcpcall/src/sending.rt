// Bytes that are given to be sent.
ghost use Rattle.std.specs.Prelude.{◌≡◌, ◌≤◌, ◌<◌, ◌+◌, ◌^◌, ◌++◌, ℕ, List as Sequence, length, take};
ghost use Rattle.ix_tcpdef.specs.Step.{step};
ghost use Rattle.ix_tcpdef.specs.Stands.{send_queue, StandsFor};
ghost use Rattle.ix_tcpdef.specs.Calls.{is_open as is_open_of};
ghost use Rattle.ix_tcpdef.specs.declared.types.Ask.TheVariants as asks;
ghost use Rattle.ix_tcpdef.specs.declared.types.Cfg.{Cfg as ACfg};
ghost use Rattle.ix_tcpdef.specs.declared.types.Connection.{Connection};
ghost use Rattle.ix_tcpdef.specs.declared.types.Input.TheVariants as inputs;
ghost use Rattle.ix_tcpcall.specs.Given.{Gives, returned, bytes_done};
ghost use Rattle.ix_tcpcall.specs.Parts.{answer, on_handle, queue_room as queue_room_of, sendv_part};

use crate::calls::is_live;
use ix_base::Ret;
use ix_tcpdef::{State, Tcb, numbers_stand_on};

/// Whether bytes can be given in this state.
fn is_open(state: State) -> bool
    ensures { result ≡ is_open_of state }
{
    matches!(state, State::Established | State::CloseWait)
}

/// How many more bytes the send queue takes.
fn queue_room(tcb: &Tcb) -> u32
    ensures room { result ≡ queue_room_of tcb.now }
    ensures fits { tcb.now.queued + result < 2 ^ 32 }
{
    let (wnd, queued) = (tcb.wnd, tcb.queued);
    wnd.saturating_sub(queued)
}

#[tactic(auto, unfolding(crate::specs::Parts::sendv_part))]
fn sendv_live(total: usize, tcb: &mut Tcb) -> Ret
    ensures { answer tcb.new result ≡ sendv_part total tcb.old }
{
    if !(tcb.accepted && is_open(tcb.state)) {
        return Ret::NotOpen;
    }
    let room = queue_room(tcb);
    let n = total.min(room as usize);
    tcb.queued += n as u32;
    tcb.wants = tcb.wants || n < total;
    Ret::Done(n as u32)
}

#[tactic(auto, unfolding(crate::specs::Parts::on_handle))]
fn sendv_numbers(total: usize, tcb: &mut Tcb) -> Ret
    ensures { answer tcb.new result ≡ on_handle (sendv_part total) tcb.old }
{
    if !is_live(tcb) {
        return Ret::BadHandle;
    }
    sendv_live(total, tcb)
}

/// The application gives so many bytes to be sent. Of every connection that the numbers stand for, and of all bytes of this number, they stand
/// for it after its step: as many of the first of them as the answer counts have joined the send queue.
pub fn sendv(total: usize, tcb: &mut Tcb) -> Ret
    ensures numbers { answer tcb.new result ≡ on_handle (sendv_part total) tcb.old }
    ensures within { bytes_done result ≤ total }
    ensures stands { (cfg : ACfg) (w : Connection) (bytes : Sequence ℕ) (now : ℕ) → length bytes ≡ total → StandsFor cfg tcb.old w → StandsFor cfg tcb.new (step cfg w (inputs.Call (asks.Sendv bytes)) now).connection }
    ensures gives { (cfg : ACfg) (w : Connection) (bytes : Sequence ℕ) (now : ℕ) → length bytes ≡ total → StandsFor cfg tcb.old w → Gives (returned result) (send_queue w ++ take (bytes_done result) bytes) w.pieces w.held (step cfg w (inputs.Call (asks.Sendv bytes)) now) }
{
    numbers_stand_on(); // the law by which they stand for the next connection
    sendv_numbers(total, tcb)
}
