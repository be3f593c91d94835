// What the parts of an arrival have in common.
ghost use Rattle.std.specs.Prelude.{◌≡◌, ◌≤◌, ◌+◌};
ghost use Rattle.arrayvec.specs.ArrayVec.{array_vec_len};
ghost use Rattle.ix_tcpin.specs.Work.{work, announces, tells, ends, closed as closed_of};

use crate::verdict::{Verdict, drop_kept};
use arrayvec::ArrayVec;
use ix_tcpdef::{State, Tcb, Told};

/// Puts an event behind the others.
pub fn announce(told: Told, tcb: &Tcb, verdict: &mut Verdict)
    requires { array_vec_len verdict.old.told ≤ 3 }
    ensures few { array_vec_len verdict.new.told ≤ array_vec_len verdict.old.told + 1 }
    ensures step { work tcb.now verdict.new ≡ announces (work tcb.now verdict.old) told }
{
    verdict.told.push(told);
}

/// Tells an event, where the connection is accepted and not closed by the application.
pub fn tell(told: Told, tcb: &Tcb, verdict: &mut Verdict)
    requires { array_vec_len verdict.old.told ≤ 3 }
    ensures few { array_vec_len verdict.new.told ≤ array_vec_len verdict.old.told + 1 }
    ensures step { work tcb.now verdict.new ≡ tells (work tcb.now verdict.old) told }
{
    if tcb.accepted && !tcb.shut {
        announce(told, tcb, verdict);
    }
}

fn close(tcb: &mut Tcb)
    ensures { tcb.new ≡ closed_of tcb.old }
{
    tcb.state = State::Closed;
    tcb.deadline = None;
    tcb.held = ArrayVec::new();
}

/// The connection ends.
pub fn end(tcb: &mut Tcb, verdict: &mut Verdict)
    ensures told { verdict.new.told ≡ verdict.old.told }
    ensures step { work tcb.new verdict.new ≡ ends (work tcb.old verdict.old) }
{
    close(tcb);
    verdict.held = drop_kept(&verdict.held);
    verdict.ended = true;
}
