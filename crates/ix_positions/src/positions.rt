// Where a connection stands in its two streams.
ghost use Rattle.std.specs.Prelude.{◌≡◌, ◌<◌, ◌≤◌, ◌+◌, ◌^◌, ℕ, IfOk, IsOk, List as Sequence, if◌then◌else◌};
ghost use Rattle.ix_base.specs.declared.id.Flow.{Flow};
ghost use Rattle.ix_base.specs.Sequence.{ahead};
ghost use Rattle.ix_tcpdef.specs.Sound.{IsWritten, HasWindow};
ghost use Rattle.ix_tcpdef.specs.Stands.{tcb_of, StandsFor};
ghost use Rattle.ix_tcpdef.specs.Step.{listening, step};
ghost use Rattle.ix_tcpdef.specs.World.{left_of};
ghost use Rattle.ix_tcpdef.specs.declared.types.Cfg.{Cfg};
ghost use Rattle.ix_tcpdef.specs.declared.types.Connection.{Connection};
ghost use Rattle.ix_tcpdef.specs.declared.types.Input.{Input};

use ix_base::{NoMemory, SeqNumber};
use ix_tcpdef::{Left, State, Tcb, positions_go_onward};

/// Positions, counted from the initial sequence numbers, which are position 0: SND.UNA, SND.NXT and RCV.NXT.
#[derive(Clone, Copy, Debug, PartialEq, Eq)]
pub struct Positions {
    pub una: u64,
    pub nxt: u64,
    pub rcv: u64,
}

// The position of a number, where this position is that of the number before it.
fn counted_on(position: u64, old: u32, new: u32) -> Result<u64, NoMemory>
    ensures value { IfOk result (λ p. p ≡ position + ahead old new) }
    ensures fits { position < 2 ^ 63 → IsOk result }
{
    let ahead = SeqNumber(old).ahead(SeqNumber(new));
    position.checked_add(u64::from(ahead)).ok_or(NoMemory)
}

impl Positions {
    ghost use Rattle.ix_positions.specs.Positions.{positions_of, is_established, opened_in, further};

    /// Those of a connection before its opening.
    pub fn unopened() -> Positions
        ensures { (flow : Flow) (peer_mac : Sequence ℕ) (iss : ℕ) → result ≡ positions_of (listening flow peer_mac iss) }
    {
        Positions {
            una: 0,
            nxt: 0,
            rcv: 0,
        }
    }

    fn opened(self, state: State) -> Positions
        ensures { result ≡ opened_in state self }
    {
        match state {
            State::SynReceived => Positions {
                una: 0,
                nxt: 1,
                rcv: 1,
            },
            State::SynSent => Positions {
                una: 0,
                nxt: 1,
                rcv: self.rcv,
            },
            _ => self,
        }
    }

    // The position that a peer's stream has in this state, where its SYN was not taken before.
    fn answered(self, state: State) -> u64
        ensures { result ≡ (if is_established state then 1 else self.rcv) }
    {
        if matches!(state, State::Established) {
            return 1;
        }
        self.rcv
    }

    fn counted(self, old: &Tcb, new: &Tcb, rcv: u64) -> Result<Positions, NoMemory>
        ensures value { IfOk result (λ p. p ≡ record { una = self.una + ahead old.now.una new.now.una; nxt = self.nxt + ahead old.now.nxt new.now.nxt; rcv = rcv }) }
        ensures fits { self.una < 2 ^ 63 → self.nxt < 2 ^ 63 → IsOk result }
    {
        let una = counted_on(self.una, old.una, new.una)?;
        let nxt = counted_on(self.nxt, old.nxt, new.nxt)?;
        Ok(Positions { una, nxt, rcv })
    }

    fn numbered(self, old: &Tcb, new: &Tcb) -> Result<Positions, NoMemory>
        ensures value { IfOk result (λ p. p ≡ further old.now new.now self) }
        ensures fits { self.una < 2 ^ 63 → self.nxt < 2 ^ 63 → self.rcv < 2 ^ 63 → IsOk result }
    {
        match old.state {
            State::Listen => Ok(self.opened(new.state)),
            State::SynSent => self.counted(old, new, self.answered(new.state)),
            _ => {
                let rcv = counted_on(self.rcv, old.rcv_nxt, new.rcv_nxt)?;
                self.counted(old, new, rcv)
            }
        }
    }

    /// The positions after a step, where these are those before it and the step took the first numbers to the second: of every connection that
    /// the first numbers stand for, under a configuration with a window of 16 bits. Want of memory is answered only where a position would
    /// pass 2^63.
    pub fn after(self, old: &Tcb, new: &Tcb) -> Result<Positions, NoMemory>
        ensures value { (cfg : Cfg) (w : Connection) (input : Input) (now : ℕ) → cfg.window < 2 ^ 16 → IsWritten input → HasWindow input → StandsFor cfg old.now w → self ≡ positions_of w → new.now ≡ tcb_of (step cfg w input now).connection → IfOk result (λ p. p ≡ positions_of (step cfg w input now).connection) }
        ensures fits { self.una < 2 ^ 63 → self.nxt < 2 ^ 63 → self.rcv < 2 ^ 63 → IsOk result }
    {
        positions_go_onward(); // the laws by which a number tells how far its position went
        self.numbered(old, new)
    }

    /// How a connection was left that stands at these positions and has these numbers.
    pub fn left(self, tcb: &Tcb) -> Left
        ensures { (cfg : Cfg) (w : Connection) → StandsFor cfg tcb.now w → self ≡ positions_of w → result ≡ left_of w }
    {
        Left {
            state: tcb.state,
            una: self.una,
            nxt: self.nxt,
            rcv: self.rcv,
            cwnd: tcb.cwnd,
            ssthresh: tcb.ssthresh,
        }
    }
}
