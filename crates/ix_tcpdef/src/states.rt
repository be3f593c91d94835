// Which states do what.
ghost use Rattle.std.specs.Prelude.{◌≡◌};
ghost use Rattle.ix_tcpdef.specs.Body.{takes_body as takes_body_test};
ghost use Rattle.ix_tcpdef.specs.Connection.{is_syn_received as syn_received_test, is_time_wait as time_wait_test};
ghost use Rattle.ix_tcpdef.specs.Flush.{resends as resends_test, sends as sends_test};
ghost use Rattle.ix_tcpdef.specs.Step.{is_alive as alive_test};

use crate::types::State;

impl State {
    /// Whether a connection was opened and has not ended. Others send nothing on their own.
    pub fn is_alive(self) -> bool
        ensures { result ≡ alive_test self }
    {
        !matches!(self, State::Listen | State::Closed)
    }

    /// Whether it is SYN-RECEIVED.
    pub fn is_syn_received(self) -> bool
        ensures { result ≡ syn_received_test self }
    {
        matches!(self, State::SynReceived)
    }

    /// Whether it is TIME-WAIT.
    pub fn is_time_wait(self) -> bool
        ensures { result ≡ time_wait_test self }
    {
        matches!(self, State::TimeWait)
    }

    /// Whether the body of a segment is taken (RFC 9293, section 3.10.7.4, seventh check).
    pub fn takes_body(self) -> bool
        ensures { result ≡ takes_body_test self }
    {
        matches!(self, State::Established | State::FinWait1 | State::FinWait2)
    }

    /// Whether data and a FIN are sent for the first time.
    pub fn sends(self) -> bool
        ensures { result ≡ sends_test self }
    {
        matches!(
            self,
            State::Established | State::CloseWait | State::FinWait1 | State::LastAck
        )
    }

    /// Whether what was sent is sent again where fast retransmit asks for it.
    pub fn resends(self) -> bool
        ensures { result ≡ resends_test self }
    {
        matches!(
            self,
            State::Established
                | State::CloseWait
                | State::FinWait1
                | State::Closing
                | State::LastAck
        )
    }
}
