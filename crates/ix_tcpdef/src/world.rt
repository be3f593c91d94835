// A connection that callers see whole, and its plain step.
ghost use Rattle.std.specs.Prelude.{◌≡◌, ◌+◌, ◌<◌, ◌≤◌, IfOk, OnSome, IsNone, ◌↔◌, length, slice_get, map};

use crate::copy::copy;
use crate::opening::{DEFAULT_MSS, FIRST_THRESHOLD};
use crate::step::make_step;
use crate::types::{Cfg, Connection, Input, Job, Left, Outputs, State};
use ix_base::{Bytes, Flow, List, NoMemory, WireNo};
use std::alloc::Global;
use std::marker::Model;

/// One connection with whole byte lists. Contracts see these, and each one is orderly. It is sound: SND.UNA is at most SND.NXT, which stands
/// behind no more than all bytes that were given, the SYN and the FIN; what is held waits behind a hole, in order. And it opened in order:
/// before its opening nothing was given to be sent, and in SYN-RECEIVED the SYN alone was sent and is not acknowledged.
#[derive(Drop)]
pub struct World1 {
    connection: Connection,
}

impl Model for World1 {
    ghost use Rattle.ix_tcpdef.specs.declared.types.Connection.{Connection as AConnection};
    ghost use Rattle.ix_tcpdef.specs.Sound.{IsOrderly};

    ghost Value = { AConnection };

    ghost view = { λ a. a.connection };

    ghost invariant = { λ a. IsOrderly a.connection };
}

impl World1 {
    ghost use Rattle.ix_tcpdef.specs.Step.{listening};
    ghost use Rattle.ix_tcpdef.specs.World.{left_of, held_number};
    ghost use Rattle.ix_tcpdef.specs.Sound.{IsSound, HasOpened};

    /// A connection before its opening, by a SYN of its peer or by a call.
    pub fn listen(alloc: Global, flow: Flow, peer_mac: [u8; 6], iss: u32) -> World1
        ensures { result ≡ listening flow peer_mac iss }
    {
        World1 {
            connection: Connection {
                flow,
                peer_mac,
                state: State::Listen,
                iss,
                irs: 0,
                mss: DEFAULT_MSS,
                sent: Bytes::new(alloc),
                una: 0,
                nxt: 0,
                rcv: 0,
                wnd: 0,
                wl1: 0,
                wl2: 0,
                pieces: List::new(alloc),
                held: List::new(alloc),
                unread: 0,
                deadline: None,
                expiries: 0,
                cwnd: 0,
                ssthresh: FIRST_THRESHOLD,
                dups: 0,
                recovering: false,
                resend: false,
                fin_wanted: false,
                fin_sent: false,
                wants: false,
                ack_owed: false,
                knocked: false,
                accepted: false,
                shut: false,
            },
        }
    }

    /// All of it, to be looked at.
    pub fn connection(&self) -> &Connection
        ensures { result.now ≡ self.now }
    {
        &self.connection
    }

    /// State, positions and windows of congestion control.
    pub fn left(&self) -> Left
        ensures value { result ≡ left_of self.now }
        ensures order { result.una ≤ result.nxt }
        ensures within { result.nxt ≤ length self.now.sent + 2 }
        ensures sound { IsSound self.now }
        ensures opened { HasOpened self.now }
    {
        let w = &self.connection;
        Left {
            state: w.state,
            una: w.una,
            nxt: w.nxt,
            rcv: w.rcv,
            cwnd: w.cwnd,
            ssthresh: w.ssthresh,
        }
    }

    /// All bytes that calls ever gave it to send.
    pub fn sent(&self) -> &[u8]
        ensures { result.now ≡ self.now.sent }
    {
        self.connection.sent.as_slice()
    }

    /// When its timer expires.
    pub fn deadline(&self) -> Option<u64>
        ensures { result ≡ self.now.deadline }
    {
        self.connection.deadline
    }

    /// The wire number of the i-th held segment in order of position.
    pub fn held(&self, i: usize) -> Option<WireNo>
        ensures value { result ≡ held_number self.now i }
        ensures none { IsNone result ↔ (length self.now.held ≤ i) }
    {
        match self.connection.held.get(i) {
            Some(segment) => Some(segment.w),
            None => None,
        }
    }
}

ghost use Rattle.ix_tcpdef.specs.Sound.{IsSound, HasOpened, IsStanding, IsInRange, IsWritten};
ghost use Rattle.ix_tcpdef.specs.Step.{step};
ghost use Rattle.ix_tcpdef.specs.Laws.{SendsFairly};

/// One step of a connection: the connection after an input at this tick, and what it gave, in order.
///
/// It runs in time linear in everything that the connection ever sent and received. Where it answers, it answers what the definition
/// says; it finds no memory also where a position would pass 2^63, which takes more bytes than there are.
#[tactic(auto, unfolding(crate::specs::Step::step))]
pub fn step_plain(
    alloc: Global,
    cfg: &Cfg,
    world: &World1,
    input: &Input,
    now: u64,
) -> Result<(World1, Outputs), NoMemory>
    requires cfg { IsInRange cfg.now }
    requires standing { IsStanding cfg.now world.now }
    requires written { IsWritten input.now }
    ensures connection { IfOk result (λ r. r.0 ≡ (step cfg.now world.now input.now now).connection) }
    ensures outputs { IfOk result (λ r. r.1 ≡ (step cfg.now world.now input.now now).outputs) }
    ensures sound { IfOk result (λ r. IsSound r.0) }
    ensures opened { IfOk result (λ r. HasOpened r.0) }
    ensures standing { IfOk result (λ r. IsStanding cfg.now r.0) }
    ensures frames { IfOk result (λ r. SendsFairly world.now r.0 r.1) }
{
    let mut job = Job {
        connection: copy(alloc, &world.connection)?,
        outputs: List::new(alloc),
    };
    make_step(alloc, cfg, input, now, &mut job)?;
    let Job {
        connection,
        outputs,
    } = job;
    Ok((World1 { connection }, outputs))
}
