// A connection that a peer talks to, and its numbers.
ghost use Rattle.std.specs.Prelude.{◌≡◌, ◌≤◌, IfOk, OnOk};
ghost use Rattle.ix_tcpdef.specs.Sound.{IsInRange, IsStanding, IsWritten};

use crate::draw::Draw;
use crate::given::{Part, Waiting, are_given, are_parts, given_by, parts_of, place_of};
use crate::twins::{FLOW, ISS, MAC, Peer, Twins, fits, text};
use ix_base::{ACK, Bytes, FIN, List, NoMemory, PSH, RST, Ret, SYN, Seg, SegHead, WireNo};
use ix_tcpdef::{Ask, Cfg, Input, Output, Outputs, State, Tcb};
use ix_tcpin::{HeldUse, Take, Verdict, arrive};
use std::alloc::Global;

/// The peer's initial number: its stream passes 2^32 soon.
const PEER_START: u32 = 0xffff_ffa0;

/// What a meeting came to: the states that the connection was in, a bit for each, and the first moment at which both differ.
#[derive(Clone, Copy, Debug, PartialEq, Eq)]
pub struct Met {
    pub seen: u16,
    pub apart: Option<u32>,
}

/// Every state.
pub const ALL_STATES: u16 = 0x07ff;

fn bit_of(state: State) -> u16 {
    match state {
        State::Listen => 0x001,
        State::SynSent => 0x002,
        State::SynReceived => 0x004,
        State::Established => 0x008,
        State::FinWait1 => 0x010,
        State::FinWait2 => 0x020,
        State::CloseWait => 0x040,
        State::Closing => 0x080,
        State::LastAck => 0x100,
        State::TimeWait => 0x200,
        State::Closed => 0x400,
    }
}

/// What a connection is before a segment: what it holds, how many pieces it was delivered, whether it was accepted, and whether it has
/// ended.
#[derive(Drop)]
struct Before {
    held: List<Waiting>,
    pieces: usize,
    accepted: bool,
    closed: bool,
}

// ## What the peer says
fn drawn_seq(tcb: &Tcb, draw: &mut Draw) -> u32 {
    if matches!(tcb.state, State::Listen | State::SynSent) {
        return PEER_START;
    }
    match draw.next() % 8 {
        0 => tcb.rcv_nxt.wrapping_add(draw.next() % 300),
        1 => tcb.rcv_nxt.wrapping_add(draw.next() % 60),
        2 => tcb.rcv_nxt.wrapping_sub(draw.next() % 120),
        _ => tcb.rcv_nxt,
    }
}

fn drawn_ack(tcb: &Tcb, draw: &mut Draw) -> u32 {
    match draw.next() % 8 {
        0 | 1 => tcb.una,
        2 => tcb.una.wrapping_add(draw.next() % 200),
        3 => tcb.una.wrapping_sub(draw.next() % 10),
        _ => tcb.nxt,
    }
}

fn drawn_flags(tcb: &Tcb, draw: &mut Draw) -> u8 {
    let drawn = draw.next() % 128;
    match tcb.state {
        State::Listen if drawn > 8 => SYN,
        State::SynSent if drawn > 8 => SYN + ACK,
        _ => match drawn {
            0 => RST,
            1 => SYN,
            2 => 0,
            3 => RST + ACK,
            4..=12 => FIN + ACK,
            13..=30 => PSH + ACK,
            _ => ACK,
        },
    }
}

fn drawn_window(peer: Peer, draw: &mut Draw) -> u16 {
    match draw.next() % 8 {
        0 => 0,
        1 => (draw.next() % 65_536) as u16,
        _ => peer.window,
    }
}

fn drawn_len(draw: &mut Draw) -> u16
    ensures { result ≤ 1000 }
{
    match draw.next() % 2 {
        0 => 0,
        _ => (draw.next() % 120) as u16,
    }
}

fn drawn_head(tcb: &Tcb, peer: Peer, w: WireNo, draw: &mut Draw) -> SegHead
    ensures len { result.len ≤ 1000 }
    ensures place { result.at ≤ 1000 }
{
    SegHead {
        flow: FLOW,
        peer_mac: MAC,
        seq: drawn_seq(tcb, draw),
        ack: drawn_ack(tcb, draw),
        flags: drawn_flags(tcb, draw),
        window: drawn_window(peer, draw),
        mss: Some(peer.mss),
        len: drawn_len(draw),
        at: place_of(w),
    }
}

fn segment(alloc: Global, w: WireNo, head: SegHead) -> Result<Input, NoMemory>
    requires len { head.len ≤ 1000 }
    requires place { head.at ≤ 1000 }
    ensures { IfOk result IsWritten }
{
    let body = Bytes::from_slice(alloc, &text()[..usize::from(head.len)])?;
    Ok(Input::Segment {
        w,
        seg: Seg { head, body },
    })
}

/// Whether a call was done.
fn is_done(outputs: &Outputs) -> bool {
    matches!(outputs.get(0), Some(Output::Ret(Ret::Done(_))))
}

impl Twins {
    /// What is held.
    fn waiting(&self, alloc: Global) -> Result<List<Waiting>, NoMemory> {
        let mut held = List::new(alloc);
        for (place, head) in self.tcb.held.as_slice().iter().enumerate() {
            if let Some(w) = self.world.held(place) {
                held.push(Waiting { w, len: head.len })?;
            }
        }
        Ok(held)
    }

    /// Whether what is held now is what a verdict keeps of what was held, with the new segment at some place.
    fn keeps(&self, verdict: &Verdict, before: &List<Waiting>, w: WireNo) -> bool {
        let holds = matches!(verdict.take, Take::Hold { .. });
        let mut place: usize = 0;
        for (old, held_use) in verdict.held.as_slice().iter().enumerate() {
            if !matches!(held_use, HeldUse::Keep) {
                continue;
            }
            if holds && self.world.held(place) == Some(w) {
                place = place.wrapping_add(1);
            }
            match before.get(old) {
                Some(waiting) if self.world.held(place) == Some(waiting.w) => {}
                _ => return false,
            }
            place = place.wrapping_add(1);
        }
        if holds && self.world.held(place) == Some(w) {
            place = place.wrapping_add(1);
        }
        place == self.tcb.held.len() && self.world.held(place).is_none()
    }

    /// Whether the pieces behind so many are these parts.
    fn has_parts(&self, before: usize, parts: &List<Part>) -> bool {
        are_parts(&self.world.connection().pieces, before, parts, &text())
    }

    /// What the connection is before a segment.
    fn look(&self, alloc: Global) -> Result<Before, NoMemory> {
        Ok(Before {
            held: self.waiting(alloc)?,
            pieces: self.world.connection().pieces.len(),
            accepted: self.tcb.accepted,
            closed: self.tcb.state == State::Closed,
        })
    }

    /// Whether the connection gave, was delivered and keeps what a verdict on the segment with this wire number says, and the numbers are
    /// those of it.
    fn follows(
        &self,
        alloc: Global,
        before: &Before,
        w: WireNo,
        outputs: &Outputs,
        verdict: &Verdict,
    ) -> Result<bool, NoMemory> {
        let parts = parts_of(alloc, verdict, w, &before.held)?;
        let given = given_by(alloc, verdict, &parts, before.accepted)?;
        let ended = !before.closed && self.tcb.state == State::Closed;
        Ok(
            are_given(outputs, &given)
                && self.has_parts(before.pieces, &parts)
                && self.keeps(verdict, &before.held, w)
                && verdict.ended == ended
                && self.agree(),
        )
    }

    /// A segment of the peer arrives at both.
    fn meet(&mut self, alloc: Global, cfg: &Cfg, w: WireNo, head: SegHead) -> Result<bool, NoMemory>
        requires cfg { IsInRange cfg.now }
        requires standing { IsStanding cfg.now self.old.world }
        requires len { head.len ≤ 1000 }
        requires place { head.at ≤ 1000 }
        ensures { OnOk result (IsStanding cfg.now self.new.world) }
    {
        let before = self.look(alloc)?;
        let outputs = self.take(alloc, cfg, &segment(alloc, w, head)?)?;
        if !fits(&self.tcb) {
            return Ok(false);
        }
        let verdict = arrive(cfg, &mut self.tcb, &head, self.now);
        let same = self.follows(alloc, &before, w, &outputs, &verdict)?;
        Ok(same)
    }

    // ## Calls, which the numbers follow
    fn connect(&mut self, alloc: Global, cfg: &Cfg) -> Result<bool, NoMemory>
        requires cfg { IsInRange cfg.now }
        requires standing { IsStanding cfg.now self.old.world }
        ensures { OnOk result (IsStanding cfg.now self.new.world) }
    {
        self.take(alloc, cfg, &Input::Call(Ask::Connect))?;
        self.tcb.state = State::SynSent;
        self.tcb.mss = cfg.mss.min(536).max(64);
        self.tcb.nxt = ISS.wrapping_add(1);
        self.tcb.deadline = Some(self.now.saturating_add(u64::from(cfg.rto)));
        Ok(self.agree())
    }

    fn accept(&mut self, alloc: Global, cfg: &Cfg) -> Result<bool, NoMemory>
        requires cfg { IsInRange cfg.now }
        requires standing { IsStanding cfg.now self.old.world }
        ensures { OnOk result (IsStanding cfg.now self.new.world) }
    {
        let outputs = self.take(alloc, cfg, &Input::Call(Ask::Accept))?;
        self.tcb.accepted = self.tcb.accepted || is_done(&outputs);
        Ok(self.agree())
    }

    fn receive_done(&mut self, alloc: Global, cfg: &Cfg, bytes: u32) -> Result<bool, NoMemory>
        requires cfg { IsInRange cfg.now }
        requires standing { IsStanding cfg.now self.old.world }
        ensures { OnOk result (IsStanding cfg.now self.new.world) }
    {
        let outputs = self.take(alloc, cfg, &Input::Call(Ask::RecvDone { bytes }))?;
        if is_done(&outputs) {
            let is_full = self.tcb.unread >= u32::from(cfg.window);
            self.tcb.ack_owed = self.tcb.ack_owed || is_full && bytes > 0;
            self.tcb.unread = self.tcb.unread.wrapping_sub(bytes);
        }
        Ok(self.agree())
    }

    fn close(&mut self, alloc: Global, cfg: &Cfg) -> Result<bool, NoMemory>
        requires cfg { IsInRange cfg.now }
        requires standing { IsStanding cfg.now self.old.world }
        ensures { OnOk result (IsStanding cfg.now self.new.world) }
    {
        let outputs = self.take(alloc, cfg, &Input::Call(Ask::Close))?;
        if is_done(&outputs) {
            self.shut();
        }
        Ok(self.agree())
    }

    /// The numbers of a connection that the application closes.
    fn shut(&mut self)
        ensures { self.new.world ≡ self.old.world }
    {
        let tcb = &mut self.tcb;
        let persists = tcb.una == tcb.nxt && tcb.deadline.is_some();
        if persists && tcb.state != State::TimeWait {
            tcb.expiries = 0;
            tcb.deadline = None;
        }
        match tcb.state {
            State::Established => tcb.state = State::FinWait1,
            State::CloseWait => tcb.state = State::LastAck,
            _ => {}
        }
        tcb.fin_wanted = true;
        tcb.wants = false;
        tcb.unread = 0;
        tcb.held.clear();
        tcb.shut = true;
    }

    /// One drawn moment.
    fn moment(
        &mut self,
        alloc: Global,
        cfg: &Cfg,
        peer: Peer,
        w: WireNo,
        draw: &mut Draw,
    ) -> Result<bool, NoMemory>
        requires cfg { IsInRange cfg.now }
        requires standing { IsStanding cfg.now self.old.world }
        ensures { OnOk result (IsStanding cfg.now self.new.world) }
    {
        let unread = self.tcb.unread;
        match draw.next() % 32 {
            0 | 1 => self.send(alloc, cfg, draw.next() as usize % 400),
            2 => self.expire(alloc, cfg),
            3 => self.receive_done(alloc, cfg, unread),
            4 => self.receive_done(alloc, cfg, unread / 2),
            5 => self.close(alloc, cfg),
            6..=8 => self.accept(alloc, cfg),
            9..=12 => self.flush(alloc, cfg),
            _ => {
                let head = drawn_head(&self.tcb, peer, w, draw);
                self.meet(alloc, cfg, w, head)
            }
        }
    }
}

/// A connection, opened by this peer or towards it, takes drawn segments, calls, cycles and expiries.
pub fn side_by_side(
    alloc: Global,
    cfg: &Cfg,
    peer: Peer,
    seed: u32,
    moments: u32,
    active: bool,
) -> Result<Met, NoMemory>
    requires { IsInRange cfg.now }
{
    let mut draw = Draw(seed);
    let mut twins = Twins::unopened(alloc, cfg);
    let mut seen = 0;
    if active {
        twins.connect(alloc, cfg)?;
    }
    for moment in 0..moments {
        seen |= bit_of(twins.tcb.state);
        if !twins.moment(alloc, cfg, peer, WireNo(moment), &mut draw)? {
            let apart = Some(moment);
            return Ok(Met { seen, apart });
        }
    }
    Ok(Met { seen, apart: None })
}
