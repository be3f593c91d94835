// A connection that talks, and its numbers.
ghost use Rattle.std.specs.Prelude.{◌≡◌, ◌≤◌, true, IfOk, OnOk};
ghost use Rattle.ix_tcpdef.specs.Flush.{is_due as due_test};
ghost use Rattle.ix_tcpdef.specs.Sound.{FitsPeer, IsInRange, IsStanding, IsWritten, has_windows as windows_test};

use crate::draw::Draw;
use ix_base::{ACK, Bytes, Flow, NoMemory, Ret, SYN, Seg, SegHead, WireNo};
use ix_tcpdef::{
    Ask, BEHIND_HEADER, Cfg, Connection, HeldHead, HeldSegment, Input, Output, Outputs, State, Tcb,
    World1, step_plain, unopened,
};
use ix_tcpout::{OutSeg, Outs, expire, flush};
use std::alloc::Global;

pub(crate) const FLOW: Flow = Flow {
    remote: 0x0a00_0001,
    local: 0x0a00_0002,
    remote_port: 4000,
    local_port: 80,
};

pub(crate) const MAC: [u8; 6] = [2, 0, 0, 0, 0, 1];

pub(crate) const ISS: u32 = 0xffff_fe00;

const IRS: u32 = 0x8000_0000;

/// What both sides say, each time from its beginning on. A byte differs from those near it.
pub(crate) fn text() -> [u8; 1024] {
    let mut text = [0; 1024];
    for (place, byte) in text.iter_mut().enumerate() {
        *byte = (place % 251) as u8;
    }
    text
}

/// The peer's window and its maximum segment size.
#[derive(Clone, Copy)]
pub struct Peer {
    pub window: u16,
    pub mss: u16,
}

/// A connection, its numbers, and the clock.
#[derive(Drop)]
pub(crate) struct Twins {
    pub(crate) world: World1,
    pub(crate) tcb: Tcb,
    pub(crate) now: u64,
}

/// A segment of the peer without a body.
fn segment(alloc: Global, peer: Peer, seq: u32, ack: u32, flags: u8) -> Input
    ensures { IsWritten result }
{
    Input::Segment {
        w: WireNo(0),
        seg: Seg {
            head: SegHead {
                flow: FLOW,
                peer_mac: MAC,
                seq,
                ack,
                flags,
                window: peer.window,
                mss: Some(peer.mss),
                len: 0,
                at: BEHIND_HEADER,
            },
            body: Bytes::new(alloc),
        },
    }
}

/// The numbers behind a passive handshake with this peer (RFC 9293, section 3.10.7.4; RFC 5681, section 3.1).
fn numbers(cfg: &Cfg, peer: Peer) -> Tcb {
    let mss = peer.mss.min(cfg.mss).max(64);
    let mut tcb = unopened(FLOW, MAC, ISS);
    tcb.state = State::Established;
    tcb.irs = IRS;
    tcb.una = ISS.wrapping_add(1);
    tcb.nxt = ISS.wrapping_add(1);
    tcb.rcv_nxt = IRS.wrapping_add(1);
    tcb.wnd = u32::from(peer.window);
    tcb.wl1 = IRS.wrapping_add(1);
    tcb.wl2 = ISS.wrapping_add(1);
    tcb.mss = mss;
    tcb.cwnd = if mss > 1095 {
        u32::from(mss) * 3
    } else {
        u32::from(mss) * 4
    };
    tcb.knocked = true;
    tcb.accepted = true;
    tcb
}

/// Whether both windows of congestion control are known.
fn has_windows(state: State) -> bool
    ensures { result ≡ windows_test state }
{
    !matches!(state, State::Listen | State::SynSent | State::Closed)
}

pub(crate) fn fits(tcb: &Tcb) -> bool
    ensures { result ≡ true → FitsPeer tcb.now.state tcb.now.mss tcb.now.wnd tcb.now.cwnd tcb.now.ssthresh }
{
    if tcb.mss < 64 || tcb.mss > 1460 || tcb.wnd > 65535 {
        return false;
    }
    !has_windows(tcb.state) || tcb.cwnd > 0 && tcb.ssthresh > 0
}

fn is_due(deadline: Option<u64>, now: u64) -> bool
    ensures { result ≡ due_test deadline now }
{
    match deadline {
        Some(at) => at <= now,
        None => false,
    }
}

/// Whether a body is the range of the send queue that a segment is to carry, byte for byte.
fn is_range(connection: &Connection, entry: &OutSeg, body: &[u8]) -> bool {
    if entry.from == entry.to {
        return body.is_empty();
    }
    let queue = connection.una.saturating_sub(1) as usize;
    let from = queue.wrapping_add(entry.from as usize);
    let to = queue.wrapping_add(entry.to as usize);
    match connection.sent.as_slice().get(from..to) {
        Some(bytes) => bytes == body,
        None => false,
    }
}

/// Whether an output of the plain step is what the call on numbers gave in its place.
fn is_same(output: &Output, place: usize, outs: &Outs, connection: &Connection) -> bool {
    match output {
        Output::Frame(seg) => match outs.entries.get(place) {
            Some(entry) => {
                seg.head == entry.head && is_range(connection, entry, seg.body.as_slice())
            }
            None => false,
        },
        Output::Told(told) => outs.told == Some(*told),
        Output::Ret(_) => false,
    }
}

fn are_same(outputs: &Outputs, outs: &Outs, connection: &Connection) -> bool {
    for (place, output) in outputs.as_slice().iter().enumerate() {
        if !is_same(output, place, outs, connection) {
            return false;
        }
    }
    let told = if outs.told.is_some() { 1 } else { 0 };
    outputs.len() == outs.entries.len().wrapping_add(told)
}

fn number(start: u32, position: u64) -> u32 {
    start.wrapping_add((position % 0x1_0000_0000) as u32)
}

/// How many bytes of the send queue are not acknowledged.
fn queued(w: &Connection) -> usize {
    w.sent
        .len()
        .saturating_sub(w.una.saturating_sub(1) as usize)
}

fn same_ends(w: &Connection, t: &Tcb) -> bool {
    w.flow == t.flow && w.peer_mac == t.peer_mac && w.state == t.state && w.mss == t.mss
}

fn same_positions(w: &Connection, t: &Tcb) -> bool {
    w.iss == t.iss
        && w.irs == t.irs
        && number(w.iss, w.una) == t.una
        && number(w.iss, w.nxt) == t.nxt
        && number(w.irs, w.rcv) == t.rcv_nxt
        && queued(w) == t.queued as usize
}

fn same_windows(w: &Connection, t: &Tcb) -> bool {
    w.wnd == t.wnd
        && w.wl1 == t.wl1
        && w.wl2 == t.wl2
        && w.unread == t.unread
        && w.cwnd == t.cwnd
        && w.ssthresh == t.ssthresh
}

fn same_losses(w: &Connection, t: &Tcb) -> bool {
    w.deadline == t.deadline
        && w.expiries == t.expiries
        && w.dups == t.dups
        && w.recovering == t.recovering
        && w.resend == t.resend
}

fn same_marks(w: &Connection, t: &Tcb) -> bool {
    w.fin_wanted == t.fin_wanted
        && w.fin_sent == t.fin_sent
        && w.wants == t.wants
        && w.ack_owed == t.ack_owed
        && w.knocked == t.knocked
        && w.accepted == t.accepted
        && w.shut == t.shut
}

fn is_held(segment: &HeldSegment, head: HeldHead, irs: u32) -> bool {
    number(irs, segment.at) == head.at
        && segment.bytes.len() == usize::from(head.len)
        && segment.fin == head.fin
}

fn same_held(w: &Connection, t: &Tcb) -> bool {
    for (place, head) in t.held.as_slice().iter().enumerate() {
        match w.held.get(place) {
            Some(segment) if is_held(segment, *head, w.irs) => {}
            _ => return false,
        }
    }
    w.held.len() == t.held.len()
}

impl Twins {
    fn begin(alloc: Global, cfg: &Cfg, peer: Peer) -> Twins
        ensures { IsStanding cfg.now result.world }
    {
        Twins {
            world: World1::listen(alloc, FLOW, MAC, ISS),
            tcb: numbers(cfg, peer),
            now: 0,
        }
    }

    /// A connection before its opening.
    pub(crate) fn unopened(alloc: Global, cfg: &Cfg) -> Twins
        ensures { IsStanding cfg.now result.world }
    {
        Twins {
            world: World1::listen(alloc, FLOW, MAC, ISS),
            tcb: unopened(FLOW, MAC, ISS),
            now: 0,
        }
    }

    /// Lets the connection alone take an input.
    pub(crate) fn take(
        &mut self,
        alloc: Global,
        cfg: &Cfg,
        input: &Input,
    ) -> Result<Outputs, NoMemory>
        requires cfg { IsInRange cfg.now }
        requires standing { IsStanding cfg.now self.old.world }
        requires written { IsWritten input.now }
        ensures { OnOk result (IsStanding cfg.now self.new.world) }
    {
        let (world, outputs) = step_plain(alloc, cfg, &self.world, input, self.now)?;
        self.world = world;
        Ok(outputs)
    }

    /// The handshake, and its acceptance.
    fn shake_hands(&mut self, alloc: Global, cfg: &Cfg, peer: Peer) -> Result<(), NoMemory>
        requires cfg { IsInRange cfg.now }
        requires standing { IsStanding cfg.now self.old.world }
        ensures { OnOk result (IsStanding cfg.now self.new.world) }
    {
        self.take(alloc, cfg, &segment(alloc, peer, IRS, 0, SYN))?;
        let ack = segment(alloc, peer, IRS.wrapping_add(1), ISS.wrapping_add(1), ACK);
        self.take(alloc, cfg, &ack)?;
        self.take(alloc, cfg, &Input::Call(Ask::Accept))?;
        Ok(())
    }

    /// Whether the numbers are those of the connection, every one.
    pub(crate) fn agree(&self) -> bool {
        let (w, t) = (self.world.connection(), &self.tcb);
        same_ends(w, t)
            && same_positions(w, t)
            && same_windows(w, t)
            && same_losses(w, t)
            && same_marks(w, t)
            && same_held(w, t)
    }

    pub(crate) fn flush(&mut self, alloc: Global, cfg: &Cfg) -> Result<bool, NoMemory>
        requires cfg { IsInRange cfg.now }
        requires standing { IsStanding cfg.now self.old.world }
        ensures { OnOk result (IsStanding cfg.now self.new.world) }
    {
        let outputs = self.take(alloc, cfg, &Input::Flush)?;
        if !fits(&self.tcb) {
            return Ok(false);
        }
        let outs = flush(cfg, &mut self.tcb, self.now);
        Ok(are_same(&outputs, &outs, self.world.connection()) && self.agree())
    }

    /// The time goes on to the deadline, which expires.
    pub(crate) fn expire(&mut self, alloc: Global, cfg: &Cfg) -> Result<bool, NoMemory>
        requires cfg { IsInRange cfg.now }
        requires standing { IsStanding cfg.now self.old.world }
        ensures { OnOk result (IsStanding cfg.now self.new.world) }
    {
        let Some(at) = self.tcb.deadline else {
            return Ok(true);
        };
        self.now = self.now.max(at);
        let outputs = self.take(alloc, cfg, &Input::Timer)?;
        if !is_due(self.tcb.deadline, self.now) {
            return Ok(false);
        }
        let outs = expire(cfg, &mut self.tcb, self.now);
        Ok(are_same(&outputs, &outs, self.world.connection()) && self.agree())
    }

    pub(crate) fn send(&mut self, alloc: Global, cfg: &Cfg, n: usize) -> Result<bool, NoMemory>
        requires cfg { IsInRange cfg.now }
        requires standing { IsStanding cfg.now self.old.world }
        ensures { OnOk result (IsStanding cfg.now self.new.world) }
    {
        let text = text();
        let n = n.min(text.len());
        let bytes = Bytes::from_slice(alloc, &text[..n])?;
        let outputs = self.take(alloc, cfg, &Input::Call(Ask::Sendv { bytes }))?;
        if let Some(Output::Ret(Ret::Done(taken))) = outputs.get(0) {
            self.tcb.queued = self.tcb.queued.wrapping_add(*taken);
            self.tcb.wants = self.tcb.wants || (*taken as usize) < n;
        }
        Ok(self.agree())
    }
}

/// A passive connection with this peer, which says nothing more, sends and waits at drawn moments. Answers the first moment at which what
/// the calls on numbers give differs from what the plain step gives, and None where there is none.
pub fn first_apart(
    alloc: Global,
    cfg: &Cfg,
    peer: Peer,
    seed: u32,
    moments: u32,
) -> Result<Option<u32>, NoMemory>
    requires { IsInRange cfg.now }
{
    let mut draw = Draw(seed);
    let mut twins = Twins::begin(alloc, cfg, peer);
    twins.shake_hands(alloc, cfg, peer)?;
    for moment in 0..moments {
        let same = match draw.next() % 4 {
            0 => twins.send(alloc, cfg, draw.next() as usize % 1024)?,
            1 => twins.expire(alloc, cfg)?,
            _ => twins.flush(alloc, cfg)?,
        };
        if !same {
            return Ok(Some(moment));
        }
    }
    Ok(None)
}
