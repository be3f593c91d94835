// One flow group.
ghost use Rattle.std.specs.Prelude.{◌≡◌, ℕ, ◌++◌, [], ◌∷◌, ◌<◌, ◌≤◌, ◌&&◌, List as Sequence, length, map, max, false, true, Some, None, IfOk, OnOk};
ghost use Rattle.std.specs.List.{All, list_any, position};
ghost use Rattle.ix_tcpdef.specs.Sound.{IsInRange, IsWritten};
ghost use Rattle.ix_tcpdef.specs.declared.types.Input.TheVariants as inputs;
ghost use Rattle.ix_groupdef.specs.Env.{setting_of};
ghost use Rattle.ix_groupdef.specs.Setting.{drawn, passive_iss};
ghost use Rattle.ix_groupdef.specs.Life.{hears, given};
ghost use Rattle.ix_groupdef.specs.Group.{OnePerFlow, closed, opened, dialled, has_room, stray_of, strayed, take_segment, take_frame, take_frames, end_cycle, run_cycle, run_cycles, run, turn_of, last_number, connect, connect_all, flow_of_connect, answer_to_connect, empty, Cycle, Frames, Time, Connect};
ghost use Rattle.ix_groupdef.specs.Record.{conn_end, record_of};
ghost use Rattle.ix_groupdef.specs.Setting.{mac_of};
ghost use Rattle.ix_groupdef.specs.Strays.{asks_to_open};

use crate::calls::{close, wrote};
use crate::env::Env;
use crate::life::PlainLife;
use crate::reading::{Reading, read};
use crate::strays::{asks_to_open, reply_to_segment, segment_kind};
use crate::types::{ConnEnd, GroupRecord, LIMIT, Stray, Taken, Turn};
use ix_appdef::Application;
use ix_base::{Bytes, CoreId, Disposition, Flow, List, NoMemory, Ret, Seg, SegHead, WireNo};
use ix_hash::flow_hash;
use ix_tcpdef::{Ask, Input};
use std::alloc::Global;
use std::marker::Model;

/// One flow group with all its connections, ended ones too, in opening order, and its strays. After want of memory it stands for nothing
/// any more: give it up.
#[derive(Drop)]
pub struct PlainGroup {
    clock: u64,
    lives: Vec<PlainLife>,
    strays: List<Stray>,
}

impl Model for PlainGroup {
    ghost use Rattle.ix_groupdef.specs.Group.{Group};

    ghost Value = { Group };

    ghost view = { λ p. record { clock = p.clock; lives = p.lives.items; strays = p.strays } };
}

// The place of the connection that hears a flow.
fn find(flow: &Flow, lives: &[PlainLife]) -> Option<usize>
    ensures { result ≡ position (hears flow.now) lives.now }
{
    lives.iter().position(|life| life.hears(flow))
}

fn is_heard(flow: &Flow, lives: &[PlainLife]) -> bool
    ensures { result ≡ list_any (hears flow.now) lives.now }
{
    lives.iter().any(|life| life.hears(flow))
}

fn has_room(lives: &[PlainLife]) -> bool
    ensures { result ≡ has_room lives.now }
{
    lives.iter().filter(|life| life.lives()).count() < LIMIT
}

fn opens(env: &Env<Application>, head: &SegHead, lives: &[PlainLife]) -> bool
    ensures { result ≡ (asks_to_open (setting_of env.now) head.now && has_room lives.now) }
{
    asks_to_open(env, head) && has_room(lives)
}

// An initial sequence number of this machine's own.
#[tactic(auto, unfolding(crate::specs::Setting::drawn))]
fn drawn(flow: &Flow, clock: u64) -> u32
    ensures { result ≡ drawn flow.now clock }
{
    let ticks = clock % 4_294_967_296;
    ((flow_hash(flow) as u64 + 64000 * ticks) % 4_294_967_296) as u32
}

// The initial sequence number of a connection that a peer opens.
fn passive_iss(env: &Env<Application>, flow: &Flow, clock: u64) -> u32
    ensures { result ≡ passive_iss (setting_of env.now) flow.now clock }
{
    match env.isns.get(flow) {
        Some(isn) => isn,
        None => drawn(flow, clock),
    }
}

/// The connection that a segment opens.
#[tactic(auto, unfolding(crate::specs::Group::opened))]
pub fn opened(
    alloc: Global,
    env: &Env<Application>,
    turn: Turn,
    w: WireNo,
    seg: Seg,
) -> Result<PlainLife, NoMemory>
    requires range { IsInRange env.now.cfg }
    requires written { IsWritten (inputs.Segment w seg) }
    ensures { IfOk result (λ l. l ≡ opened (setting_of env.now) turn w seg) }
{
    let flow = seg.head.flow;
    let iss = passive_iss(env, &flow, turn.clock);
    let mut life = PlainLife::unborn(alloc, env.cfg, flow, seg.head.peer_mac, iss);
    life.give(alloc, turn, Input::Segment { w, seg })?;
    Ok(life)
}

/// A connection that the application asks for, at this tick.
#[tactic(auto, unfolding(crate::specs::Group::dialled))]
pub fn dialled(
    alloc: Global,
    env: &Env<Application>,
    turn: Turn,
    flow: Flow,
    mac: [u8; 6],
) -> Result<PlainLife, NoMemory>
    requires { IsInRange env.now.cfg }
    ensures { IfOk result (λ l. l ≡ dialled (setting_of env.now) turn flow mac) }
{
    let iss = drawn(&flow, turn.clock);
    let mut life = PlainLife::unborn(alloc, env.cfg, flow, mac, iss);
    life.give(alloc, turn, Input::Call(Ask::Connect))?;
    life.touched = false;
    Ok(life)
}

// The end of a cycle for each connection.
#[tactic(auto, using(crate::proofs::Loops::mapped_more))]
fn close_all(
    alloc: Global,
    env: &Env<Application>,
    timed: bool,
    turn: Turn,
    lives: &mut [PlainLife],
) -> Result<(), NoMemory>
    ensures { OnOk result (lives.new ≡ map (closed (setting_of env.now) timed turn) lives.old) }
{
    let mut i = 0;
    while i < lives.len() {
        let life = &mut lives[i];
        close(alloc, env, timed, turn, life)?;
        i += 1;
    }
    Ok(())
}

// The last entry of some frames.
fn last_number(frames: &List<Taken>) -> Option<WireNo>
    requires { 0 < length frames.now }
    ensures { result ≡ last_number frames.now }
{
    match frames.get(frames.len() - 1) {
        Some(taken) => Some(taken.w),
        None => None,
    }
}

impl PlainGroup {
    ghost use Rattle.ix_groupdef.specs.Group.{take_as};

    /// A group without connections, at tick 0.
    pub fn new(alloc: Global) -> PlainGroup
        ensures { result ≡ empty }
    {
        PlainGroup {
            clock: 0,
            lives: Vec::new(alloc),
            strays: List::new(alloc),
        }
    }

    /// Its connections in opening order, ended ones too.
    pub fn lives(&self) -> &[PlainLife]
        ensures { result.now ≡ self.now.lives }
    {
        &self.lives
    }

    fn stray(
        &mut self,
        turn: Turn,
        w: WireNo,
        kind: Disposition,
        reply: Option<Bytes>,
    ) -> Result<(), NoMemory>
        ensures { OnOk result (self.new ≡ strayed (stray_of turn w kind reply) self.old) }
    {
        self.strays.push(Stray {
            w,
            core: turn.core,
            kind,
            reply,
        })?;
        Ok(())
    }

    // Gives a segment to the connection of its flow, opens one, or makes a stray of it.
    #[tactic(auto, using(crate::proofs::Places::for_segment))]
    fn take_segment(
        &mut self,
        alloc: Global,
        env: &Env<Application>,
        turn: Turn,
        w: WireNo,
        seg: Seg,
    ) -> Result<(), NoMemory>
        requires range { IsInRange env.now.cfg }
        requires written { IsWritten (inputs.Segment w seg) }
        ensures { OnePerFlow self.old.lives → OnOk result (self.new ≡ take_segment (setting_of env.now) turn w seg self.old) }
    {
        match find(&seg.head.flow, self.lives.as_slice()) {
            Some(i) => {
                let life = &mut self.lives[i];
                life.give(alloc, turn, Input::Segment { w, seg })?;
                Ok(())
            }
            None => {
                if opens(env, &seg.head, self.lives.as_slice()) {
                    let life = opened(alloc, env, turn, w, seg)?;
                    self.lives.push(life)?;
                    return Ok(());
                }
                let reply = reply_to_segment(alloc, env, &seg.head)?;
                let kind = segment_kind(env, &seg.head);
                self.stray(turn, w, kind, reply)?;
                Ok(())
            }
        }
    }

    // Takes one accepted frame.
    #[tactic(auto, using(crate::proofs::Readings::for_taking))]
    fn take_frame(
        &mut self,
        alloc: Global,
        env: &Env<Application>,
        turn: Turn,
        taken: Taken,
    ) -> Result<(), NoMemory>
        requires range { IsInRange env.now.cfg }
        requires size { length taken.frame ≤ 2048 }
        ensures { OnePerFlow self.old.lives → OnOk result (self.new ≡ take_frame (setting_of env.now) turn taken self.old) }
    {
        match read(alloc, env, taken.frame.as_slice())? {
            Reading::Segment(seg) => self.take_segment(alloc, env, turn, taken.w, seg),
            Reading::Other { kind, reply } => self.stray(turn, taken.w, kind, reply),
        }
    }

    // Takes some accepted frames, in their order.
    #[tactic(auto, using(crate::proofs::Frames::for_frames))]
    fn take_frames(
        &mut self,
        alloc: Global,
        env: &Env<Application>,
        turn: Turn,
        frames: List<Taken>,
    ) -> Result<(), NoMemory>
        requires range { IsInRange env.now.cfg }
        requires size { All (λ t. length t.frame ≤ 2048) frames }
        ensures { OnePerFlow self.old.lives → OnOk result (self.new ≡ take_frames (setting_of env.now) turn frames self.old) }
    {
        for taken in frames.into_vec() {
            self.take_frame(alloc, env, turn, taken)?;
        }
        Ok(())
    }

    // The end of a cycle.
    fn end_cycle(
        &mut self,
        alloc: Global,
        env: &Env<Application>,
        timed: bool,
        turn: Turn,
    ) -> Result<(), NoMemory>
        ensures { OnOk result (self.new ≡ end_cycle (setting_of env.now) timed turn self.old) }
    {
        close_all(alloc, env, timed, turn, self.lives.as_mut_slice())
    }

    /// Steps these frames in their order and runs one cycle.
    #[tactic(auto, using(crate::proofs::Frames::for_cycles), unfolding(crate::specs::Group::run_cycle))]
    pub fn step_batch(
        &mut self,
        alloc: Global,
        env: &Env<Application>,
        core: CoreId,
        frames: List<Taken>,
    ) -> Result<(), NoMemory>
        requires range { IsInRange env.now.cfg }
        requires some { 0 < length frames }
        requires size { All (λ t. length t.frame ≤ 2048) frames }

        ensures cycle { OnePerFlow self.old.lives → OnOk result (self.new ≡ run_cycle (setting_of env.now) (Frames core frames) self.old) }

        // For every cutting that the group stands for, it then stands for that cutting with one more cycle.
        ensures cutting { (asked : Sequence Connect) (cs : Sequence Cycle) → self.old ≡ run (setting_of env.now) asked cs
            → OnOk result (self.new ≡ run (setting_of env.now) asked (cs ++ Frames core frames ∷ [])) }
    {
        let turn = Turn {
            clock: self.clock,
            core,
            end: last_number(&frames),
        };
        self.take_frames(alloc, env, turn, frames)?;
        self.end_cycle(alloc, env, false, turn)
    }

    /// Sets the clock to the greater of the clock and now, and runs a cycle without frames.
    #[tactic(auto, using(crate::proofs::Frames::for_cycles), unfolding(crate::specs::Group::run_cycle))]
    pub fn advance_to(
        &mut self,
        alloc: Global,
        env: &Env<Application>,
        core: CoreId,
        w: WireNo,
        now: u64,
    ) -> Result<(), NoMemory>
        ensures cycle { OnOk result (self.new ≡ run_cycle (setting_of env.now) (Time core w now) self.old) }
        ensures cutting { (asked : Sequence Connect) (cs : Sequence Cycle) → self.old ≡ run (setting_of env.now) asked cs
            → OnOk result (self.new ≡ run (setting_of env.now) asked (cs ++ Time core w now ∷ [])) }
    {
        self.clock = self.clock.max(now);
        let turn = Turn {
            clock: self.clock,
            core,
            end: Some(w),
        };
        self.end_cycle(alloc, env, true, turn)
    }

    /// Asks for a connection: there is none where the address has no neighbour, else where 64 live.
    #[tactic(auto, using(crate::proofs::Frames::one_more_connect), unfolding(crate::specs::Group::connect))]
    pub fn connect(
        &mut self,
        alloc: Global,
        env: &Env<Application>,
        core: CoreId,
        ip: u32,
        port: u16,
        local_port: u16,
    ) -> Result<Ret, NoMemory>
        requires range { IsInRange env.now.cfg }
        requires free { list_any (hears (flow_of_connect (setting_of env.now) (record { core = core; ip = ip; port = port; local_port = local_port }))) self.old.lives ≡ false }
        ensures answer { IfOk result (λ r. r ≡ answer_to_connect (mac_of ip env.now.neighbours) self.old.lives) }
        ensures group { OnOk result (self.new ≡ connect (setting_of env.now) (record { core = core; ip = ip; port = port; local_port = local_port }) self.old) }
        ensures asked { (asked : Sequence Connect) → self.old ≡ connect_all (setting_of env.now) asked empty
            → OnOk result (self.new ≡ connect_all (setting_of env.now) (asked ++ record { core = core; ip = ip; port = port; local_port = local_port } ∷ []) empty) }
    {
        let Some(mac) = env.neighbours.get(ip) else {
            return Ok(Ret::NoNeighbour);
        };
        if !has_room(self.lives.as_slice()) {
            return Ok(Ret::TableFull);
        }
        let flow = Flow {
            remote: ip,
            local: env.local.ip,
            remote_port: port,
            local_port,
        };
        let turn = Turn {
            clock: self.clock,
            core,
            end: None,
        };
        let life = dialled(alloc, env, turn, flow, mac)?;
        self.lives.push(life)?;
        Ok(Ret::Done(0))
    }

    /// What the group leaves.
    #[tactic(auto, using(crate::proofs::Loops::map_push))]
    pub fn finish(self, alloc: Global, env: &Env<Application>) -> Result<GroupRecord, NoMemory>
        ensures { IfOk result (λ r. r ≡ record_of (setting_of env.now) self) }
    {
        let PlainGroup {
            clock: _,
            lives,
            strays,
        } = self;
        let mut conns = List::new(alloc);
        for life in lives {
            let end = conn_end(alloc, env, life)?;
            conns.push(end)?;
        }
        Ok(GroupRecord { strays, conns })
    }
}

// A connection as it is left.
#[tactic(auto, unfolding(crate::specs::Record::conn_end))]
fn conn_end(alloc: Global, env: &Env<Application>, life: PlainLife) -> Result<ConnEnd, NoMemory>
    ensures { IfOk result (λ c. c ≡ conn_end (setting_of env.now) life) }
{
    let wrote = wrote(alloc, env, &life)?;
    let PlainLife {
        flow,
        iss,
        world,
        journal,
        ends,
        ..
    } = life;
    Ok(ConnEnd {
        flow,
        iss,
        journal,
        ends,
        left: world.left(),
        wrote,
        taken: world.sent().len() as u64,
    })
}
