// A group with the buffers of its frames.
ghost use Rattle.std.specs.Prelude.{◌≡◌, ◌≤◌, ◌<◌, ◌+◌, ◌==◌, ◌++◌, ◌∷◌, [], ℕ, List as Sequence, false, length, map, IfOk, OnOk};
ghost use Rattle.std.specs.List.{All, list_any};
ghost use Rattle.ix_mbuf.specs.declared.name.Name.{Name};
ghost use Rattle.ix_tcpdef.specs.Sound.{IsInRange};
ghost use Rattle.ix_groupdef.specs.Env.{setting_of};
ghost use Rattle.ix_groupdef.specs.Life.{hears};
ghost use Rattle.ix_groupdef.specs.Owners.{sends_parts};
ghost use Rattle.ix_groupdef.specs.Record.{record_of};
ghost use Rattle.ix_stack.specs.Works.{work_weight, works_weight};
ghost use Rattle.ix_stack.specs.declared.work.Work.{Work as AWork};
ghost use Rattle.ix_plainstack.specs.Batches.{accepted_as, batch_of, batches_behind, batches, Frames, Time};
ghost use Rattle.ix_plainstack.specs.Kept.{buffers_of, frames_weight};
ghost use Rattle.ix_plainstack.specs.Owning.{GoesOn, IsReached, owning_nothing, no_buffers, buffered_weight, counts_at, settled, run_batch, run_batches};
ghost use Rattle.ix_plainstack.specs.Stack.{answer_from, connected_from};

use crate::buffers::Buffers;
use crate::numbers::Numbers;
use ix_appdef::Application;
use ix_base::{Bytes, CoreId, Flow, List, NoMemory, Owned, Ret, WireNo};
use ix_groupdef::{Env, GroupRecord, PlainGroup, PlainLife, Taken as Accepted};
use ix_mbuf::Mbuf;
use ix_stack::{Taken, Work};
use std::alloc::Global;
use std::marker::Model;
use std::mem::replace;

/// A group with the buffers of its frames. A cycle frees those that the group doesn't own after it.
#[derive(Drop)]
pub struct OwningGroup {
    group: PlainGroup,
    buffers: Buffers,
}

impl Model for OwningGroup {
    ghost use Rattle.ix_plainstack.specs.Owning.{Owning};

    ghost Value = { Owning };

    ghost view = { λ o. record { group = o.group; buffers = o.buffers } };
}

// Whether an application sends the parts that it was told whole, or releases each once it has read it.
fn sends_parts(app: &Application) -> bool
    ensures { result ≡ sends_parts app.now }
{
    matches!(app, Application::Echo)
}

// A frame as the group takes it.
fn accepted_as(alloc: Global, taken: &Taken) -> Result<Accepted, NoMemory>
    ensures same { IfOk result (λ t. t ≡ accepted_as taken.now) }
    ensures size { IfOk result (λ t. length t.frame ≤ 2048) }
{
    Ok(Accepted {
        w: taken.w,
        frame: Bytes::from_slice(alloc, taken.buf.bytes())?,
    })
}

// Puts a frame, as the group takes it, behind others.
#[tactic(auto, using(crate::proofs::CycleSteps::sizes_push))]
fn accept_one(alloc: Global, taken: &Taken, accepted: &mut List<Accepted>) -> Result<(), NoMemory>
    ensures same { OnOk result (accepted.new ≡ accepted.old ++ accepted_as taken.now ∷ []) }
    ensures size { All (λ t. length t.frame ≤ 2048) accepted.old → OnOk result (All (λ t. length t.frame ≤ 2048) accepted.new) }
{
    let frame = accepted_as(alloc, taken)?;
    accepted.push(frame)?;
    Ok(())
}

// Frames as the group takes them.
#[tactic(auto, using(crate::proofs::CycleSteps::for_accepted))]
fn all_accepted(alloc: Global, frames: &[Taken]) -> Result<List<Accepted>, NoMemory>
    ensures same { IfOk result (λ ts. ts ≡ map accepted_as frames.now) }
    ensures size { IfOk result (λ ts. All (λ t. length t.frame ≤ 2048) ts) }
{
    let mut accepted = List::new(alloc);
    for taken in frames {
        accept_one(alloc, taken, &mut accepted)?;
    }
    Ok(accepted)
}

// Whether a connection that has not ended hears a flow.
fn is_heard(flow: &Flow, lives: &[PlainLife]) -> bool
    ensures { result ≡ list_any (hears flow.now) lives.now }
{
    lives.iter().any(|life| life.hears(flow))
}

impl OwningGroup {
    /// A group without connections, and no buffers.
    pub fn new(alloc: Global) -> OwningGroup
        ensures { result ≡ owning_nothing }
    {
        OwningGroup {
            group: PlainGroup::new(alloc),
            buffers: Buffers::new(alloc),
        }
    }

    // Keeps the buffers that the group owns as it is now.
    #[tactic(auto, using(crate::proofs::KeptLaws::settled_weighs))]
    fn settle(
        &mut self,
        alloc: Global,
        env: &Env<Application>,
        came: Vec<Taken>,
    ) -> Result<(), NoMemory>
        ensures same { OnOk result (self.new ≡ record self.old { buffers = settled (sends_parts env.now.app) self.old.group.lives came.items self.old.buffers }) }
        ensures weight { (f : Name → ℕ) → OnOk result (buffered_weight f self.new.buffers ≡ buffered_weight f self.old.buffers + frames_weight f came.items) }
    {
        let numbers = Numbers::of(alloc, sends_parts(&env.app), self.group.lives())?;
        self.buffers.settle(alloc, &numbers, came)?;
        Ok(())
    }

    // Steps these frames, of which there is one at least, as one cycle.
    #[tactic(auto, unfolding(crate::specs::Owning::run_batch))]
    fn step_batch(
        &mut self,
        alloc: Global,
        env: &Env<Application>,
        core: CoreId,
        frames: Vec<Taken>,
    ) -> Result<(), NoMemory>
        requires range { IsInRange env.now.cfg }
        requires some { 0 < length frames.items }
        ensures batch { IsReached (setting_of env.now) self.old.group → OnOk result (self.new ≡ run_batch (sends_parts env.now.app) (setting_of env.now) core (Frames frames.items) self.old) }
        ensures weight { (f : Name → ℕ) → OnOk result (buffered_weight f self.new.buffers ≡ buffered_weight f self.old.buffers + frames_weight f frames.items) }
    {
        let accepted = all_accepted(alloc, frames.as_slice())?;
        self.group.step_batch(alloc, env, core, accepted)?;
        self.settle(alloc, env, frames)?;
        Ok(())
    }

    // Steps these frames as one cycle, where there are any.
    #[tactic(auto, using(crate::proofs::CycleSteps::for_frames))]
    fn step_frames(
        &mut self,
        alloc: Global,
        env: &Env<Application>,
        core: CoreId,
        frames: Vec<Taken>,
    ) -> Result<(), NoMemory>
        requires { IsInRange env.now.cfg }
        ensures batches { IsReached (setting_of env.now) self.old.group → OnOk result (self.new ≡ run_batches (sends_parts env.now.app) (setting_of env.now) core (batch_of frames.items) self.old) }
        ensures weight { (f : Name → ℕ) → OnOk result (buffered_weight f self.new.buffers ≡ buffered_weight f self.old.buffers + frames_weight f frames.items) }
    {
        if frames.is_empty() {
            return Ok(());
        }
        self.step_batch(alloc, env, core, frames)?;
        Ok(())
    }

    // Sets the clock to the greater of the clock and now, and runs a cycle without frames.
    #[tactic(auto, unfolding(crate::specs::Owning::run_batch))]
    fn advance_to(
        &mut self,
        alloc: Global,
        env: &Env<Application>,
        core: CoreId,
        w: WireNo,
        now: u64,
    ) -> Result<(), NoMemory>
        ensures batch { OnOk result (self.new ≡ run_batch (sends_parts env.now.app) (setting_of env.now) core (Time w now) self.old) }
        ensures weight { (f : Name → ℕ) → OnOk result (buffered_weight f self.new.buffers ≡ buffered_weight f self.old.buffers) }
    {
        self.group.advance_to(alloc, env, core, w, now)?;
        self.settle(alloc, env, Vec::new(alloc))?;
        Ok(())
    }

    // Takes one item: a frame waits for the end of its cycle, and a time ends the cycle of those that wait.
    #[tactic(auto, using(crate::proofs::CycleSteps::for_item))]
    fn take_item(
        &mut self,
        alloc: Global,
        env: &Env<Application>,
        core: CoreId,
        item: Work,
        frames: &mut Vec<Taken>,
    ) -> Result<(), NoMemory>
        requires { IsInRange env.now.cfg }
        ensures item { IsReached (setting_of env.now) self.old.group → OnOk result (GoesOn (sends_parts env.now.app) (setting_of env.now) core item frames.old.items self.old frames.new.items self.new) }
        ensures weight { (f : Name → ℕ) → OnOk result (buffered_weight f self.new.buffers + frames_weight f frames.new.items ≡ buffered_weight f self.old.buffers + frames_weight f frames.old.items + work_weight f item) }
    {
        match item {
            Work::Frame(taken) => {
                frames.push(taken)?;
                Ok(())
            }
            Work::Time { w, t } => {
                let batch = replace(frames, Vec::new(alloc));
                self.step_frames(alloc, env, core, batch)?;
                self.advance_to(alloc, env, core, w, t)?;
                Ok(())
            }
        }
    }

    /// Steps these items in their order: frames that follow each other are one cycle, and each time is one.
    #[tactic(auto, using(crate::proofs::CycleSteps::for_items))]
    pub fn step_items(
        &mut self,
        alloc: Global,
        env: &Env<Application>,
        core: CoreId,
        items: Vec<Work>,
    ) -> Result<(), NoMemory>
        requires { IsInRange env.now.cfg }
        ensures batches { IsReached (setting_of env.now) self.old.group → OnOk result (self.new ≡ run_batches (sends_parts env.now.app) (setting_of env.now) core (batches items.items) self.old) }
        ensures weight { (f : Name → ℕ) → OnOk result (buffered_weight f self.new.buffers ≡ buffered_weight f self.old.buffers + works_weight f items.items) }
    {
        let mut frames = Vec::new(alloc);
        for item in items {
            self.take_item(alloc, env, core, item, &mut frames)?;
        }
        self.step_frames(alloc, env, core, frames)?;
        Ok(())
    }

    /// Whether a connection that has not ended hears a flow.
    pub fn has(&self, flow: &Flow) -> bool
        ensures { result ≡ list_any (hears flow.now) self.now.group.lives }
    {
        is_heard(flow, self.group.lives())
    }

    /// Dials a flow of this machine's address. A flow of another address is opened by nobody here.
    pub fn connect(
        &mut self,
        alloc: Global,
        env: &Env<Application>,
        core: CoreId,
        flow: Flow,
    ) -> Result<Ret, NoMemory>
        requires range { IsInRange env.now.cfg }
        requires free { list_any (hears flow) self.old.group.lives ≡ false }
        ensures answer { IfOk result (λ ret. ret ≡ answer_from (flow.local == env.now.local.ip) env.now flow self.old.group) }
        ensures group { OnOk result (self.new ≡ record self.old { group = connected_from (flow.local == env.now.local.ip) env.now core.0 flow self.old.group }) }
    {
        if flow.local != env.local.ip {
            return Ok(Ret::NoNeighbour);
        }
        let Flow {
            remote,
            local: _,
            remote_port,
            local_port,
        } = flow;
        let ret = self
            .group
            .connect(alloc, env, core, remote, remote_port, local_port)?;
        Ok(ret)
    }

    /// Hands out the buffers that the group doesn't own any more.
    pub fn drain(&mut self, alloc: Global) -> Vec<Mbuf>
        ensures given { result.items ≡ self.old.buffers.freed }
        ensures rest { self.new ≡ record self.old { buffers = record self.old.buffers { freed = [] } } }
    {
        self.buffers.drain(alloc)
    }

    /// Hands out all buffers.
    pub fn drain_all(&mut self, alloc: Global) -> Result<Vec<Mbuf>, NoMemory>
        ensures given { IfOk result (λ bufs. bufs.items ≡ buffers_of self.old.buffers.held ++ (buffers_of self.old.buffers.app ++ (buffers_of self.old.buffers.queue ++ self.old.buffers.freed))) }
        ensures rest { OnOk result (self.new ≡ record self.old { buffers = no_buffers }) }
    {
        let bufs = self.buffers.drain_all(alloc)?;
        Ok(bufs)
    }

    /// How many buffers of a home are held, with the application, and queued.
    pub fn owned(&self, home: CoreId) -> Owned
        ensures { result ≡ counts_at self.now.buffers home.0 }
    {
        self.buffers.owned(home)
    }

    /// What the group leaves.
    pub fn record(self, alloc: Global, env: &Env<Application>) -> Result<GroupRecord, NoMemory>
        ensures { IfOk result (λ r. r ≡ record_of (setting_of env.now) self.group) }
    {
        let OwningGroup { group, buffers: _ } = self;
        group.finish(alloc, env)
    }
}
