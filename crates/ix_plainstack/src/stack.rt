// The plain group as the stack of a flow group.
ghost use Rattle.std.specs.Prelude.{◌≡◌, ◌++◌, ◌∷◌, [], map, IfOk, OnOk};
ghost use Rattle.ix_groupdef.specs.Env.{setting_of};
ghost use Rattle.ix_groupdef.specs.Record.{record_of};
ghost use Rattle.ix_plainstack.specs.Batches.{work_number};
ghost use Rattle.ix_plainstack.specs.Stack.{empty_stack, step_pair, steps_of};

use crate::env::StackEnv;
use crate::owning::OwningGroup;
use ix_base::{CoreId, Flow, NoMemory, Owned, Ret, WireNo};
use ix_desk::Unit;
use ix_groupdef::GroupRecord;
use ix_mbuf::Mbuf;
use ix_stack::{GroupStack, Work};
use std::alloc::Global;
use std::marker::Model;

/// An entry that a group has stepped, and the core that stepped it.
#[derive(Clone, Copy, Debug, PartialEq, Eq)]
pub struct Stepped {
    /// The entry's place in the wire list.
    pub w: WireNo,
    /// The core.
    pub core: CoreId,
}

/// A flow group that a core steps: the plain group of the definitions with the buffers of its frames. A cycle frees each buffer whose
/// frame the group doesn't own after it: one that is neither held out of order, nor told and not acknowledged whole.
#[derive(Drop)]
pub struct PlainStack {
    alloc: Global,
    owning: OwningGroup,
    stepped: Vec<Stepped>,
}

impl Model for PlainStack {
    ghost use Rattle.std.specs.Prelude.{map};
    ghost use Rattle.ix_plainstack.specs.Stack.{Stack, step_pair};

    ghost Value = { Stack };

    ghost view = { λ s. record { owning = s.owning; steps = map step_pair s.stepped.items } };
}

// The number of an item.
fn number(item: &Work) -> WireNo
    ensures { result.0 ≡ work_number item.now }
{
    match item {
        Work::Frame(taken) => taken.w,
        Work::Time { w, .. } => *w,
    }
}

// Notes an item as stepped on a core.
#[tactic(auto, using(crate::proofs::CycleSteps::for_steps))]
fn note(core: CoreId, item: &Work, stepped: &mut Vec<Stepped>) -> Result<(), NoMemory>
    ensures { OnOk result (map step_pair stepped.new.items ≡ map step_pair stepped.old.items ++ (work_number item.now, core.0) ∷ []) }
{
    let w = number(item);
    stepped.push(Stepped { w, core })?;
    Ok(())
}

// Notes these items as stepped on a core.
#[tactic(auto, using(crate::proofs::CycleSteps::for_steps))]
fn note_all(core: CoreId, items: &[Work], stepped: &mut Vec<Stepped>) -> Result<(), NoMemory>
    ensures { OnOk result (map step_pair stepped.new.items ≡ map step_pair stepped.old.items ++ steps_of core.0 items.now) }
{
    for item in items {
        note(core, item, stepped)?;
    }
    Ok(())
}

impl PlainStack {
    /// A group without connections, that has stepped nothing.
    pub fn new(alloc: Global) -> PlainStack
        ensures { result ≡ empty_stack }
    {
        PlainStack {
            alloc,
            owning: OwningGroup::new(alloc),
            stepped: Vec::new(alloc),
        }
    }

    /// All entries that it has stepped, in order.
    pub fn stepped(&self) -> &[Stepped]
        ensures { map step_pair result.now ≡ self.now.steps }
    {
        self.stepped.as_slice()
    }

    /// What the group leaves. Buffers that it still has are dropped: `finish` hands them out before.
    pub fn record(self, env: &StackEnv) -> Result<GroupRecord, NoMemory>
        ensures { IfOk result (λ r. r ≡ record_of (setting_of env.now) self.owning.group) }
    {
        let PlainStack {
            alloc,
            owning,
            stepped: _,
        } = self;
        owning.record(alloc, env.get())
    }
}

impl Unit for PlainStack {
    ghost use Rattle.std.specs.Prelude.{◌≡◌, ◌++◌, map, OnOk};
    ghost use Rattle.ix_stack.specs.declared.work.Work.{Work as AWork};
    ghost use Rattle.ix_plainstack.specs.Batches.{work_number, is_frame_work};
    ghost use Rattle.ix_plainstack.specs.Stack.{Advances};

    type Item = Work;

    type Env = StackEnv;

    ghost name = { work_number };

    ghost counted = { is_frame_work };

    ghost stepped = { λ s. s.steps };

    ghost advanced = { λ x env core items y. Advances x env core items y };

    fn step(&mut self, env: &StackEnv, core: CoreId, items: Vec<Work>) -> Result<(), NoMemory>
        ensures names { OnOk result (self.new.steps ≡ self.old.steps ++ map (λ x. (work_number x, core.0)) items.items) }
        ensures advanced { OnOk result (Advances self.old env.now core.0 items.items self.new) }
    {
        note_all(core, items.as_slice(), &mut self.stepped)?;
        self.owning.step_items(self.alloc, env.get(), core, items)?;
        Ok(())
    }

    fn counts(item: &Work) -> bool {
        matches!(item, Work::Frame(_))
    }
}

impl GroupStack for PlainStack {
    ghost use Rattle.std.specs.Prelude.{◌≡◌, false, is_some, IfOk};
    ghost use Rattle.ix_groupdef.specs.Setting.{mac_of};
    ghost use Rattle.ix_plainstack.specs.Stack.{stack_weight, owners_at, holds_flow, flow_to, Drains, Connects, Finishes};
    ghost use Rattle.ix_plainstack.specs.Weights.{advances-weigh, drains-weigh, drains-own, connects-weigh, finishes-weigh};

    ghost weight = { stack_weight };

    ghost drained = { λ x bufs y. Drains x bufs y };

    ghost owners = { owners_at };

    ghost neighbour = { λ env ip. is_some (mac_of ip env.neighbours) };

    ghost flow_from = { flow_to };

    ghost holds = { holds_flow };

    ghost is_unused = { λ _ _. Unit {0} };

    ghost connected = { λ x env core _ flow ret y. Connects x env core flow ret y };

    ghost finished = { λ x bufs y. Finishes x bufs y };

    fn freed(&mut self) -> Result<Vec<Mbuf>, NoMemory>
        ensures { IfOk result (λ bufs. Drains self.old bufs.items self.new) }
    {
        let bufs = self.owning.drain(self.alloc);
        Ok(bufs)
    }

    fn owned(&self, home: CoreId) -> Owned {
        self.owning.owned(home)
    }

    fn is_neighbour(env: &StackEnv, ip: u32) -> bool {
        env.get().neighbours.get(ip).is_some()
    }

    fn flow(env: &StackEnv, ip: u32, port: u16, local_port: u16) -> Flow {
        Flow {
            remote: ip,
            local: env.get().local.ip,
            remote_port: port,
            local_port,
        }
    }

    fn has(&self, flow: &Flow) -> bool {
        self.owning.has(flow)
    }

    fn connect(
        &mut self,
        env: &StackEnv,
        core: CoreId,
        _cookie: u64,
        flow: Flow,
    ) -> Result<Ret, NoMemory>
        requires { holds_flow self.old flow ≡ false }
        ensures { IfOk result (λ ret. Connects self.old env.now core.0 flow ret self.new) }
    {
        let ret = self.owning.connect(self.alloc, env.get(), core, flow)?;
        Ok(ret)
    }

    fn finish(&mut self) -> Result<Vec<Mbuf>, NoMemory>
        ensures { IfOk result (λ bufs. Finishes self.old bufs.items self.new) }
    {
        let bufs = self.owning.drain_all(self.alloc)?;
        Ok(bufs)
    }

    ghost steps_weigh = { λ f x env core items y so. advances-weigh f x env core items y so };

    ghost drains_weigh = { λ f x bufs y so. drains-weigh f x bufs y so };

    ghost owners_weigh = { λ x bufs y home so. drains-own x bufs y home so };

    ghost connects_weigh = { λ f x env core _ flow ret y so. connects-weigh f x env core flow ret y so };

    ghost finishes_weigh = { λ f x bufs y so. finishes-weigh f x bufs y so };
}
