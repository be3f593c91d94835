// A flow group, as a core sees it.

use crate::work::Work;
use ix_base::{CoreId, Flow, NoMemory, Owned, Ret};
use ix_desk::Unit;
use ix_mbuf::{Mbuf, Name};

/// A unit that steps frames and times and owns the buffers of its frames until it hands them out: a flow group, of which a core knows no
/// more than this. The weight of a group is that of all buffers that it owns, for each weight of names.
pub trait GroupStack: Unit<Item = Work> {
    ghost use Rattle.std.specs.Prelude.{◌≡◌, ◌+◌, ℕ, Bool, false, List, IfOk};
    ghost use Rattle.ix_base.specs.declared.id.Flow.{Flow};
    ghost use Rattle.ix_base.specs.declared.id.Owned.{Owned};
    ghost use Rattle.ix_base.specs.declared.segment.Ret.{Ret};
    ghost use Rattle.ix_mbuf.specs.Buffers.{Buffer, buffers_weight};
    ghost use Rattle.ix_mbuf.specs.declared.name.Name.{Name};
    ghost use Rattle.ix_mbuf.specs.Owners.{one_at};
    ghost use Rattle.ix_stack.specs.Works.{owned_count, works_weight};
    ghost use Rattle.ix_stack.specs.declared.work.Work.{Work};

    /// The weights of the buffers that it owns, added up.
    ghost weight: { (Name → ℕ) → Self → ℕ };

    /// `drained x bufs y`: it handed out these buffers, which are all that it doesn't need any more.
    ghost drained: { Self → List Buffer → Self → Type 0 };

    /// How many buffers of a home it holds, has lent to the application, and queues.
    ghost owners: { Self → ℕ → Owned };

    /// Whether the environment has a hardware address for an IPv4 address.
    ghost neighbour: { Self.Env → ℕ → Bool };

    /// The flow from a local port to a remote address and port.
    ghost flow_from: { Self.Env → ℕ → ℕ → ℕ → Flow };

    /// Whether it has a connection of this flow.
    ghost holds: { Self → Flow → Bool };

    /// None of its connections ever had this cookie.
    ghost is_unused: { Self → ℕ → Type 0 };

    /// `connected x env core cookie flow ret y`: a connect of this flow, on this core, took it from `x` to `y` and returned `ret`.
    ghost connected: { Self → Self.Env → ℕ → ℕ → Flow → Ret → Self → Type 0 };

    /// `finished x bufs y`: it handed out all its buffers.
    ghost finished: { Self → List Buffer → Self → Type 0 };

    /// Hands out the buffers that it doesn't need any more. After want of memory what it does is left open.
    fn freed(&mut self) -> Result<Vec<Mbuf>, NoMemory>
        ensures { IfOk result (λ bufs. drained self.old bufs.items self.new) };

    /// How many buffers of a home it owns, by what they are for. What `freed` would hand out is not counted.
    fn owned(&self, home: CoreId) -> Owned
        ensures { result ≡ owners self.now home.0 };

    /// Whether the hardware address of this IPv4 address is known.
    fn is_neighbour(env: &Self::Env, ip: u32) -> bool
        ensures { result ≡ neighbour env.now ip };

    /// The flow from a local port to this remote address and port.
    fn flow(env: &Self::Env, ip: u32, port: u16, local_port: u16) -> Flow
        ensures { result ≡ flow_from env.now ip port local_port };

    /// Whether it has a connection of this flow.
    fn has(&self, flow: &Flow) -> bool
        ensures { result ≡ holds self.now flow.now };

    /// Opens a connection of this flow, on this core. Answers `TableFull` or `Done`. After want of memory what it does is left open.
    fn connect(
        &mut self,
        env: &Self::Env,
        core: CoreId,
        cookie: u64,
        flow: Flow,
    ) -> Result<Ret, NoMemory>
        requires free { holds self.old flow ≡ false }
        requires unused { is_unused self.old cookie }
        ensures { IfOk result (λ ret. connected self.old env.now core.0 cookie flow ret self.new) };

    /// Hands out all its buffers, at the end of a play. After want of memory what it does is left open.
    fn finish(&mut self) -> Result<Vec<Mbuf>, NoMemory>
        ensures { IfOk result (λ bufs. finished self.old bufs.items self.new) };

    /// A step takes the buffers of its frames.
    ghost steps_weigh: { (f : Name → ℕ) (x : Self) (env : Self.Env) (core : ℕ) (items : List Work) (y : Self) → Self.advanced x env core items y → weight f y ≡ weight f x + works_weight f items };

    /// What it hands out was its own.
    ghost drains_weigh: { (f : Name → ℕ) (x : Self) (bufs : List Buffer) (y : Self) → drained x bufs y → weight f y + buffers_weight f bufs ≡ weight f x };

    /// What it owns is held, lent or queued, once nothing is left to be handed out.
    ghost owners_weigh: { (x : Self) (bufs : List Buffer) (y : Self) (home : ℕ) → drained x bufs y → owned_count (owners y home) ≡ weight (one_at home) y };

    /// A connect takes no buffer.
    ghost connects_weigh: { (f : Name → ℕ) (x : Self) (env : Self.Env) (core cookie : ℕ) (flow : Flow) (ret : Ret) (y : Self) → connected x env core cookie flow ret y → weight f y ≡ weight f x };

    /// What a finished group handed out is all that it owned.
    ghost finishes_weigh: { (f : Name → ℕ) (x : Self) (bufs : List Buffer) (y : Self) → finished x bufs y → (buffers_weight f bufs ≡ weight f x) × (weight f y ≡ 0) };
}
