// A core, and its turn.
ghost use Rattle.std.specs.Prelude.{◌≡◌, ◌||◌, not};
ghost use Rattle.ix_core.specs.Turned.{answer_of};

use crate::batch::Batch;
use crate::connecting::{connect_at, free_flow};
use crate::dealing::{deal_items, groups};
use crate::intake::{Stop, take_items};
use crate::link::{Link, open_links};
use crate::mesh::{any_waits, drain_all, hear_all, send_all, ship_all};
use crate::message::CoreEnds;
use crate::posting::post;
use crate::returning::give_back;
use ix_base::{CoreId, GroupId, NoMemory, Ret};
use ix_desk::{Desks, Shipment};
use ix_mbuf::{Mbuf, Pool};
use ix_ring::{PutEnd, TakeEnd};
use ix_run::Turn;
use ix_stack::{GroupStack, Item};
use std::alloc::Global;
use std::collections::VecDeque;

/// A core: it takes items from its receive ring and messages of the other cores, has its desks work, and sends away what leaves.
#[derive(Drop)]
pub struct Core<G: GroupStack> {
    /// The most frames that it takes, and steps, in one turn.
    pub batch: Batch,
    /// Whether it has found no memory.
    pub failed: bool,
    /// Where its memory comes from.
    pub alloc: Global,
    /// Its free buffers.
    pub pool: Pool,
    /// Buffers that are to be given to the pool, and are tried again in each turn.
    pub returns: Vec<Mbuf>,
    /// The receive ring.
    pub items: TakeEnd<Item>,
    /// What was taken from the receive ring and doesn't fit yet.
    pub came: VecDeque<Item>,
    /// The desks of its flow groups.
    pub desks: Desks<G>,
    /// The links to the other cores.
    pub links: Vec<Link<G>>,
    /// Flow groups that left for a core to which no ring goes.
    pub lost: Vec<Shipment<G>>,
    /// The posting ring.
    pub posted: PutEnd<Mbuf>,
}

impl<G: GroupStack> Core<G> {
    ghost use Rattle.std.specs.Prelude.{◌≡◌, ◌≤◌, ◌<◌, ◌||◌, ℕ, [], Some, All, AllPairs, is_err, length, true, IfOk, OnOk, IsErr};
    ghost use Rattle.ix_ring.specs.Ends.{put_list, spare, taken};
    ghost use Rattle.ix_desk.specs.Groups.{unit_of};
    ghost use Rattle.ix_desk.specs.Desks.{group_at, opened};
    ghost use Rattle.ix_core.specs.Connecting.{Connects};
    ghost use Rattle.ix_core.specs.Cores.{CoreBecame, IsOpened, LeavesNothing, Ran, SameEnds};
    ghost use Rattle.ix_core.specs.Turned.{AreDrained, Turned, WasIdle};
    ghost use Rattle.ix_core.specs.Weights.{WeighsTheSame};
    ghost use Rattle.ix_run.specs.declared.actors.Turn.TheVariants.{Idle};

    /// A core at the opening of a play: its pool, of which every buffer is free, the flow groups that are at home here, and its ends of rings
    /// to which nothing was put.
    pub fn new(
        alloc: Global,
        id: CoreId,
        pool: Pool,
        home: Vec<(GroupId, G)>,
        ends: CoreEnds<G>,
        batch: u16,
    ) -> Result<Core<G>, NoMemory>
        requires some { 1 ≤ batch }
        requires most { batch ≤ 256 }
        requires own { pool.home ≡ id }
        requires within { All (λ h. h.0.0 < 512) home.items }
        requires different { AllPairs (λ a b. a.0.0 ≡ b.0.0 → ⊥) home.items }
        ensures { IfOk result (λ core. IsOpened id pool home.items ends batch core) }
    {
        let CoreEnds {
            items,
            posted,
            mesh,
        } = ends;
        let desks = Desks::new(alloc, id, home)?;
        // asked for what it says of the desks alone
        let _groups = groups(&desks);
        let links = open_links(alloc, mesh)?;
        Ok(Core {
            batch: Batch::new(batch),
            failed: false,
            alloc,
            pool,
            returns: Vec::new(alloc),
            items,
            came: VecDeque::new(alloc),
            desks,
            links,
            lost: Vec::new(alloc),
            posted,
        })
    }

    // What a turn does.
    fn pass(&mut self, env: &G::Env) -> Result<Turn, NoMemory>
        ensures ends { SameEnds self.old self.new }
        ensures failed { self.new.failed ≡ self.old.failed }
        ensures ran { OnOk result (Ran G.counted G.name G.stepped G.advanced G.drained env.now self.old self.new) }
        ensures parts { IfOk result (λ turn. Turned G.counted G.name G.stepped G.advanced G.drained env.now turn self.old self.new) }
        ensures nothing { OnOk result (LeavesNothing self.new) }
        ensures idle { IfOk result (λ turn. turn ≡ Idle → WasIdle self.old self.new) }
        ensures drained { IfOk result (λ turn. turn ≡ Idle → self.new.lost.items ≡ self.old.lost.items → AreDrained G.drained self.new.desks) }
    {
        let batch = self.batch.frames();
        let heard = hear_all(&mut self.links, &mut self.desks, env, &mut self.returns)?;
        let (stop, taken) = take_items(&mut self.items, &mut self.came, batch)?;
        deal_items(&mut self.desks, env, &mut self.came)?;
        let busy = self.desks.has_work();
        let frames = self.desks.work(env, batch)?;
        drain_all(
            self.alloc,
            &mut self.desks,
            env,
            &mut self.links,
            &mut self.returns,
        )?;
        ship_all(&mut self.desks, env, &mut self.links, &mut self.lost)?;
        post(&mut self.pool, &mut self.posted, &mut self.returns, taken)?;
        give_back(&mut self.pool, &mut self.returns);
        let waits = any_waits(self.links.as_slice());
        send_all(&mut self.links);
        let quiet = is_quiet(heard, busy, waits);
        Ok(told(stop, taken, quiet, frames as u16))
    }

    /// Makes one turn. From the first want of memory on, each turn answers that.
    pub fn turn(&mut self, env: &G::Env) -> Result<Turn, NoMemory>
        ensures own { CoreBecame G.counted G.name G.stepped G.advanced G.drained env.now self.old self.new }
        ensures failed { self.new.failed ≡ (self.old.failed || is_err result) }
        ensures parts { IfOk result (λ turn. Turned G.counted G.name G.stepped G.advanced G.drained env.now turn self.old self.new) }
        ensures nothing { OnOk result (LeavesNothing self.new) }
        ensures idle { IfOk result (λ turn. turn ≡ Idle → WasIdle self.old self.new) }
        ensures drained { IfOk result (λ turn. turn ≡ Idle → self.new.lost.items ≡ self.old.lost.items → AreDrained G.drained self.new.desks) }
        ensures again { self.old.failed ≡ true → IsErr result }
    {
        if self.failed {
            return Err(NoMemory);
        }
        match self.pass(env) {
            Ok(turn) => Ok(turn),
            Err(NoMemory) => {
                self.failed = true;
                Err(NoMemory)
            }
        }
    }

    /// Opens a connection from the first free port whose flow group is here, with this cookie. From the first want of memory on, each
    /// connect and each turn answers that.
    pub fn connect(
        &mut self,
        env: &G::Env,
        cookie: u64,
        ip: u32,
        port: u16,
    ) -> Result<Ret, NoMemory>
        requires unused { (g : ℕ) (u : G) → unit_of (group_at self.old.desks g) ≡ Some u → G.is_unused u cookie }
        ensures ends { SameEnds self.old self.new }
        ensures answer { IfOk result (λ ret. Connects G.neighbour G.flow_from G.holds G.connected env.now cookie ip port ret self.old self.new) }
        ensures failed { self.new.failed ≡ (self.old.failed || is_err result) }
        ensures again { self.old.failed ≡ true → IsErr result }
        ensures weights { OnOk result (WeighsTheSame G.weight self.old self.new) }
    {
        if self.failed {
            return Err(NoMemory);
        }
        if !G::is_neighbour(env, ip) {
            return Ok(Ret::NoNeighbour);
        }
        let Some(flow) = free_flow(&self.desks, env, ip, port) else {
            return Ok(Ret::NoPort);
        };
        let core = self.pool.home();
        match connect_at(&mut self.desks, env, core, cookie, flow) {
            Ok(ret) => Ok(ret),
            Err(NoMemory) => {
                self.failed = true;
                Err(NoMemory)
            }
        }
    }
}

// Whether none of these gave a turn something to do: messages that it heard, work at the desks, and messages that waited to go out.
fn is_quiet(heard: bool, busy: bool, waits: bool) -> bool
    ensures { result ≡ not ((heard || busy) || waits) }
{
    !(heard || busy || waits)
}

// What a turn answers.
fn told(stop: Stop, taken: usize, quiet: bool, frames: u16) -> Turn
    ensures { result ≡ answer_of stop taken quiet frames }
{
    match stop {
        Stop::Control { end: true } => Turn::Ended { frames },
        Stop::Control { end: false } | Stop::Full => Turn::Worked { frames },
        Stop::Empty => {
            if taken == 0 && quiet {
                return Turn::Idle;
            }
            Turn::Worked { frames }
        }
    }
}
