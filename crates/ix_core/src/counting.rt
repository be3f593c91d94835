// Where the buffers of each home are.
ghost use Rattle.std.specs.Prelude.{◌≡◌, length, IfOk};
ghost use Rattle.ix_mbuf.specs.Owners.{one_at};
ghost use Rattle.ix_desk.specs.Desks.{group_at, groups_wait};
ghost use Rattle.ix_stack.specs.Works.{works_weight};
ghost use Rattle.ix_nic.specs.Ports.{capped};
ghost use Rattle.ix_core.specs.Counting.{AreHomes, frames_over, home_of, owned_at, owned_of, owned_over, owned_plus};

use crate::dealing::groups;
use crate::turning::Core;
use ix_base::{CoreId, GroupId, NoMemory, Owned};
use ix_desk::{Desks, Measure};
use ix_nic::Counts;
use ix_stack::{GroupStack, Work};
use std::alloc::Global;

/// The buffers of one core at a settle, by where they are. Each number stands still at its type's end.
#[derive(Clone, Copy, Debug, PartialEq, Eq)]
pub struct Home {
    /// Free in the core's pool.
    pub pool: u32,
    /// Posted to the core's ring, one that the card keeps among them.
    pub posted: u32,
    /// In frames that wait at a desk of any core.
    pub desk: u32,
    /// Held out of order by a flow group on any core.
    pub held: u32,
    /// Lent to the application by a flow group on any core.
    pub app: u32,
    /// Queued to be sent by a flow group on any core.
    pub queue: u32,
}

// Whether an item is a frame in a buffer of this home, as a number.
#[derive(Drop)]
struct FramesOf {
    home: CoreId,
}

impl Measure<Work> for FramesOf {
    ghost use Rattle.ix_mbuf.specs.Owners.{one_at};
    ghost use Rattle.ix_stack.specs.Works.{work_weight};

    ghost amount = { λ frames work. work_weight (one_at frames.home.0) work };

    fn of(&self, work: &Work) -> u32 {
        match work {
            Work::Frame(taken) => {
                if taken.buf.id().home.0 == self.home.0 {
                    return 1;
                }
                0
            }
            Work::Time { w: _, t: _ } => 0,
        }
    }
}

// The frames in buffers of a home that wait at a core's desks.
fn frames_at<G: GroupStack>(desks: &Desks<G>, home: CoreId) -> u32
    ensures { result ≡ capped (works_weight (one_at home.0) (groups_wait desks.now)) }
{
    desks.amount(&FramesOf { home })
}

// Those that wait at the desks of any core.
fn all_frames<G: GroupStack>(cores: &[Core<G>], home: CoreId) -> u32
    ensures { result ≡ capped (frames_over home.0 cores.now) }
{
    let mut count = 0u32;
    for core in cores {
        let here = frames_at(&core.desks, home);
        count = count.saturating_add(here);
    }
    count
}

fn plus(a: Owned, b: Owned) -> Owned
    ensures { result ≡ owned_plus a b }
{
    Owned {
        held: a.held.saturating_add(b.held),
        app: a.app.saturating_add(b.app),
        queue: a.queue.saturating_add(b.queue),
    }
}

// What a flow group owns of a home, if it is here.
fn group_owned<G: GroupStack>(desks: &Desks<G>, g: GroupId, home: CoreId) -> Owned
    ensures { result ≡ owned_at G.owners home.0 (group_at desks.now g.0) }
{
    match desks.unit(g) {
        Some(unit) => unit.owned(home),
        None => Owned {
            held: 0,
            app: 0,
            queue: 0,
        },
    }
}

// What the flow groups on a core own of a home.
fn desks_owned<G: GroupStack>(desks: &Desks<G>, home: CoreId) -> Owned
    ensures { result ≡ owned_of G.owners home.0 desks.now.groups }
{
    let mut sum = Owned {
        held: 0,
        app: 0,
        queue: 0,
    };
    let count = groups(desks);
    for g in 0..count {
        let here = group_owned(desks, GroupId(g), home);
        sum = plus(sum, here);
    }
    sum
}

// What the flow groups on any core own of a home.
fn all_owned<G: GroupStack>(cores: &[Core<G>], home: CoreId) -> Owned
    ensures { result ≡ owned_over G.owners home.0 cores.now }
{
    let mut sum = Owned {
        held: 0,
        app: 0,
        queue: 0,
    };
    for core in cores {
        let here = desks_owned(&core.desks, home);
        sum = plus(sum, here);
    }
    sum
}

// Where the buffers of a core are, of which so many are posted.
fn home_of<G: GroupStack>(cores: &[Core<G>], own: &Core<G>, posted: u32) -> Home
    ensures { result ≡ home_of G.owners cores.now own.now posted }
{
    let home = own.pool.home();
    let desk = all_frames(cores, home);
    let Owned { held, app, queue } = all_owned(cores, home);
    Home {
        pool: own.pool.free(),
        posted,
        desk,
        held,
        app,
        queue,
    }
}

/// Where the buffers of each core are, with the counts of the rings.
pub fn homes_of<G: GroupStack>(
    alloc: Global,
    cores: &[Core<G>],
    rings: &[Counts],
) -> Result<Vec<Home>, NoMemory>
    requires { length rings.now ≡ length cores.now }
    ensures { IfOk result (λ homes. AreHomes G.owners (length cores.now) cores.now rings.now homes.items) }
{
    let mut homes = Vec::new(alloc);
    for place in 0..cores.len() {
        let home = home_of(cores, &cores[place], rings[place].posted);
        homes.push(home)?;
    }
    Ok(homes)
}
