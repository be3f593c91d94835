// A core's side of the rings between it and another core.
ghost use Rattle.std.specs.Prelude.{◌≡◌, ◌⊎◌, ◌++◌, ◌∷◌, [], IfOk, OnOk};
ghost use Rattle.ix_ring.specs.Ends.{put_list, spare, taken, SamePutEnd, SameTakeEnd};
ghost use Rattle.ix_core.specs.Links.{AreOpened, Hears, IsBehind, Keeps, SameLink, Sends};
ghost use Rattle.ix_core.specs.Landing.{Lands, TakesMessages};

use crate::message::{MeshEnd, Message};
use ix_base::{CoreId, NoMemory};
use ix_desk::{Desks, Shipment};
use ix_mbuf::Mbuf;
use ix_ring::{PutEnd, TakeEnd};
use ix_stack::GroupStack;
use std::alloc::Global;
use std::collections::VecDeque;

/// A core takes so many messages of another core in one turn.
pub const MOST_MESSAGES: usize = 256;

/// The rings from and to another core, the flow groups that came from there and aren't awaited yet, and the messages that wait for a place
/// on the ring to it.
#[derive(Drop)]
pub struct Link<G: GroupStack> {
    /// The other core.
    pub core: CoreId,
    /// Where messages from it are taken.
    pub take: TakeEnd<Message<G>>,
    /// Flow groups that came from it and aren't awaited yet.
    pub ships: VecDeque<Shipment<G>>,
    /// Where messages to it are put.
    pub put: PutEnd<Message<G>>,
    /// Messages to it that wait for a place.
    pub waiting: VecDeque<Message<G>>,
}

/// The links at the opening, one for each end of the mesh, in order.
pub fn open_links<G: GroupStack>(
    alloc: Global,
    mesh: Vec<MeshEnd<G>>,
) -> Result<Vec<Link<G>>, NoMemory>
    ensures { IfOk result (λ links. AreOpened mesh.items links.items) }
{
    let mut links = Vec::with_capacity(alloc, mesh.len())?;
    for end in mesh {
        let MeshEnd { core, put, take } = end;
        links.push_reserved(Link {
            core,
            take,
            ships: VecDeque::new(alloc),
            put,
            waiting: VecDeque::new(alloc),
        });
    }
    Ok(links)
}

// Takes messages, up to so many, and puts each behind those of its kind. Memory for them is taken first. Answers how many it took.
fn take_messages<G: GroupStack>(
    take: &mut TakeEnd<Message<G>>,
    ships: &mut VecDeque<Shipment<G>>,
    returns: &mut Vec<Mbuf>,
    most: usize,
) -> Result<usize, NoMemory>
    ensures ring { SameTakeEnd take.old take.new }
    ensures took { IfOk result (λ count. TakesMessages most count take.old take.new ships.old.items ships.new.items returns.old.items returns.new.items) }
{
    ships.reserve(most)?;
    returns.reserve(most)?;
    for count in 0..most {
        match take.take() {
            Some(Message::Ship(ship)) => ships.push_back_reserved(ship),
            Some(Message::Home(buf)) => returns.push_reserved(buf),
            None => return Ok(count),
        }
    }
    Ok(most)
}

// Flow groups that came from a core go to the desks, in order, as long as the next one is awaited. The core's place among the others is
// told to the history.
fn land_ships<G: GroupStack>(
    desks: &mut Desks<G>,
    env: &G::Env,
    place: usize,
    ships: &mut VecDeque<Shipment<G>>,
) -> Result<(), NoMemory>
    ensures { OnOk result (Lands G.counted G.name G.stepped G.advanced G.drained env.now place desks.old desks.new ships.old.items ships.new.items) }
{
    while let Some(ship) = ships.pop_front() {
        if !desks.welcomes(&ship) {
            ships.push_front_reserved(ship);
            return Ok(());
        }
        desks.arrive(ship)?;
    }
    Ok(())
}

/// Takes messages of a core, and lands the flow groups among them that are awaited. Answers whether there was one.
pub fn hear<G: GroupStack>(
    link: &mut Link<G>,
    place: usize,
    desks: &mut Desks<G>,
    env: &G::Env,
    returns: &mut Vec<Mbuf>,
) -> Result<bool, NoMemory>
    ensures same { SameLink link.old link.new }
    ensures heard { IfOk result (λ some. Hears G.counted G.name G.stepped G.advanced G.drained env.now place some link.old link.new desks.old desks.new returns.old.items returns.new.items) }
{
    let count = take_messages(&mut link.take, &mut link.ships, returns, MOST_MESSAGES)?;
    land_ships(desks, env, place, &mut link.ships)?;
    Ok(count > 0)
}

/// A message waits to go to a core.
pub fn keep<G: GroupStack>(link: &mut Link<G>, message: Message<G>) -> Result<(), NoMemory>
    ensures same { SameLink link.old link.new }
    ensures kept { OnOk result (Keeps message link.old link.new) }
{
    link.waiting.reserve(1)?;
    link.waiting.push_back_reserved(message);
    Ok(())
}

/// Puts the messages that wait, in order, as far as the ring takes them.
pub fn send<G: GroupStack>(link: &mut Link<G>)
    ensures same { SameLink link.old link.new }
    ensures sent { Sends link.old link.new }
    ensures behind { IsBehind link.new }
{
    while let Some(message) = link.waiting.pop_front() {
        if let Err(message) = link.put.put(message) {
            link.waiting.push_front_reserved(message);
            return;
        }
    }
}
