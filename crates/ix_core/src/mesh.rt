// All links of a core.
ghost use Rattle.std.specs.Prelude.{◌≡◌, ◌<◌, ◌||◌, [], ◌∷◌, OnOk, IfOk, IfSome, IfNone, false, length, true};
ghost use Rattle.std.specs.List.{list_any};
ghost use Rattle.ix_desk.specs.Desks.{NothingDone};
ghost use Rattle.ix_core.specs.Links.{AllBehind, Brings, Departs, Drains, Frees, HearsAll, Leaves, LinksRan, SameLinks, all_out, cores_of, is_first, is_known, link_waits, takes_of};

use crate::dealing::groups;
use crate::link::{Link, hear, keep, send};
use crate::message::Message;
use ix_base::{CoreId, GroupId, NoMemory};
use ix_desk::{Desks, Shipment};
use ix_mbuf::Mbuf;
use ix_stack::GroupStack;
use std::alloc::Global;

/// Takes messages of all other cores, and lands the flow groups among them that are awaited. Answers whether there was a message.
pub fn hear_all<G: GroupStack>(
    links: &mut Vec<Link<G>>,
    desks: &mut Desks<G>,
    env: &G::Env,
    returns: &mut Vec<Mbuf>,
) -> Result<bool, NoMemory>
    ensures same { SameLinks links.old.items links.new.items }
    ensures heard { IfOk result (λ some. HearsAll G.counted G.name G.stepped G.advanced G.drained env.now some links.old.items links.new.items desks.old desks.new returns.old.items returns.new.items) }
{
    let mut some = false;
    for place in 0..links.len() {
        let link = &mut links[place];
        let heard = hear(link, place, desks, env, returns)?;
        some = either(some, heard);
    }
    Ok(some)
}

// Whether there was one before, or now.
fn either(before: bool, now: bool) -> bool
    ensures { result ≡ (before || now) }
{
    before || now
}

// The place of the link to a core.
fn place_of<G: GroupStack>(links: &[Link<G>], core: CoreId) -> Option<usize>
    ensures found { IfSome result (λ i. (i < length links.now) × (is_first (cores_of links.now) i core.0 ≡ true)) }
    ensures known { IfSome result (λ i. is_known (cores_of links.now) core.0 ≡ true) }
    ensures none { IfNone result (is_known (cores_of links.now) core.0 ≡ false) }
{
    for (i, link) in links.iter().enumerate() {
        if link.core.0 == core.0 {
            return Some(i);
        }
    }
    None
}

// A buffer waits to go to its home, or where no ring goes there it is to be given to the pool.
fn bring<G: GroupStack>(
    links: &mut Vec<Link<G>>,
    returns: &mut Vec<Mbuf>,
    buf: Mbuf,
) -> Result<(), NoMemory>
    ensures same { SameLinks links.old.items links.new.items }
    ensures brought { OnOk result (Brings (buf ∷ []) links.old.items links.new.items returns.old.items returns.new.items) }
{
    match place_of(links.as_slice(), buf.id().home) {
        Some(place) => {
            let link = &mut links[place];
            keep(link, Message::Home(buf))?;
            Ok(())
        }
        None => {
            returns.push(buf)?;
            Ok(())
        }
    }
}

// Each of these buffers.
fn bring_all<G: GroupStack>(
    links: &mut Vec<Link<G>>,
    returns: &mut Vec<Mbuf>,
    bufs: Vec<Mbuf>,
) -> Result<(), NoMemory>
    ensures same { SameLinks links.old.items links.new.items }
    ensures brought { OnOk result (Brings bufs.items links.old.items links.new.items returns.old.items returns.new.items) }
{
    for buf in bufs {
        bring(links, returns, buf)?;
    }
    Ok(())
}

// What a flow group that is here doesn't need any more.
fn drain_group<G: GroupStack>(
    alloc: Global,
    desks: &mut Desks<G>,
    env: &G::Env,
    g: GroupId,
) -> Result<Vec<Mbuf>, NoMemory>
    ensures { IfOk result (λ bufs. Frees G.counted G.name G.stepped G.advanced G.drained env.now g.0 bufs.items desks.old desks.new) }
{
    let Some(unit) = desks.unit_mut(g) else {
        return Ok(Vec::new(alloc));
    };
    let bufs = unit.freed()?;
    Ok(bufs)
}

/// Takes from all flow groups the buffers that they don't need any more.
pub fn drain_all<G: GroupStack>(
    alloc: Global,
    desks: &mut Desks<G>,
    env: &G::Env,
    links: &mut Vec<Link<G>>,
    returns: &mut Vec<Mbuf>,
) -> Result<(), NoMemory>
    ensures same { SameLinks links.old.items links.new.items }
    ensures drained { OnOk result (Drains G.counted G.name G.stepped G.advanced G.drained env.now links.old.items links.new.items desks.old desks.new returns.old.items returns.new.items) }
{
    let count = groups(desks);
    for g in 0..count {
        let bufs = drain_group(alloc, desks, env, GroupId(g))?;
        bring_all(links, returns, bufs)?;
    }
    Ok(())
}

// A flow group waits to go to its core, or where no ring goes there it is kept.
fn depart<G: GroupStack>(
    links: &mut Vec<Link<G>>,
    lost: &mut Vec<Shipment<G>>,
    ship: Shipment<G>,
) -> Result<(), NoMemory>
    ensures same { SameLinks links.old.items links.new.items }
    ensures departs { OnOk result (Departs ship links.old.items links.new.items lost.old.items lost.new.items) }
{
    match place_of(links.as_slice(), ship.to) {
        Some(place) => {
            let link = &mut links[place];
            keep(link, Message::Ship(ship))?;
            Ok(())
        }
        None => {
            lost.push(ship)?;
            Ok(())
        }
    }
}

/// Takes from the desks the flow groups that are to leave.
pub fn ship_all<G: GroupStack>(
    desks: &mut Desks<G>,
    env: &G::Env,
    links: &mut Vec<Link<G>>,
    lost: &mut Vec<Shipment<G>>,
) -> Result<(), NoMemory>
    ensures same { SameLinks links.old.items links.new.items }
    ensures leaves { OnOk result (Leaves G.counted G.name G.stepped G.advanced G.drained env.now links.old.items links.new.items desks.old desks.new lost.old.items lost.new.items) }
    ensures none { OnOk result (desks.old.failed ≡ false → NothingDone desks.new) }
{
    while let Some(ship) = desks.ship() {
        depart(links, lost, ship)?;
    }
    Ok(())
}

/// Whether a message waits for a place on its ring.
pub fn any_waits<G: GroupStack>(links: &[Link<G>]) -> bool
    ensures { result ≡ list_any link_waits links.now }
{
    links.iter().any(|link| !link.waiting.is_empty())
}

/// Puts the messages that wait, as far as the rings take them.
pub fn send_all<G: GroupStack>(links: &mut Vec<Link<G>>)
    ensures same { SameLinks links.old.items links.new.items }
    ensures sent { LinksRan [] [] [] links.old.items links.new.items }
    ensures takes { takes_of links.new.items ≡ takes_of links.old.items }
    ensures whole { all_out links.new.items ≡ all_out links.old.items }
    ensures behind { AllBehind links.new.items }
{
    for place in 0..links.len() {
        let link = &mut links[place];
        send(link);
    }
}
