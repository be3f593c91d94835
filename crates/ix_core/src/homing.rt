// Buffers that are under way go home.
ghost use Rattle.std.specs.Prelude.{◌≡◌, ◌≤◌, ◌-◌, ◌++◌, ◌∷◌, [], length, min, OnOk};
ghost use Rattle.ix_ring.specs.Ends.{known, taken, SameTakeEnd};
ghost use Rattle.ix_desk.specs.Pieces.{joined};
ghost use Rattle.ix_core.specs.Landing.{home_in, ship_in};
ghost use Rattle.ix_core.specs.Homing.{AllHomed, CoreEmptied, EachIs, HasNoShips, HaveNoShips, AreNumbered, LinkEmptied, NoShipsAmong, TakesBack, core_returns, link_returns};

use crate::link::Link;
use crate::message::Message;
use crate::turning::Core;
use ix_base::{BufId, NoMemory};
use ix_mbuf::Mbuf;
use ix_ring::TakeEnd;
use ix_stack::GroupStack;
use std::collections::VecDeque;

// The buffer of a message that is on its way home.
fn into_buffer<G: GroupStack>(message: Message<G>) -> Mbuf
    requires { ship_in message ≡ [] }
    ensures { home_in message ≡ result ∷ [] }
{
    match message {
        Message::Home(buf) => buf,
        Message::Ship(_ship) => unreachable!(),
    }
}

// Takes the messages that are known to be on a ring. Each is a buffer on its way home.
fn empty_ring<G: GroupStack>(
    take: &mut TakeEnd<Message<G>>,
    bufs: &mut Vec<Mbuf>,
) -> Result<(), NoMemory>
    requires { joined ship_in (known take.old) ≡ [] }
    ensures ring { SameTakeEnd take.old take.new }
    ensures took { OnOk result (taken take.new ≡ taken take.old ++ known take.old) }
    ensures bufs { OnOk result (bufs.new.items ≡ bufs.old.items ++ joined home_in (known take.old)) }
{
    let count = take.known_count();
    for _i in 0..count {
        let Some(message) = take.take() else {
            unreachable!()
        };
        let buf = into_buffer(message);
        bufs.push(buf)?;
    }
    Ok(())
}

// Takes the messages that wait for a place on a ring. Each is a buffer on its way home.
fn empty_waiting<G: GroupStack>(
    waiting: &mut VecDeque<Message<G>>,
    bufs: &mut Vec<Mbuf>,
) -> Result<(), NoMemory>
    requires { joined ship_in waiting.old.items ≡ [] }
    ensures none { OnOk result (waiting.new.items ≡ []) }
    ensures bufs { OnOk result (bufs.new.items ≡ bufs.old.items ++ joined home_in waiting.old.items) }
{
    while let Some(message) = waiting.pop_front() {
        let buf = into_buffer(message);
        bufs.push(buf)?;
    }
    Ok(())
}

// Takes the buffers that return over a link.
fn empty_link<G: GroupStack>(link: &mut Link<G>, bufs: &mut Vec<Mbuf>) -> Result<(), NoMemory>
    requires { HasNoShips link.old }
    ensures emptied { OnOk result (LinkEmptied link.old link.new) }
    ensures bufs { OnOk result (bufs.new.items ≡ bufs.old.items ++ link_returns link.old) }
{
    empty_ring(&mut link.take, bufs)?;
    empty_waiting(&mut link.waiting, bufs)?;
    Ok(())
}

// Takes those that return over all links of a core.
fn empty_links<G: GroupStack>(
    links: &mut Vec<Link<G>>,
    bufs: &mut Vec<Mbuf>,
) -> Result<(), NoMemory>
    requires { HaveNoShips links.old.items }
    ensures emptied { OnOk result (EachIs LinkEmptied links.old.items links.new.items) }
    ensures bufs { OnOk result (bufs.new.items ≡ bufs.old.items ++ joined link_returns links.old.items) }
{
    for place in 0..links.len() {
        let link = &mut links[place];
        empty_link(link, bufs)?;
    }
    Ok(())
}

// Takes the buffers that return at a core.
fn empty_core<G: GroupStack>(core: &mut Core<G>, bufs: &mut Vec<Mbuf>) -> Result<(), NoMemory>
    requires { HaveNoShips core.old.links.items }
    ensures emptied { OnOk result (CoreEmptied core.old core.new) }
    ensures bufs { OnOk result (bufs.new.items ≡ bufs.old.items ++ core_returns core.old) }
{
    empty_links(&mut core.links, bufs)?;
    bufs.append(&mut core.returns)?;
    Ok(())
}

/// Takes the buffers that return at all cores, where no flow group is under way.
pub fn empty_cores<G: GroupStack>(
    cores: &mut [Core<G>],
    bufs: &mut Vec<Mbuf>,
) -> Result<(), NoMemory>
    requires { NoShipsAmong cores.old }
    ensures emptied { OnOk result (EachIs CoreEmptied cores.old cores.new) }
    ensures bufs { OnOk result (bufs.new.items ≡ bufs.old.items ++ joined core_returns cores.old) }
{
    for place in 0..cores.len() {
        let core = &mut cores[place];
        empty_core(core, bufs)?;
    }
    Ok(())
}

// The place of the core whose buffer this is; that of the last core, where there is no such core.
fn place_of_home(id: BufId, count: usize) -> usize
    requires { 1 ≤ count }
    ensures { result ≡ min id.home.0 (count - 1) }
{
    usize::from(id.home.0).min(count - 1)
}

// A buffer goes to a core's pool, where it is out of it; else it is to be tried again.
fn take_back<G: GroupStack>(core: &mut Core<G>, buf: Mbuf) -> Result<(), NoMemory>
    ensures { OnOk result (TakesBack buf core.old core.new) }
{
    if core.pool.is_out(buf.id()) {
        core.pool.give(buf);
        return Ok(());
    }
    core.returns.push(buf)?;
    Ok(())
}

// A buffer goes home.
fn bring_home<G: GroupStack>(cores: &mut [Core<G>], buf: Mbuf) -> Result<(), NoMemory>
    requires some { 1 ≤ length cores.old }
    requires order { AreNumbered cores.old }
    ensures { OnOk result (AllHomed (buf ∷ []) cores.old cores.new) }
{
    let place = place_of_home(buf.id(), cores.len());
    let core = &mut cores[place];
    take_back(core, buf)?;
    Ok(())
}

/// Buffers go home, each to the pool of its core.
pub fn bring_all_home<G: GroupStack>(cores: &mut [Core<G>], bufs: Vec<Mbuf>) -> Result<(), NoMemory>
    requires some { 1 ≤ length cores.old }
    requires order { AreNumbered cores.old }
    ensures { OnOk result (AllHomed bufs.items cores.old cores.new) }
{
    for buf in bufs {
        bring_home(cores, buf)?;
    }
    Ok(())
}
