// A settle, and what is told of it.
ghost use Rattle.std.specs.Prelude.{◌≡◌, map, IfOk};
ghost use Rattle.ix_core.specs.Meeting.{AreInOrder};
ghost use Rattle.ix_core.specs.Settling.{CanSettle};
ghost use Rattle.ix_engine.specs.Steps.{HaveMet, IsSettledBy, home_line, ring_line};

use ix_base::{List, NoMemory};
use ix_core::{Core, Home, SettleReport, meet_all, settle};
use ix_lines::{HomeLine, RingLine, SettleLine};
use ix_nic::{Counts, Nic};
use ix_plainstack::PlainStack;
use std::alloc::Global;

fn ring_line(counts: Counts) -> RingLine
    ensures { result ≡ ring_line counts }
{
    RingLine {
        posted: counts.posted,
        frames: counts.frames,
        items: counts.items,
    }
}

fn home_line(home: Home) -> HomeLine
    ensures { result ≡ home_line home }
{
    HomeLine {
        pool: home.pool,
        posted: home.posted,
        desk: home.desk,
        held: home.held,
        app: home.app,
        queue: home.queue,
    }
}

fn ring_lines(alloc: Global, rings: &[Counts]) -> Result<Vec<RingLine>, NoMemory>
    ensures { IfOk result (λ lines. lines.items ≡ map ring_line rings.now) }
{
    let mut lines = Vec::new(alloc);
    for counts in rings {
        lines.push(ring_line(*counts))?;
    }
    Ok(lines)
}

fn home_lines(alloc: Global, homes: &[Home]) -> Result<Vec<HomeLine>, NoMemory>
    ensures { IfOk result (λ lines. lines.items ≡ map home_line homes.now) }
{
    let mut lines = Vec::new(alloc);
    for home in homes {
        lines.push(home_line(*home))?;
    }
    Ok(lines)
}

/// Settles a card and its cores, after a meeting at the end of an epoch, and tells of it.
pub fn settle_cores(
    alloc: Global,
    nic: &mut Nic,
    cores: &mut Vec<Core<PlainStack>>,
) -> Result<SettleLine, NoMemory>
    requires { CanSettle nic.old cores.old.items }
    ensures { IfOk result (λ line. IsSettledBy line nic.old nic.new cores.old.items cores.new.items) }
{
    let report = settle(alloc, nic, cores.as_mut_slice())?;
    let rings = ring_lines(alloc, report.rings.as_slice())?;
    let homes = home_lines(alloc, report.homes.as_slice())?;
    Ok(SettleLine {
        rings: List::from_vec(rings),
        homes: List::from_vec(homes),
    })
}

/// Tells both ends of each ring of a card and its cores, in order, what stands in it.
pub fn meet_cores(nic: &mut Nic, cores: &mut Vec<Core<PlainStack>>)
    requires { AreInOrder nic.old cores.old.items }
    ensures { HaveMet nic.old nic.new cores.old.items cores.new.items }
{
    meet_all(nic, cores.as_mut_slice());
}
