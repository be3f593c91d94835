ghost use Rattle.ix_tcpdef.specs.Sound.{IsInRange};

use crate::{ALL_STATES, Peer, first_apart, side_by_side};
use ix_base::NoMemory;
use ix_tcpdef::Cfg;
use std::alloc::Global;
use std::process::Abort;

/// Small windows and segments, and a connection that takes long to give up.
fn small() -> Cfg
    ensures { IsInRange result }
{
    Cfg {
        window: 100,
        mss: 64,
        rto: 200,
        retries: 8,
        time_wait: 400,
    }
}

fn usual() -> Cfg
    ensures { IsInRange result }
{
    Cfg {
        window: 32_768,
        mss: 1460,
        rto: 60_000,
        retries: 4,
        time_wait: 60_000,
    }
}

/// Sixty-four moments from each of sixteen seeds.
fn all_seeds(rt: &impl Abort, alloc: Global, cfg: &Cfg, peer: Peer) -> Result<(), NoMemory>
    requires { IsInRange cfg.now }
{
    for seed in 0..16 {
        let apart = first_apart(alloc, cfg, peer, seed, 64)?;
        assert_eq!(rt; apart, None, "seed {seed}");
    }
    Ok(())
}

#[test]
fn small_segments(rt: HostRuntime) -> Result<(), NoMemory> {
    let peer = Peer {
        window: 1000,
        mss: 64,
    };
    all_seeds(&rt, rt.alloc(), &small(), peer)
}

#[test]
fn closed_window(rt: HostRuntime) -> Result<(), NoMemory> {
    let peer = Peer {
        window: 0,
        mss: 536,
    };
    all_seeds(&rt, rt.alloc(), &usual(), peer)
}

#[test]
fn large_segments(rt: HostRuntime) -> Result<(), NoMemory> {
    let peer = Peer {
        window: 65_535,
        mss: 1460,
    };
    all_seeds(&rt, rt.alloc(), &usual(), peer)
}

/// Ninety-six moments from each of sixteen seeds, of connections that the peer opens and of such that are opened towards it. Answers the
/// states that they were in.
fn all_meetings(rt: &impl Abort, alloc: Global, cfg: &Cfg, peer: Peer) -> Result<u16, NoMemory>
    requires { IsInRange cfg.now }
{
    let mut seen = 0;
    for seed in 0..16 {
        let passive = side_by_side(alloc, cfg, peer, seed, 96, false)?;
        assert_eq!(rt; passive.apart, None, "passive, seed {seed}");
        let active = side_by_side(alloc, cfg, peer, seed, 96, true)?;
        assert_eq!(rt; active.apart, None, "active, seed {seed}");
        seen = seen | passive.seen | active.seen;
    }
    Ok(seen)
}

#[test]
fn arriving_segments(rt: HostRuntime) -> Result<(), NoMemory> {
    let near = Peer {
        window: 1000,
        mss: 64,
    };
    let far = Peer {
        window: 65_535,
        mss: 1460,
    };
    let small = all_meetings(&rt, rt.alloc(), &small(), near)?;
    let usual = all_meetings(&rt, rt.alloc(), &usual(), far)?;
    assert_eq!(rt; small | usual, ALL_STATES);
    Ok(())
}
