// What no clause says: plans from outside, and that memory is enough.
ghost use Rattle.std.specs.Prelude.{◌<◌};

use crate::{Cores, plan_add, plan_revoke};
use ix_base::{CoreId, NoMemory};
use std::alloc::Global;
use std::test::Fail;

// The cores of the places at the start of a play: place by place, over the first so many cores.
fn opening(alloc: Global, places: u16, live: u16) -> Result<Vec<CoreId>, NoMemory>
    requires { (0 < live) × (live < 256) }
{
    let mut at = Vec::new(alloc);
    for place in 0..places {
        at.push(CoreId((place % live) as u8))?;
    }
    Ok(at)
}

fn first_live(live: u8, count: u8) -> Cores {
    Cores {
        live: [
            live > 0,
            live > 1,
            live > 2,
            live > 3,
            live > 4,
            live > 5,
            live > 6,
            live > 7,
        ],
        count,
    }
}

#[test]
fn a_third_core(rt: HostRuntime) -> Result<(), Fail> {
    let alloc = rt.alloc();
    let cores = first_live(2, 3);
    for (places, want) in [(128u16, 42usize), (512, 170)] {
        let at = opening(alloc, places, 2)?;
        assert!(rt; at.len() <= 512);
        let moves = plan_add(alloc, &at, &cores, CoreId(2))?;
        assert_eq!(rt; moves.len(), want);
        for (i, one) in moves.iter().enumerate() {
            assert_eq!(rt; (one.group.0 as usize, one.to), (i, CoreId(2)));
        }
    }
    Ok(())
}

#[test]
fn one_of_two_leaves(rt: HostRuntime) -> Result<(), Fail> {
    let alloc = rt.alloc();
    let cores = first_live(2, 2);
    let at = opening(alloc, 128, 2)?;
    assert!(rt; at.len() <= 512);
    let moves = plan_revoke(alloc, &at, &cores, CoreId(1))?;
    assert_eq!(rt; moves.len(), 64);
    for (i, one) in moves.iter().enumerate() {
        assert_eq!(rt; (one.group.0 as usize, one.to), (2 * i + 1, CoreId(0)));
    }
    Ok(())
}
