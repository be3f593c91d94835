// One core.
use crate::{Holder, Room};
use ix_base::{CoreId, GroupId, NoMemory, Ret, WireNo};
use ix_core::{Core, CoreEnds};
use ix_mbuf::{Mbuf, Pool};
use ix_ring::{PutEnd, ring};
use ix_run::Turn;
use ix_stack::Item;
use std::alloc::Global;
use std::test::Fail;

const GROUP: GroupId = GroupId(3);

// A core of the one group, with a batch of 64 and 200 buffers, of which so many are on its receive ring, each in a frame.
fn core_with_frames(alloc: Global, frames: u32) -> Result<(Core<Holder>, PutEnd<Item>), NoMemory> {
    let (mut put, items) = ring::<Item>(alloc, 512)?;
    let (posted, _posts) = ring::<Mbuf>(alloc, 512)?;
    let mut pool = Pool::new(alloc, CoreId(0), 200)?;
    for w in 0..frames {
        if let Some(buf) = pool.take() {
            let frame = Item::Frame {
                w: WireNo(w),
                group: GROUP,
                buf,
            };
            let _back = put.put(frame);
        }
    }
    let home = vec![in alloc; (GROUP, Holder::new(alloc)?)]?;
    let ends = CoreEnds {
        items,
        posted,
        mesh: Vec::new(alloc),
    };
    let core = Core::new(alloc, CoreId(0), pool, home, ends, 64)?;
    Ok((core, put))
}

#[test]
fn turns_take_whole_batches(rt: HostRuntime) -> Result<(), Fail> {
    let room = Room::new(5);
    let (mut core, mut put) = core_with_frames(rt.alloc(), 100)?;
    assert_eq!(rt; core.turn(&room)?, Turn::Worked { frames: 64 });
    assert_eq!(rt; core.turn(&room)?, Turn::Worked { frames: 36 });
    assert_eq!(rt; core.turn(&room)?, Turn::Idle);
    assert_eq!(rt; put.put(Item::End).is_ok(), true);
    assert_eq!(rt; core.turn(&room)?, Turn::Ended { frames: 0 });
    Ok(())
}

#[test]
fn connects_from_rising_ports(rt: HostRuntime) -> Result<(), Fail> {
    let room = Room::new(5);
    let (mut core, _put) = core_with_frames(rt.alloc(), 0)?;
    assert_eq!(rt; core.connect(&room, 0, 0, 80)?, Ret::NoNeighbour);
    for cookie in 0..4 {
        assert_eq!(rt;
            core.connect(&room, cookie, 0x0a00_0002, 80)?,
            Ret::Done(0),
            "{cookie}"
        );
    }
    assert_eq!(rt; core.connect(&room, 4, 0x0a00_0002, 80)?, Ret::TableFull);
    Ok(())
}
