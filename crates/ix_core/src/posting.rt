// Free buffers for the card.
ghost use Rattle.std.specs.Prelude.{◌≡◌, OnOk};
ghost use Rattle.ix_ring.specs.Ends.{SamePutEnd};
ghost use Rattle.ix_core.specs.Posting.{Posts};

use ix_base::NoMemory;
use ix_mbuf::{Mbuf, Pool};
use ix_ring::PutEnd;

/// Posts free buffers, at most so many. Where the ring takes no more, the buffer at hand is to be given back.
pub fn post(
    pool: &mut Pool,
    posted: &mut PutEnd<Mbuf>,
    returns: &mut Vec<Mbuf>,
    most: usize,
) -> Result<(), NoMemory>
    ensures ring { SamePutEnd posted.old posted.new }
    ensures home { pool.new.home ≡ pool.old.home }
    ensures posts { OnOk result (Posts most pool.old pool.new posted.old posted.new returns.old.items returns.new.items) }
{
    returns.reserve(1)?;
    // asked for what it says of the free buffers
    let _free = pool.free();
    for _i in 0..most {
        let Some(buf) = pool.take() else {
            return Ok(());
        };
        if let Err(buf) = posted.put(buf) {
            returns.push_reserved(buf);
            return Ok(());
        }
    }
    Ok(())
}
