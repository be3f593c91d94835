// The functions that hold both ends of a ring, on the thread that no worker runs beside.
ghost use Rattle.std.specs.Prelude.{◌≡◌, ◌+◌, ◌≤◌, [], ◌++◌, length, IfOk, OnOk, OnErr};
ghost use mathlib.Core.List.{IsPrefix};
ghost use Rattle.ix_ring.specs.Ends.{put_list, spare, places, taken, known, IsRing, SamePutEnd, SameTakeEnd};

use super::{PutEnd, TakeEnd};
use ix_base::NoMemory;
use rtrb::RingBuffer;
use std::alloc::Global;

/// A ring of `n` places.
pub fn ring<T: Drop>(alloc: Global, n: usize) -> Result<(PutEnd<T>, TakeEnd<T>), NoMemory>
    requires { 1 ≤ n }
    ensures pair { IfOk result (λ r. IsRing r.0 r.1) }
    ensures put { IfOk result (λ r. (put_list r.0 ≡ []) × (spare r.0 ≡ n) × (places r.0 ≡ n)) }
    ensures take { IfOk result (λ r. (taken r.1 ≡ []) × (known r.1 ≡ [])) }
{
    let (producer, consumer) = RingBuffer::new(alloc, n)?;
    Ok((PutEnd { producer, spare: n }, TakeEnd { consumer }))
}

/// Tells both ends what stands in the ring. What was taken and then what is left is what was put.
pub fn meet<T>(put: &mut PutEnd<T>, take: &mut TakeEnd<T>)
    requires { IsRing put.old take.old }
    ensures pair { IsRing put.new take.new }
    ensures put { SamePutEnd put.old put.new × (put_list put.new ≡ put_list put.old) × (spare put.old ≤ spare put.new) }
    ensures take { SameTakeEnd take.old take.new × (taken take.new ≡ taken take.old) }
    ensures known { IsPrefix (known take.old) (known take.new) }
    ensures all { put_list put.new ≡ taken take.new ++ known take.new }
    ensures room { spare put.new + length (known take.new) ≡ places put.new }
{
    let free = put.producer.slots_beside(&mut take.consumer);
    take.consumer.slots_beside(&mut put.producer);
    put.spare = free;
}

/// Makes a new ring of as many places, moves the items that are left into it, in order, and gives its ends in place of the old ones.
/// Where memory runs out, both ends keep their items.
pub fn fresh<T: Drop>(
    alloc: Global,
    put: &mut PutEnd<T>,
    take: &mut TakeEnd<T>,
) -> Result<(), NoMemory>
    requires { IsRing put.old take.old }
    ensures pair { IsRing put.new take.new }
    ensures places { places put.new ≡ places put.old }
    ensures known { IsPrefix (known take.old) (known take.new) }
    ensures room { spare put.old ≤ spare put.new }
    ensures ok { OnOk result ((put_list put.old ≡ taken take.old ++ put_list put.new) × (taken take.new ≡ []) × (known take.new ≡ put_list put.new) × (spare put.new + length (known take.new) ≡ places put.new)) }
    ensures err { OnErr result ((put_list put.new ≡ put_list put.old) × (taken take.new ≡ taken take.old) × (put_list put.new ≡ taken take.new ++ known take.new) × (spare put.old ≤ spare put.new)) }
{
    meet(put, take);
    let (mut new_put, mut new_take) = ring(alloc, put.producer.capacity())?;
    move_items(take, &mut new_put);
    new_take.consumer.slots_beside(&mut new_put.producer);
    *put = new_put;
    *take = new_take;
    Ok(())
}

// Moves the items that the take end knows of to another ring.
fn move_items<T>(from: &mut TakeEnd<T>, into: &mut PutEnd<T>)
    requires { length (known from.old) ≤ spare into.old }
    ensures ring { SamePutEnd into.old into.new }
    ensures put { put_list into.new ≡ put_list into.old ++ known from.old }
    ensures spare { spare into.new + length (known from.old) ≡ spare into.old }
{
    let left = from.known_count();
    for _i in 0..left {
        let item = from.take_known();
        into.put_reserved(item);
    }
}
