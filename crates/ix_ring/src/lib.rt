//! Rings between two threads: one end puts, the other takes, and neither ever waits.
//!
//! A worker's `put` and `take` speak of its own end alone. While no worker runs, the thread that holds both ends learns by `meet` what
//! is left in a ring, and makes a ring anew by `fresh`; the ends keep what they learned and carry it to the next workers.
#![tactic(auto)]

mod ends;

pub use ends::{PutEnd, TakeEnd, fresh, meet, ring};

#[cfg(test)]
mod tests {
    use super::*;
    use std::test::Fail;

    #[test]
    fn a_ring_of_three(rt: HostRuntime) -> Result<(), Fail> {
        let (mut put, mut take) = ring::<u32>(rt.alloc(), 3)?;
        for item in 0..3 {
            assert_eq!(rt; put.put(item), Ok(()), "put {item}");
        }
        assert_eq!(rt; put.put(9), Err(9), "a full ring");
        assert_eq!(rt; take.take(), Some(0));
        Ok(())
    }

    #[test]
    fn a_ring_made_anew(rt: HostRuntime) -> Result<(), Fail> {
        let (mut put, mut take) = ring::<u32>(rt.alloc(), 3)?;
        assert_eq!(rt; put.put(0), Ok(()));
        assert_eq!(rt; put.put(1), Ok(()));
        assert_eq!(rt; put.put(2), Ok(()));
        assert_eq!(rt; take.take(), Some(0));
        fresh(rt.alloc(), &mut put, &mut take)?;
        assert_eq!(rt; put.put(7), Ok(()));
        assert_eq!(rt; put.put(9), Err(9), "two were left of three places");
        meet(&mut put, &mut take);
        assert_eq!(rt; take.take(), Some(1));
        assert_eq!(rt; take.take(), Some(2));
        assert_eq!(rt; take.take(), Some(7));
        assert_eq!(rt; take.take(), None);
        Ok(())
    }
}
