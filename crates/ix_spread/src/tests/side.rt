// A core that posts buffers and takes items, and does nothing with them.

use super::wanted::{Name, Wanted};
use ix_base::CoreId;
use ix_mbuf::{Mbuf, Pool};
use ix_nic::Item;
use ix_ring::{PutEnd, TakeEnd};
use std::process::Abort;
use std::test::Fail;

#[derive(Drop)]
pub(super) struct Side {
    pub(super) core: CoreId,
    pub(super) items: TakeEnd<Item>,
    pub(super) posted: PutEnd<Mbuf>,
    pub(super) pool: Pool,
}

impl Side {
    // Takes back a buffer of this core's, which has to be out.
    pub(super) fn give<R: Abort>(&mut self, rt: &R, buf: Mbuf) {
        let out = self.pool.is_out(buf.id());
        assert!(rt; out, "{:?}", buf.id());
        self.pool.give(buf);
    }

    // Posts so many buffers, as long as one is free and the ring takes it.
    pub(super) fn post_some<R: Abort>(&mut self, rt: &R, most: u64) {
        for _ in 0..most {
            let Some(buf) = self.pool.take() else {
                return;
            };
            if let Err(buf) = self.posted.put(buf) {
                self.give(rt, buf);
                return;
            }
        }
    }

    // Takes so many items, as long as there is one, each of which has to be the one that is wanted next.
    pub(super) fn take_some<R: Abort>(
        &mut self,
        rt: &R,
        wanted: &mut Wanted,
        most: u64,
    ) -> Result<(), Fail> {
        for _ in 0..most {
            let Some(item) = self.items.take() else {
                return Ok(());
            };
            let name = self.named(rt, item);
            assert_eq!(rt; name, wanted.take(self.core)?);
        }
        Ok(())
    }

    // The name of an item. A frame's buffer is taken back.
    fn named<R: Abort>(&mut self, rt: &R, item: Item) -> Option<Name> {
        match item {
            Item::Frame { w, group, buf } => {
                self.give(rt, buf);
                Some(Name::Frame { w, group })
            }
            Item::Tag { group } => Some(Name::Tag { group }),
            Item::Cut { group, to } => Some(Name::Cut { group, to }),
            Item::Start { group, tenure } => Some(Name::Start { group, tenure }),
            Item::Time { w, t: _ } => Some(Name::Time { w }),
            Item::End => None,
        }
    }
}
