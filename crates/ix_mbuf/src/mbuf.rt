// One packet buffer.
ghost use Rattle.std.specs.Prelude.{◌≡◌, ◌≤◌, [], length, IfOk};
ghost use Rattle.ix_mbuf.specs.Buffers.{Buffer, next_use};

use crate::name::Name;
use ix_base::{BUFFER_BYTES, BufId, NoMemory};
use std::alloc::Global;
use std::marker::Model;

/// A buffer of 2,048 bytes, of which those of one frame are filled. It is moved and never copied, so that it has one owner at each time.
/// It may be dropped only because a play can end for want of memory.
#[derive(Drop)]
pub struct Mbuf {
    name: Name,
    frame: Vec<u8>,
}

impl Model for Mbuf {
    ghost use Rattle.std.specs.Prelude.{◌≤◌, vec_capacity, length};
    ghost use Rattle.ix_mbuf.specs.Buffers.{Buffer};

    ghost Value = { Buffer };

    ghost view = { λ m. record { name = m.name; bytes = m.frame.items } };

    ghost invariant = { λ m. (2048 ≤ vec_capacity m.frame) × (length m.frame.items ≤ 2048) };
}

impl Mbuf {
    pub(crate) fn new(alloc: Global, id: BufId) -> Result<Mbuf, NoMemory>
        ensures { IfOk result (λ m. m ≡ record { name = record { id = id; uses = 0 }; bytes = [] }) }
    {
        let frame = Vec::with_capacity(alloc, BUFFER_BYTES)?;
        Ok(Mbuf {
            name: Name { id, uses: 0 },
            frame,
        })
    }

    /// The buffer's id: its pool's core, and its slot there.
    pub fn id(&self) -> BufId
        ensures { result ≡ self.now.name.id }
    {
        self.name.id
    }

    /// The buffer's name: its id, and how often it was filled.
    pub fn name(&self) -> Name
        ensures { result ≡ self.now.name }
    {
        self.name
    }

    /// The bytes of the frame that was put in last, none before.
    pub fn bytes(&self) -> &[u8]
        ensures frame { result.now ≡ self.now.bytes }
        ensures fits { length result.now ≤ 2048 }
    {
        self.frame.as_slice()
    }

    /// Copies a frame into the buffer in place of what it held, which is one more use of it. It takes no memory.
    pub fn fill(&mut self, frame: &[u8])
        requires { length frame.now ≤ 2048 }
        ensures { self.new ≡ record { name = next_use self.old.name; bytes = frame.now } }
    {
        self.name.uses = self.name.uses.wrapping_add(1);
        self.frame.clear();
        match self.frame.extend_from_slice(frame) {
            Ok(()) => {}
            Err(_) => unreachable!(),
        }
    }
}
