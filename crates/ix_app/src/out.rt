// What an application hands on.
ghost use Rattle.std.specs.Prelude.{◌≡◌, ◌≤◌, ◌<◌, ◌+◌, ◌++◌, ◌∷◌, ◌^◌, [], true, false, length, min, IfErr, OnOk};
ghost use Rattle.ix_call.specs.Chunks.{chunks_bytes};
ghost use Rattle.ix_app.specs.Handing.{bytes_most, let_go, sent, AllFilled};

use ix_base::{Back, List};
use ix_call::Chunk;
use ix_mbuf::{Mbuf, Part};
use std::alloc::Global;
use std::marker::Model;

/// The most bytes that are written before they are taken over. No play comes near it.
const WRITTEN_MOST: u64 = 1 << 63;

/// What an application hands on in its events: the chunks that it writes, in order, the buffers that it is done with, how many told bytes it
/// is done with, and whether it asks to close. No chunk is without bytes.
#[derive(Drop)]
pub struct Out {
    chunks: List<Chunk>,
    bytes: u64,
    freed: Vec<Mbuf>,
    done: u32,
    closing: bool,
}

impl Model for Out {
    ghost use Rattle.std.specs.Prelude.{ℕ, List};
    ghost use Rattle.ix_app.specs.Handing.{HandedOn, AreCounted};

    ghost Value = { HandedOn };

    ghost view = { λ o. record { chunks = o.chunks; freed = o.freed.items; done = o.done; closing = o.closing } };

    ghost invariant = { λ o. AreCounted o.bytes o.chunks };
}

/// What was handed on, as libix takes it over.
#[derive(Drop)]
pub struct Handed {
    /// The chunks that were written, in order.
    pub chunks: List<Chunk>,
    /// The number of their bytes.
    pub bytes: u64,
    /// The buffers that are done with.
    pub freed: List<Mbuf>,
    /// How many told bytes are done with, or the greatest number where they are more.
    pub done: u32,
    /// Whether it was asked to close.
    pub closing: bool,
}

impl Out {
    /// Nothing yet.
    pub fn new(alloc: Global) -> Out
        ensures { result ≡ record { chunks = []; freed = []; done = 0; closing = false } }
    {
        Out {
            chunks: List::new(alloc),
            bytes: 0,
            freed: Vec::new(alloc),
            done: 0,
            closing: false,
        }
    }

    /// Writes a chunk. One without bytes is let go instead: nothing is written, and the buffer of a part is released. For want of memory the
    /// chunk comes back.
    #[tactic(auto, unfolding(crate::specs::Handing::sent))]
    pub fn send(&mut self, chunk: Chunk) -> Result<(), Back<Chunk>>
        ensures ok { OnOk result (self.new ≡ sent chunk self.old) }
        ensures err { IfErr result (λ b. (b.item ≡ chunk) × (self.new ≡ self.old)) }
    {
        let len = chunk.len() as u64;
        if len == 0 {
            return self.let_go(chunk);
        }
        if len > WRITTEN_MOST - self.bytes {
            return Err(Back { item: chunk });
        }
        self.chunks.push(chunk)?;
        self.bytes += len;
        Ok(())
    }

    // Lets a chunk go.
    fn let_go(&mut self, chunk: Chunk) -> Result<(), Back<Chunk>>
        ensures ok { OnOk result (self.new ≡ let_go chunk self.old) }
        ensures err { IfErr result (λ b. (b.item ≡ chunk) × (self.new ≡ self.old)) }
    {
        if self.freed.reserve(1).is_err() {
            return Err(Back { item: chunk });
        }
        if let Some(buf) = chunk.into_mbuf() {
            self.freed.push_reserved(buf);
        }
        Ok(())
    }

    /// Releases the buffer of a part. For want of memory the part comes back.
    pub fn release(&mut self, part: Part) -> Result<(), Back<Part>>
        ensures ok { OnOk result (self.new ≡ record self.old { freed = self.old.freed ++ part.buf ∷ [] }) }
        ensures err { IfErr result (λ b. (b.item ≡ part) × (self.new ≡ self.old)) }
    {
        if self.freed.reserve(1).is_err() {
            return Err(Back { item: part });
        }
        self.freed.push_reserved(part.into_mbuf());
        Ok(())
    }

    /// Is done with so many told bytes, which gives the peer room for more. Together they count up to 4,294,967,295.
    pub fn done(&mut self, bytes: u32)
        ensures { self.new ≡ record self.old { done = min (self.old.done + bytes) bytes_most } }
    {
        self.done = self.done.saturating_add(bytes);
    }

    /// Asks to close the connection, once all that is written is taken.
    pub fn close(&mut self)
        ensures { self.new ≡ record self.old { closing = true } }
    {
        self.closing = true;
    }

    /// All that was handed on.
    pub fn into_handed(self) -> Handed
        ensures handed { result ≡ record { chunks = self.chunks; bytes = length (chunks_bytes self.chunks); freed = self.freed; done = self.done; closing = self.closing } }
        ensures filled { AllFilled self.chunks }
    {
        let Out {
            chunks,
            bytes,
            freed,
            done,
            closing,
        } = self;
        Handed {
            chunks,
            bytes,
            freed: List::from_vec(freed),
            done,
            closing,
        }
    }
}
