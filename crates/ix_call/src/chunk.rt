// A piece of what is sent.
ghost use Rattle.std.specs.Prelude.{◌≡◌, ◌≤◌, ◌+◌, ◌++◌, ℕ, length, vec_len, vec_capacity, IfOk, if◌then◌else◌};
ghost use Rattle.ix_mbuf.specs.declared.name.Name.{Name};
ghost use Rattle.ix_mbuf.specs.Owners.{one_at, maybe};
ghost use Rattle.ix_mbuf.specs.Buffers.{buffers_weight};
ghost use Rattle.ix_call.specs.Chunks.{chunk_bytes, chunks_bytes, chunk_weight, chunks_weight, chunk_id, chunk_buffer, chunks_buffers};

use ix_base::{BufId, Bytes, CoreId, List, NoMemory};
use ix_mbuf::{Mbuf, Part};
use std::alloc::Global;

/// Bytes that an application gives to send: a part of a buffer, which is sent without a copy, or bytes of its own.
#[derive(Drop)]
pub enum Chunk {
    /// A part of a buffer.
    Part(Part),
    /// Bytes of the application's own.
    Own(Bytes),
}

impl Chunk {
    /// The bytes to send, in order.
    pub fn bytes(&self) -> &[u8]
        ensures { result.now ≡ chunk_bytes self.now }
    {
        match self {
            Chunk::Part(part) => part.bytes(),
            Chunk::Own(bytes) => bytes.as_slice(),
        }
    }

    /// The number of these bytes.
    pub fn len(&self) -> usize
        ensures { result ≡ length (chunk_bytes self.now) }
    {
        match self {
            Chunk::Part(part) => usize::from(part.len()),
            Chunk::Own(bytes) => bytes.len(),
        }
    }

    /// The id of the buffer, where the chunk is a part of one.
    pub fn id(&self) -> Option<BufId>
        ensures { result ≡ chunk_id self.now }
    {
        match self {
            Chunk::Part(part) => Some(part.id()),
            Chunk::Own(_) => None,
        }
    }

    /// Whether the chunk holds a buffer of this home.
    pub fn is_of(&self, home: CoreId) -> bool
        ensures { (if result then 1 else 0) ≡ chunk_weight (one_at home.0) self.now }
    {
        match self {
            Chunk::Part(part) => part.id().home == home,
            Chunk::Own(_) => false,
        }
    }

    /// The buffer of a part. Bytes of the application's own are let go.
    pub fn into_mbuf(self) -> Option<Mbuf>
        ensures buffer { result ≡ chunk_buffer self }
        ensures weight { (f : Name → ℕ) → maybe (λ b. f b.name) result ≡ chunk_weight f self }
    {
        match self {
            Chunk::Part(part) => Some(part.into_mbuf()),
            Chunk::Own(_) => None,
        }
    }
}

/// The bytes of all chunks, one behind the other.
pub fn join(alloc: Global, chunks: &[Chunk]) -> Result<Bytes, NoMemory>
    ensures { IfOk result (λ bytes. bytes ≡ chunks_bytes chunks.now) }
{
    let mut bytes = List::new(alloc);
    for chunk in chunks {
        bytes.extend_from_slice(chunk.bytes())?;
    }
    Ok(bytes)
}

/// Lets the chunks go: their buffers go to the end of `freed`, in order. It takes no memory.
pub fn release(chunks: List<Chunk>, freed: &mut Vec<Mbuf>)
    requires { length chunks + vec_len freed.old ≤ vec_capacity freed.old }
    ensures freed { freed.new.items ≡ freed.old.items ++ chunks_buffers chunks }
    ensures weight { (f : Name → ℕ) → buffers_weight f freed.new.items ≡ buffers_weight f freed.old.items + chunks_weight f chunks }
    ensures room { vec_capacity freed.new ≡ vec_capacity freed.old }
{
    for chunk in chunks.into_vec() {
        if let Some(buf) = chunk.into_mbuf() {
            freed.push_reserved(buf);
        }
    }
}
