// The chunks that a connection sends, until they are acknowledged.
ghost use Rattle.std.specs.Prelude.{◌≡◌, ◌≤◌, ◌<◌, ◌+◌, ◌++◌, ◌∷◌, [], ℕ, List as Sequence, length, take, drop, filter, vec_len, vec_capacity, OnOk, IfOk, if◌then◌else◌};
ghost use Rattle.std.specs.VecDeque.{deque_len, deque_capacity};
ghost use Rattle.std.specs.Option.{option_to_list};
ghost use Rattle.ix_mbuf.specs.declared.name.Name.{Name};
ghost use Rattle.ix_mbuf.specs.Owners.{one_at, maybe};
ghost use Rattle.ix_mbuf.specs.Buffers.{buffers_weight};
ghost use Rattle.ix_call.specs.Chunks.{chunk_bytes, chunks_bytes, chunk_weight, chunks_weight, chunk_buffer, chunks_buffers};
ghost use Rattle.ix_parts.specs.Division.{skip as skip_of};

use ix_base::{Bytes, CoreId, List, NoMemory};
use ix_call::Chunk;
use ix_mbuf::{Mbuf, Part};
use std::alloc::Global;
use std::collections::VecDeque;
use std::marker::Model;

// A chunk. Of bytes of the application's own the first `from` have left.
#[derive(Drop)]
enum Stored {
    Part(Part),
    Own { bytes: Bytes, from: usize },
}

impl Stored {
    ghost use Rattle.ix_parts.specs.Queue.{seen};

    fn new(chunk: Chunk) -> Stored
        ensures { seen result ≡ chunk }
    {
        match chunk {
            Chunk::Part(part) => Stored::Part(part),
            Chunk::Own(bytes) => Stored::Own { bytes, from: 0 },
        }
    }

    // The bytes that have not left.
    fn bytes(&self) -> &[u8]
        ensures { result.now ≡ chunk_bytes (seen self.now) }
    {
        match self {
            Stored::Part(part) => part.bytes(),
            Stored::Own { bytes, from } => behind(bytes.as_slice(), *from),
        }
    }

    fn is_of(&self, home: CoreId) -> bool
        ensures { (if result then 1 else 0) ≡ chunk_weight (one_at home.0) (seen self.now) }
    {
        match self {
            Stored::Part(part) => part.id().home == home,
            Stored::Own { bytes: _, from: _ } => false,
        }
    }

    // The buffer of a part.
    fn into_mbuf(self) -> Option<Mbuf>
        ensures buffer { result ≡ chunk_buffer (seen self) }
        ensures weight { (f : Name → ℕ) → maybe (λ b. f b.name) result ≡ chunk_weight f (seen self) }
    {
        match self {
            Stored::Part(part) => Some(part.into_mbuf()),
            Stored::Own { bytes: _, from: _ } => None,
        }
    }
}

// What stands behind so many bytes; nothing where there are no more.
#[tactic(auto, using(crate::proofs::ByteLemmas::drop_all))]
fn behind(bytes: &[u8], from: usize) -> &[u8]
    ensures { result.now ≡ drop from bytes.now }
{
    if from < bytes.len() {
        &bytes[from..]
    } else {
        &[]
    }
}

ghost use Rattle.ix_parts.specs.Queue.{seen, chunks_seen, AreFilled, is_filled, is_empty, after, gone, range_of};

// Lets a chunk go: the buffer of a part goes to the end of `freed`.
fn free(stored: Stored, freed: &mut Vec<Mbuf>)
    requires { vec_len freed.old < vec_capacity freed.old }
    ensures freed { freed.new.items ≡ freed.old.items ++ option_to_list (chunk_buffer (seen stored)) }
    ensures len { vec_len freed.new ≤ vec_len freed.old + 1 }
    ensures capacity { vec_capacity freed.new ≡ vec_capacity freed.old }
{
    if let Some(buf) = stored.into_mbuf() {
        freed.push_reserved(buf);
    }
}

// A chunk of which n bytes leave, and not all.
fn skip(stored: Stored, n: usize) -> Stored
    requires { n < length (chunk_bytes (seen stored)) }
    ensures { seen result ≡ skip_of n (seen stored) }
{
    match stored {
        Stored::Part(mut part) => {
            let _len = part.len(); // a proof knows the range of what is read
            part.skip(n as u16);
            Stored::Part(part)
        }
        Stored::Own { bytes, from } => Stored::Own {
            bytes,
            from: from + n,
        },
    }
}

// The first n bytes leave.
fn take_off(chunks: &mut VecDeque<Stored>, n: usize, freed: &mut Vec<Mbuf>)
    requires { vec_len freed.old + deque_len chunks.old ≤ vec_capacity freed.old }
    ensures chunks { chunks_seen chunks.new.items ≡ after n (chunks_seen chunks.old.items) }
    ensures freed { freed.new.items ≡ freed.old.items ++ gone n (chunks_seen chunks.old.items) }
    ensures capacity { vec_capacity freed.new ≡ vec_capacity freed.old }
{
    let mut left = n;
    while let Some(first) = chunks.pop_front() {
        let len = first.bytes().len();
        if left < len {
            chunks.push_front_reserved(skip(first, left));
            return;
        }
        left -= len;
        free(first, freed);
    }
}

// All chunks go.
fn take_all(chunks: &mut VecDeque<Stored>, freed: &mut Vec<Mbuf>)
    requires { vec_len freed.old + deque_len chunks.old ≤ vec_capacity freed.old }
    ensures chunks { chunks.new.items ≡ [] }
    ensures freed { freed.new.items ≡ freed.old.items ++ chunks_buffers (chunks_seen chunks.old.items) }
    ensures capacity { vec_capacity freed.new ≡ vec_capacity freed.old }
{
    while let Some(first) = chunks.pop_front() {
        free(first, freed);
    }
}

// Puts a chunk at the end, or lets it go where it is empty.
fn put(chunk: Chunk, chunks: &mut VecDeque<Stored>, freed: &mut Vec<Mbuf>)
    requires room { deque_len chunks.old < deque_capacity chunks.old }
    requires freed { vec_len freed.old < vec_capacity freed.old }
    ensures chunks { chunks_seen chunks.new.items ≡ (if is_filled chunk then chunks_seen chunks.old.items ++ chunk ∷ [] else chunks_seen chunks.old.items) }
    ensures freed { freed.new.items ≡ (if is_filled chunk then freed.old.items else freed.old.items ++ option_to_list (chunk_buffer chunk)) }
    ensures chunks_len { deque_len chunks.new ≤ deque_len chunks.old + 1 }
    ensures freed_len { vec_len freed.new ≤ vec_len freed.old + 1 }
    ensures chunks_room { deque_capacity chunks.new ≡ deque_capacity chunks.old }
    ensures freed_room { vec_capacity freed.new ≡ vec_capacity freed.old }
{
    if chunk.len() > 0 {
        chunks.push_back_reserved(Stored::new(chunk));
        return;
    }
    if let Some(buf) = chunk.into_mbuf() {
        freed.push_reserved(buf);
    }
}

// Puts chunks at the end, in order, and lets the empty ones go.
fn put_all(more: Vec<Chunk>, chunks: &mut VecDeque<Stored>, freed: &mut Vec<Mbuf>)
    requires room { deque_len chunks.old + vec_len more ≤ deque_capacity chunks.old }
    requires freed { vec_len freed.old + vec_len more ≤ vec_capacity freed.old }
    ensures chunks { chunks_seen chunks.new.items ≡ chunks_seen chunks.old.items ++ filter is_filled more.items }
    ensures freed { freed.new.items ≡ freed.old.items ++ chunks_buffers (filter is_empty more.items) }
    ensures freed_room { vec_capacity freed.new ≡ vec_capacity freed.old }
{
    for chunk in more {
        put(chunk, chunks, freed);
    }
}

// What is still to be copied: so many bytes are passed over first, then so many are copied.
#[derive(Clone, Copy)]
struct Span {
    skip: usize,
    most: usize,
}

// Copies what of these bytes lies in a span that begins at the first of them. What the span has left is for the bytes behind them.
fn copy_bytes(bytes: &[u8], span: &mut Span, copied: &mut Bytes) -> Result<(), NoMemory>
    ensures copied { (rest : Sequence ℕ) → OnOk result (copied.new ++ take span.new.most (drop span.new.skip rest) ≡ copied.old ++ take span.old.most (drop span.old.skip (bytes.now ++ rest))) }
{
    let rest = behind(bytes, span.skip);
    let most = span.most.min(rest.len());
    let (piece, _) = rest.split_at(most);
    copied.extend_from_slice(piece)?;
    span.skip = span.skip.saturating_sub(bytes.len());
    span.most -= most;
    Ok(())
}

// Copies what of the bytes of these chunks lies in a span.
fn copy_chunks(chunks: &[Stored], span: &mut Span, copied: &mut Bytes) -> Result<(), NoMemory>
    ensures { (rest : Sequence ℕ) → OnOk result (copied.new ++ take span.new.most (drop span.new.skip rest) ≡ copied.old ++ take span.old.most (drop span.old.skip (chunks_bytes (chunks_seen chunks.now) ++ rest))) }
{
    for stored in chunks {
        copy_bytes(stored.bytes(), span, copied)?;
    }
    Ok(())
}

// How many parts have a buffer of this home.
fn parts_at(chunks: &VecDeque<Stored>, home: CoreId) -> usize
    ensures { result ≡ chunks_weight (one_at home.0) (chunks_seen chunks.now.items) }
{
    chunks.iter().filter(|c| c.is_of(home)).count()
}

/// The chunks that a connection sends, in order, until their bytes are acknowledged. No chunk in it is empty. Contracts see its chunks, and
/// for how many there is room.
#[derive(Drop)]
pub struct SendQueue {
    chunks: VecDeque<Stored>,
}

impl Model for SendQueue {
    ghost use Rattle.std.specs.VecDeque.{deque_capacity};
    ghost use Rattle.ix_parts.specs.Queue.{Queue, chunks_seen, AreFilled};

    ghost Value = { Queue };

    ghost view = { λ q. record { chunks = chunks_seen q.chunks.items; capacity = deque_capacity q.chunks } };

    ghost invariant = { λ q. AreFilled (chunks_seen q.chunks.items) };
}

impl SendQueue {
    /// A queue without chunks; it takes no memory yet.
    pub fn new(alloc: Global) -> SendQueue
        ensures { result.chunks ≡ [] }
    {
        SendQueue {
            chunks: VecDeque::new(alloc),
        }
    }

    /// How many chunks stand in it.
    pub fn len(&self) -> usize
        ensures len { result ≡ length self.now.chunks }
        ensures filled { AreFilled self.now.chunks }
    {
        self.chunks.len()
    }

    /// Makes room for so many more chunks.
    pub fn reserve(&mut self, more: usize) -> Result<(), NoMemory>
        ensures chunks { self.new.chunks ≡ self.old.chunks }
        ensures room { OnOk result (length self.new.chunks + more ≤ self.new.capacity) }
    {
        self.chunks.reserve(more)?;
        Ok(())
    }

    /// Puts chunks at the end, in order. Those without bytes are let go, and the buffers of these go to the end of `freed`. It takes no
    /// memory.
    #[tactic(auto, using(crate::proofs::QueueLemmas::queue_laws))]
    pub fn append(&mut self, more: List<Chunk>, freed: &mut Vec<Mbuf>)
        requires room { length self.old.chunks + length more ≤ self.old.capacity }
        requires freed { vec_len freed.old + length more ≤ vec_capacity freed.old }
        ensures chunks { self.new.chunks ≡ self.old.chunks ++ filter is_filled more }
        ensures bytes { chunks_bytes self.new.chunks ≡ chunks_bytes self.old.chunks ++ chunks_bytes more }
        ensures freed { freed.new.items ≡ freed.old.items ++ chunks_buffers (filter is_empty more) }
        ensures weight { (f : Name → ℕ) → chunks_weight f self.new.chunks + buffers_weight f freed.new.items ≡ chunks_weight f self.old.chunks + buffers_weight f freed.old.items + chunks_weight f more }
        ensures capacity { vec_capacity freed.new ≡ vec_capacity freed.old }
    {
        put_all(more.into_vec(), &mut self.chunks, freed);
    }

    /// The first n bytes were acknowledged, and leave. The buffer of a part whose last byte left goes to the end of `freed`; a part that is cut
    /// keeps its buffer. Nothing is copied, and it takes no memory.
    #[tactic(auto, using(crate::proofs::QueueLemmas::queue_laws))]
    pub fn acknowledge(&mut self, n: usize, freed: &mut Vec<Mbuf>)
        requires { vec_len freed.old + length self.old.chunks ≤ vec_capacity freed.old }
        ensures chunks { self.new.chunks ≡ after n self.old.chunks }
        ensures bytes { chunks_bytes self.new.chunks ≡ drop n (chunks_bytes self.old.chunks) }
        ensures freed { freed.new.items ≡ freed.old.items ++ gone n self.old.chunks }
        ensures weight { (f : Name → ℕ) → chunks_weight f self.new.chunks + buffers_weight f freed.new.items ≡ chunks_weight f self.old.chunks + buffers_weight f freed.old.items }
        ensures capacity { vec_capacity freed.new ≡ vec_capacity freed.old }
    {
        take_off(&mut self.chunks, n, freed);
    }

    /// Lets all chunks go, whether their bytes were sent or not: their buffers go to the end of `freed`, in order. It takes no memory.
    #[tactic(auto, using(crate::proofs::QueueLemmas::queue_laws))]
    pub fn release(&mut self, freed: &mut Vec<Mbuf>)
        requires { vec_len freed.old + length self.old.chunks ≤ vec_capacity freed.old }
        ensures chunks { self.new.chunks ≡ [] }
        ensures freed { freed.new.items ≡ freed.old.items ++ chunks_buffers self.old.chunks }
        ensures weight { (f : Name → ℕ) → buffers_weight f freed.new.items ≡ buffers_weight f freed.old.items + chunks_weight f self.old.chunks }
        ensures capacity { vec_capacity freed.new ≡ vec_capacity freed.old }
    {
        take_all(&mut self.chunks, freed);
    }

    /// The bytes between two places, counted from the first byte of the queue, as a segment carries them; fewer where the queue ends before.
    pub fn copy(&self, alloc: Global, from: usize, to: usize) -> Result<Bytes, NoMemory>
        ensures { IfOk result (λ bytes. bytes ≡ range_of from to self.now.chunks) }
    {
        let mut copied = Bytes::new(alloc);
        let mut span = Span {
            skip: from,
            most: to.saturating_sub(from),
        };
        let (first, second) = self.chunks.as_slices();
        copy_chunks(first, &mut span, &mut copied)?;
        copy_chunks(second, &mut span, &mut copied)?;
        Ok(copied)
    }

    /// How many parts in it have a buffer of this home.
    pub fn count_at(&self, home: CoreId) -> usize
        ensures count { result ≡ chunks_weight (one_at home.0) self.now.chunks }
        ensures few { result ≤ length (chunks_bytes self.now.chunks) }
    {
        parts_at(&self.chunks, home)
    }
}
