// Chunks, divided behind so many bytes.
ghost use Rattle.std.specs.Prelude.{◌≡◌, ◌≤◌, ◌<◌, ◌+◌, ◌==◌, ◌||◌, ◌++◌, [], ℕ, nat_le, length, take, drop, vec_len, vec_capacity, IfOk, IfErr, if◌then◌else◌};
ghost use Rattle.ix_mbuf.specs.declared.name.Name.{Name};
ghost use Rattle.ix_mbuf.specs.Owners.{handed};
ghost use Rattle.ix_call.specs.declared.chunk.Chunk.TheVariants as chunks_are;
ghost use Rattle.ix_call.specs.Chunks.{chunk_bytes, chunks_bytes, chunks_weight};
ghost use Rattle.ix_parts.specs.Division.{skip as skip_of, front_part, rest_part, front_of, rest_of, other_half as other_half_of, copied_part, copied_of};

use ix_base::{Back, Bytes, List, NoMemory};
use ix_call::Chunk;
use std::alloc::Global;
use std::mem;

/// Chunks on both sides of a place in their bytes.
#[derive(Drop)]
pub struct Divided {
    /// What carries the bytes before it.
    pub front: List<Chunk>,
    /// What carries the others.
    pub rest: List<Chunk>,
}

/// The half of a chunk that has to be copied where it is cut behind n bytes: the front of a part, whose buffer goes with the rest, and the
/// rest of bytes of the application's own.
fn other_half(alloc: Global, chunk: &Chunk, n: usize) -> Result<Bytes, NoMemory>
    requires { n ≤ length (chunk_bytes chunk.now) }
    ensures { IfOk result (λ bytes. bytes ≡ other_half_of n chunk.now) }
{
    match chunk {
        Chunk::Part(part) => Bytes::from_slice(alloc, &part.bytes()[..n]),
        Chunk::Own(bytes) => Bytes::from_slice(alloc, &bytes.as_slice()[n..]),
    }
}

/// What has to be copied where chunks are divided behind n bytes: a half of the chunk that is cut inside, or nothing.
#[tactic(auto, using(crate::proofs::DivisionLemmas::copying))]
fn copied_half(alloc: Global, chunks: &[Chunk], n: usize) -> Result<Bytes, NoMemory>
    ensures { IfOk result (λ bytes. bytes ≡ copied_of n chunks.now) }
{
    let mut left = n;
    for chunk in chunks {
        let len = chunk.len();
        if left < len {
            if left == 0 {
                return Ok(Bytes::new(alloc));
            }
            return other_half(alloc, chunk, left);
        }
        left -= len;
    }
    Ok(Bytes::new(alloc))
}

/// A chunk, cut inside behind n bytes, with the half that was copied.
fn halves(chunk: Chunk, n: usize, copied: Bytes) -> (Chunk, Chunk)
    requires inside { n < length (chunk_bytes chunk) }
    requires copied { copied ≡ other_half_of n chunk }
    ensures front { result.0 ≡ chunks_are.Own (take n (chunk_bytes chunk)) }
    ensures rest { result.1 ≡ skip_of n chunk }
{
    match chunk {
        Chunk::Part(mut part) => {
            let _len = part.len(); // a proof knows the range of what is read
            part.skip(n as u16);
            (Chunk::Own(copied), Chunk::Part(part))
        }
        Chunk::Own(mut bytes) => {
            bytes.truncate(n);
            (Chunk::Own(bytes), Chunk::Own(copied))
        }
    }
}

/// Puts one chunk where it belongs, or each of its halves, where n of the bytes before the place are left for it.
fn place(chunk: Chunk, n: usize, copied: Bytes, front: &mut Vec<Chunk>, rest: &mut Vec<Chunk>)
    requires front { vec_len front.old < vec_capacity front.old }
    requires rest { vec_len rest.old < vec_capacity rest.old }
    requires copied { copied ≡ copied_part n chunk }
    ensures front { front.new.items ≡ front.old.items ++ front_part n chunk }
    ensures rest { rest.new.items ≡ rest.old.items ++ rest_part n chunk }
    ensures front_len { vec_len front.new ≤ vec_len front.old + 1 }
    ensures rest_len { vec_len rest.new ≤ vec_len rest.old + 1 }
    ensures front_room { vec_capacity front.new ≡ vec_capacity front.old }
    ensures rest_room { vec_capacity rest.new ≡ vec_capacity rest.old }
{
    if n == 0 {
        rest.push_reserved(chunk);
        return;
    }
    if chunk.len() <= n {
        front.push_reserved(chunk);
        return;
    }
    let (before, behind) = halves(chunk, n, copied);
    front.push_reserved(before);
    rest.push_reserved(behind);
}

/// The copied half where the chunk that comes is the one that is cut inside, else nothing.
fn half_for(alloc: Global, left: usize, len: usize, copied: &mut Bytes) -> Bytes
    ensures half { result ≡ (if left == 0 || nat_le len left then [] else copied.old) }
    ensures others { copied.new ≡ (if left == 0 || nat_le len left then copied.old else []) }
{
    if left == 0 || len <= left {
        return Bytes::new(alloc);
    }
    mem::replace(copied, Bytes::new(alloc))
}

/// Puts each chunk where it belongs.
fn place_all(
    alloc: Global,
    chunks: Vec<Chunk>,
    n: usize,
    copied: Bytes,
    front: &mut Vec<Chunk>,
    rest: &mut Vec<Chunk>,
)
    requires front { vec_len front.old + vec_len chunks ≤ vec_capacity front.old }
    requires rest { vec_len rest.old + vec_len chunks ≤ vec_capacity rest.old }
    requires copied { copied ≡ copied_of n chunks.items }
    ensures front { front.new.items ≡ front.old.items ++ front_of n chunks.items }
    ensures rest { rest.new.items ≡ rest.old.items ++ rest_of n chunks.items }
{
    let mut left = n;
    let mut copied = copied;
    for chunk in chunks {
        let len = chunk.len();
        let half = half_for(alloc, left, len, &mut copied);
        place(chunk, left, half, front, rest);
        left = left.saturating_sub(len);
    }
}

/// Divides chunks behind their first n bytes. A chunk goes to the front as it is where all its bytes stand before that place, and to the rest
/// where no byte is left for it when it comes. Of the one that is cut inside the front is bytes of its own, and the chunk itself, without
/// them, goes to the rest: so a part keeps its buffer. Without memory the chunks come back as they were.
#[tactic(auto, using(crate::proofs::DivisionLemmas::division_laws))]
pub fn divide(alloc: Global, chunks: List<Chunk>, n: usize) -> Result<Divided, Back<List<Chunk>>>
    ensures front { IfOk result (λ d. d.front ≡ front_of n chunks) }
    ensures rest { IfOk result (λ d. d.rest ≡ rest_of n chunks) }
    ensures before { IfOk result (λ d. chunks_bytes d.front ≡ take n (chunks_bytes chunks)) }
    ensures behind { IfOk result (λ d. chunks_bytes d.rest ≡ drop n (chunks_bytes chunks)) }
    ensures weight { (f : Name → ℕ) → handed (λ d. chunks_weight f d.front + chunks_weight f d.rest) (λ b. chunks_weight f b.item) result ≡ chunks_weight f chunks }
    ensures back { IfErr result (λ b. b.item ≡ chunks) }
{
    let Ok(copied) = copied_half(alloc, chunks.as_slice(), n) else {
        return Err(Back { item: chunks });
    };
    let Ok(mut front) = Vec::with_capacity(alloc, chunks.len()) else {
        return Err(Back { item: chunks });
    };
    let Ok(mut rest) = Vec::with_capacity(alloc, chunks.len()) else {
        return Err(Back { item: chunks });
    };
    place_all(alloc, chunks.into_vec(), n, copied, &mut front, &mut rest);
    Ok(Divided {
        front: List::from_vec(front),
        rest: List::from_vec(rest),
    })
}
