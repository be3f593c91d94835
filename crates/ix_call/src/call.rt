// What an application asks of a connection, and what it is answered.
ghost use Rattle.std.specs.Prelude.{◌≡◌, ℕ};
ghost use Rattle.ix_mbuf.specs.declared.name.Name.{Name};
ghost use Rattle.ix_mbuf.specs.Owners.{weigh};
ghost use Rattle.ix_call.specs.Chunks.{chunks_weight};
ghost use Rattle.ix_call.specs.Calls.{call_handle, call_chunks, call_weight, call_names};

use crate::chunk::Chunk;
use ix_base::{Handle, List, Ret};

/// A call of an application.
#[derive(Drop)]
pub enum Call {
    /// Opens a connection to an address and port. The cookie names it in what is told of it.
    Connect { cookie: u64, ip: u32, port: u16 },
    /// Takes up a connection that has knocked, under this cookie.
    Accept { handle: Handle, cookie: u64 },
    /// Sends the bytes of the chunks, in order.
    Sendv { handle: Handle, chunks: List<Chunk> },
    /// Gives back room for so many bytes that were told.
    RecvDone { handle: Handle, bytes: u32 },
    /// Sends no more after what was taken.
    Close { handle: Handle },
}

/// What a call returns: its handle, the answer, and the chunks that TCP did not take.
#[derive(Drop)]
pub struct CallRet {
    /// The handle of the call.
    pub handle: Handle,
    pub ret: Ret,
    /// The chunks that TCP did not take, in order.
    pub back: List<Chunk>,
}

impl Call {
    /// The connection that is called, none where the call opens one.
    pub fn handle(&self) -> Option<Handle>
        ensures { result ≡ call_handle self.now }
    {
        match self {
            Call::Connect { .. } => None,
            Call::Accept { handle, .. }
            | Call::Sendv { handle, .. }
            | Call::RecvDone { handle, .. }
            | Call::Close { handle } => Some(*handle),
        }
    }

    /// The chunks that the call carries.
    #[tactic(auto, using(crate::proofs::ChunkLemmas::chunk_laws))]
    pub fn chunks(&self) -> &[Chunk]
        ensures chunks { result.now ≡ call_chunks self.now }
        ensures weight { (f : Name → ℕ) → chunks_weight f result.now ≡ call_weight f self.now }
        ensures names { (f : Name → ℕ) → weigh f (call_names self.now) ≡ call_weight f self.now }
    {
        match self {
            Call::Sendv { chunks, .. } => chunks.as_slice(),
            _ => &[],
        }
    }
}
