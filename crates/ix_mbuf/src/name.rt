// The name of one use of a buffer.
use ix_base::BufId;

/// One use of a buffer: the buffer's id, and how often it was filled, modulo 2^32. Two frames that one buffer held, one after the other, have different names.
#[derive(Clone, Copy, Debug, PartialEq, Eq)]
pub struct Name {
    pub id: BufId,
    /// How often the buffer was filled, modulo 2^32: 0 as the pool makes it.
    pub uses: u32,
}
