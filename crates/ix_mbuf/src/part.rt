// A piece of one buffer.
ghost use Rattle.std.specs.Prelude.{◌≡◌, ◌≤◌, ◌+◌, ◌==◌, length, drop};
ghost use Rattle.ix_mbuf.specs.Buffers.{Piece, piece_bytes};

use crate::mbuf::Mbuf;
use ix_base::BufId;
use std::marker::Model;

/// Some bytes of a buffer, and the buffer itself, which is moved with them.
#[derive(Drop)]
pub struct Part {
    buf: Mbuf,
    from: u16,
    to: u16,
}

impl Model for Part {
    ghost use Rattle.std.specs.Prelude.{◌≤◌, length};
    ghost use Rattle.ix_mbuf.specs.Buffers.{Piece};

    ghost Value = { Piece };

    ghost view = { λ p. record { buf = p.buf; from = p.from; to = p.to } };

    ghost invariant = { λ p. (p.from ≤ p.to) × (p.to ≤ length p.buf.bytes) };
}

impl Part {
    /// The bytes of the buffer from the place `from` up to the place `to`.
    pub fn new(buf: Mbuf, from: u16, to: u16) -> Part
        requires order { from ≤ to }
        requires within { to ≤ length buf.bytes }
        ensures { result ≡ record { buf = buf; from = from; to = to } }
    {
        Part { buf, from, to }
    }

    /// The number of the part's bytes.
    pub fn len(&self) -> u16
        ensures bytes { result ≡ length (piece_bytes self.now) }
        ensures places { self.now.from + result ≡ self.now.to }
        ensures within { self.now.to ≤ length self.now.buf.bytes }
    {
        self.to - self.from
    }

    /// Whether the part has no bytes.
    pub fn is_empty(&self) -> bool
        ensures { result ≡ (length (piece_bytes self.now) == 0) }
    {
        self.from == self.to
    }

    /// The part's bytes, in order.
    pub fn bytes(&self) -> &[u8]
        ensures { result.now ≡ piece_bytes self.now }
    {
        &self.buf.bytes()[usize::from(self.from)..usize::from(self.to)]
    }

    /// The id of the part's buffer.
    pub fn id(&self) -> BufId
        ensures { result ≡ self.now.buf.name.id }
    {
        self.buf.id()
    }

    /// Takes the first n bytes off, as acknowledged bytes leave a queue. Nothing is copied, and it takes no memory.
    pub fn skip(&mut self, n: u16)
        requires { n ≤ length (piece_bytes self.old) }
        ensures places { self.new ≡ record self.old { from = self.old.from + n } }
        ensures bytes { piece_bytes self.new ≡ drop n (piece_bytes self.old) }
    {
        self.from += n;
    }

    /// The whole buffer.
    pub fn into_mbuf(self) -> Mbuf
        ensures { result ≡ self.buf }
    {
        let Part {
            buf,
            from: _,
            to: _,
        } = self;
        buf
    }
}
