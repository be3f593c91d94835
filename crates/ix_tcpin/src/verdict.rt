// What becomes of a segment.
ghost use Rattle.std.specs.Prelude.{◌≡◌, ◌≤◌, ◌+◌, ◌++◌, map, length};
ghost use Rattle.arrayvec.specs.ArrayVec.{array_vec_len};
ghost use Rattle.ix_tcpin.specs.Work.{keep as keep_of, dropped, blank as blank_of};

use arrayvec::ArrayVec;
use ix_base::SegHead;
use ix_tcpdef::{HeldHead, Told};

/// What is to be done with a segment's body: places in it, the first and the one behind the last.
#[derive(Clone, Copy, Debug, PartialEq, Eq)]
pub enum Take {
    Nothing,
    /// Delivered, as the next bytes of the peer's stream.
    Deliver { from: u16, to: u16 },
    /// Held behind a hole.
    Hold { from: u16, to: u16 },
    /// Taken, and thrown away: the application closed the connection.
    Discard { from: u16, to: u16 },
}

/// What is to be done with a held segment.
#[derive(Clone, Copy, Debug, Default, PartialEq, Eq)]
pub enum HeldUse {
    #[default]
    Keep,
    /// Delivered from this place of its bytes on.
    Deliver { from: u16 },
    Drop,
}

/// One use for each held segment, by rising position.
pub type Uses = ArrayVec<HeldUse, 8>;

/// What an arriving segment makes, beside the numbers.
#[derive(Drop)]
pub struct Verdict {
    /// The head of a segment without a body that is sent at once.
    pub reply: Option<SegHead>,
    pub take: Take,
    pub held: Uses,
    /// How many bytes of the send queue were acknowledged.
    pub acked: u32,
    /// What the application is told in order, but for the parts of the stream: these are what `take` and `held` deliver, and stand before the
    /// end of the stream and behind everything else.
    pub told: ArrayVec<Told, 4>,
    /// Whether the connection ended.
    pub ended: bool,
}

/// Keeps what is held.
pub fn keep(held: &[HeldHead], uses: &mut Uses)
    requires { array_vec_len uses.old + length held.now ≤ 8 }
    ensures { uses.new.items ≡ uses.old.items ++ map keep_of held.now }
{
    for _head in held {
        uses.push(HeldUse::Keep);
    }
}

/// What is kept is dropped.
pub fn drop_kept(uses: &Uses) -> Uses
    ensures { result.items ≡ map dropped uses.now.items }
{
    let mut after = ArrayVec::new();
    for held_use in uses.as_slice() {
        after.push(match held_use {
            HeldUse::Keep => HeldUse::Drop,
            other => *other,
        });
    }
    after
}

impl Verdict {
    /// A verdict to begin with: nothing is made of the segment, and what is held stays so.
    pub fn blank(held: &[HeldHead]) -> Verdict
        requires { length held.now ≤ 8 }
        ensures { result ≡ blank_of held.now }
    {
        let mut uses = ArrayVec::new();
        keep(held, &mut uses);
        Verdict {
            reply: None,
            take: Take::Nothing,
            held: uses,
            acked: 0,
            told: ArrayVec::new(),
            ended: false,
        }
    }
}
