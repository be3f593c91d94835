// Copies: a step leaves the connection that it is made from as it was.
ghost use Rattle.std.specs.Prelude.{◌≡◌, ◌≤◌, IfOk, length};

use crate::types::{Connection, HeldHead, HeldSegment, Piece, Tcb};
use arrayvec::ArrayVec;
use ix_base::{Bytes, List, NoMemory};
use std::alloc::Global;

fn copy_piece(alloc: Global, piece: &Piece) -> Result<Piece, NoMemory>
    ensures { IfOk result (λ p. p ≡ piece.now) }
{
    Ok(Piece {
        w: piece.w,
        from: piece.from,
        bytes: Bytes::from_slice(alloc, piece.bytes.as_slice())?,
        told: piece.told,
    })
}

fn copy_pieces(alloc: Global, pieces: &[Piece]) -> Result<List<Piece>, NoMemory>
    ensures { IfOk result (λ copies. copies ≡ pieces.now) }
{
    let mut copies = List::new(alloc);
    for piece in pieces {
        copies.push(copy_piece(alloc, piece)?)?;
    }
    Ok(copies)
}

fn copy_held(alloc: Global, segment: &HeldSegment) -> Result<HeldSegment, NoMemory>
    ensures { IfOk result (λ s. s ≡ segment.now) }
{
    Ok(HeldSegment {
        at: segment.at,
        w: segment.w,
        from: segment.from,
        bytes: Bytes::from_slice(alloc, segment.bytes.as_slice())?,
        fin: segment.fin,
    })
}

fn copy_all_held(alloc: Global, held: &[HeldSegment]) -> Result<List<HeldSegment>, NoMemory>
    ensures { IfOk result (λ copies. copies ≡ held.now) }
{
    let mut copies = List::new(alloc);
    for segment in held {
        copies.push(copy_held(alloc, segment)?)?;
    }
    Ok(copies)
}

/// The same connection once more.
pub fn copy(alloc: Global, w: &Connection) -> Result<Connection, NoMemory>
    ensures { IfOk result (λ c. c ≡ w.now) }
{
    Ok(Connection {
        flow: w.flow,
        peer_mac: w.peer_mac,
        state: w.state,
        iss: w.iss,
        irs: w.irs,
        mss: w.mss,
        sent: Bytes::from_slice(alloc, w.sent.as_slice())?,
        una: w.una,
        nxt: w.nxt,
        rcv: w.rcv,
        wnd: w.wnd,
        wl1: w.wl1,
        wl2: w.wl2,
        pieces: copy_pieces(alloc, w.pieces.as_slice())?,
        held: copy_all_held(alloc, w.held.as_slice())?,
        unread: w.unread,
        deadline: w.deadline,
        expiries: w.expiries,
        cwnd: w.cwnd,
        ssthresh: w.ssthresh,
        dups: w.dups,
        recovering: w.recovering,
        resend: w.resend,
        fin_wanted: w.fin_wanted,
        fin_sent: w.fin_sent,
        wants: w.wants,
        ack_owed: w.ack_owed,
        knocked: w.knocked,
        accepted: w.accepted,
        shut: w.shut,
    })
}

fn copy_heads(heads: &[HeldHead]) -> ArrayVec<HeldHead, 8>
    requires { length heads.now ≤ 8 }
    ensures { result.items ≡ heads.now }
{
    let mut copies = ArrayVec::new();
    for head in heads {
        copies.push(*head);
    }
    copies
}

impl Tcb {
    /// The same numbers once more. It takes no memory, so that a caller that finds none later can leave its own numbers as they were.
    pub fn copy(&self) -> Tcb
        ensures { result ≡ self.now }
    {
        let _held = self.held.len(); // a proof knows the room of what is asked for its length
        Tcb {
            flow: self.flow,
            peer_mac: self.peer_mac,
            state: self.state,
            iss: self.iss,
            irs: self.irs,
            una: self.una,
            nxt: self.nxt,
            wnd: self.wnd,
            wl1: self.wl1,
            wl2: self.wl2,
            rcv_nxt: self.rcv_nxt,
            unread: self.unread,
            mss: self.mss,
            queued: self.queued,
            expiries: self.expiries,
            deadline: self.deadline,
            held: copy_heads(self.held.as_slice()),
            cwnd: self.cwnd,
            ssthresh: self.ssthresh,
            dups: self.dups,
            recovering: self.recovering,
            resend: self.resend,
            fin_wanted: self.fin_wanted,
            fin_sent: self.fin_sent,
            wants: self.wants,
            ack_owed: self.ack_owed,
            knocked: self.knocked,
            accepted: self.accepted,
            shut: self.shut,
        }
    }
}
