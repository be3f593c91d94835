// The body and the FIN of a segment.
ghost use Rattle.std.specs.Prelude.{ℕ, Bool, ◌≡◌, ◌≤◌, ◌<◌, ◌+◌, ◌-◌, ◌^◌, ◌-ℤ◌, ◌≤ℤ◌, ◌<ℤ◌, pos, false, IfOk, OnOk, length};
ghost use Rattle.std.specs.List.{list_all};
ghost use Rattle.ix_tcpdef.specs.declared.types.Job.{Job as AJob};
ghost use Rattle.ix_tcpdef.specs.Needs.{IsReady, IsFramed, EndsBy, LiesInFrames};
ghost use Rattle.ix_tcpdef.specs.Body.{
  octets as octets_of,
  delivered,
  filled,
  is_apart as apart_test,
  held_among,
  waiting,
  received as received_part,
  ends_next as ends_next_test,
  body as body_part,
  fin_taken as fin_taken_part,
  finished as finished_part,
  text_and_fin as text_and_fin_part,
};

use crate::connection::{give, rcv_nxt, rcv_wnd, seq_of, tell};
use crate::frames::ack_frame;
use crate::numbers::{further, later};
use crate::types::{Cfg, Connection, HeldSegment, Job, Octets, Output, Piece, State, Told};
use ix_base::{
    Bytes, FIN, List, NoMemory, Seg, SegHead, SeqNumber, WireNo, behind, has_flag, is_next, past,
};
use std::alloc::Global;
use std::mem;

/// How many segments are held out of order.
pub const MOST_HELD: usize = 8;

/// The octets of a body that lie in the window, where its first stands at this distance from what is expected.
#[tactic(auto, unfolding(crate::specs::Body::octets))]
pub fn octets(
    alloc: Global,
    rcv: u64,
    window: u16,
    seq: i64,
    at: u16,
    body: &[u8],
) -> Result<Octets, NoMemory>
    requires low { (pos 0 -ℤ pos (2 ^ 31)) ≤ℤ seq }
    requires high { seq <ℤ pos (2 ^ 31) }
    requires place { at + length body.now < 2 ^ 16 }
    ensures within { IfOk result (λ o. 0 < length o.bytes → o.at + length o.bytes ≤ rcv + window) }
    ensures frame { IfOk result (λ o. o.from + length o.bytes ≤ at + length body.now) }
    ensures octets { IfOk result (λ o. o ≡ octets_of rcv window seq at body.now) }
{
    let past = past(seq);
    let behind = behind(seq);
    let window = u64::from(window);
    let from = (behind as usize).min(body.len());
    let rest = &body[from..];
    let end = (window.saturating_sub(past) as usize).min(rest.len());
    Ok(Octets {
        at: further(rcv, past)?,
        from: at + from as u16,
        bytes: Bytes::from_slice(alloc, &rest[..end])?,
        whole: body.len() as u64 + past <= window + behind,
    })
}

/// Delivers octets that stand at what is expected.
#[tactic(auto, unfolding(crate::specs::Body::delivered))]
pub fn deliver(o: Octets, w: WireNo, job: &mut Job) -> Result<(), NoMemory>
    requires frame { o.from + length o.bytes < 2 ^ 16 }
    requires unread { job.old.connection.unread + length o.bytes < 2 ^ 16 }
    ensures rcv { OnOk result (job.new.connection.rcv ≡ job.old.connection.rcv + length o.bytes) }
    ensures unread { OnOk result (job.new.connection.unread ≤ job.old.connection.unread + length o.bytes) }
    ensures held { OnOk result (job.new.connection.held ≡ job.old.connection.held) }
    ensures step { OnOk result (job.new ≡ delivered o w job.old) }
{
    let len = o.bytes.len();
    let c = &mut job.connection;
    c.rcv = further(c.rcv, len as u64)?;
    c.ack_owed = true;
    if c.shut {
        return Ok(());
    }
    c.unread += len as u32;
    let told = c.accepted;
    let from = o.from;
    c.pieces.push(Piece {
        w,
        from,
        bytes: o.bytes,
        told,
    })?;
    if told {
        let len = len as u16;
        give(job, Output::Told(Told::Recv { w, from, len }))?;
    }
    Ok(())
}

/// Takes the held segments that begin at or before what is expected, and answers whether a FIN stands behind what was delivered last.
#[tactic(auto, using(crate::proofs::BodyLemmas::filled_none_left, crate::proofs::BodyLemmas::filled_stops), unfolding(crate::specs::Body::filled))]
pub fn fill(alloc: Global, own_fin: bool, job: &mut Job) -> Result<bool, NoMemory>
    requires held { EndsBy (job.old.connection.rcv + 65535 - job.old.connection.unread) job.old.connection.held }
    requires frames { LiesInFrames job.old.connection.held }
    requires unread { job.old.connection.unread ≤ 65535 }
    ensures { IfOk result (λ fin'. (job.new, fin') ≡ filled job.old.connection.held own_fin job.old) }
{
    let mut fin = own_fin;
    while let Some(first) = job.connection.held.get(0) {
        let rcv = job.connection.rcv;
        if rcv < first.at {
            break;
        }
        let s = job.connection.held.remove(0);
        let skip = rcv - s.at;
        if s.bytes.len() as u64 <= skip {
            continue;
        }
        let skip = skip as usize;
        let rest = Octets {
            at: rcv,
            from: s.from + skip as u16,
            bytes: Bytes::from_slice(alloc, &s.bytes.as_slice()[skip..])?,
            whole: true,
        };
        deliver(rest, s.w, job)?;
        fin = s.fin;
    }
    Ok(fin)
}

/// Whether octets share none with a held segment.
pub fn is_apart(o: &Octets, s: &HeldSegment) -> bool
    ensures { result ≡ apart_test o.now s.now }
{
    let ends_before = o.at <= s.at && o.bytes.len() as u64 <= s.at - o.at;
    ends_before || s.at <= o.at && s.bytes.len() as u64 <= o.at - s.at
}

pub fn is_apart_from_all(o: &Octets, held: &[HeldSegment]) -> bool
    ensures { result ≡ list_all (apart_test o.now) held.now }
{
    held.iter().all(|s| is_apart(o, s))
}

/// Puts a segment at its place among those that are held.
#[tactic(auto, using(crate::proofs::BodyLemmas::held_among_none, crate::proofs::BodyLemmas::held_among_before))]
pub fn insert_held(
    alloc: Global,
    held: List<HeldSegment>,
    new: HeldSegment,
) -> Result<List<HeldSegment>, NoMemory>
    ensures { IfOk result (λ out. out ≡ held_among new held) }
{
    let mut rest = held;
    let mut out = List::new(alloc);
    while let Some(first) = rest.get(0) {
        if new.at < first.at {
            break;
        }
        out.push(rest.remove(0))?;
    }
    out.push(new)?;
    out.append(rest)?;
    Ok(out)
}

/// Holds octets behind a hole, where there is room for them.
#[tactic(auto, unfolding(crate::specs::Body::waiting))]
pub fn hold(
    alloc: Global,
    o: Octets,
    w: WireNo,
    fin: bool,
    c: &mut Connection,
) -> Result<(), NoMemory>
    ensures { OnOk result (c.new ≡ waiting o w fin c.old) }
{
    if c.held.len() < MOST_HELD && is_apart_from_all(&o, c.held.as_slice()) {
        let held = mem::replace(&mut c.held, List::new(alloc));
        let new = HeldSegment {
            at: o.at,
            w,
            from: o.from,
            bytes: o.bytes,
            fin,
        };
        c.held = insert_held(alloc, held, new)?;
    }
    Ok(())
}

/// Takes octets in the window, and answers whether a FIN stands at what is expected then.
#[tactic(auto, unfolding(crate::specs::Body::received))]
pub fn receive(
    alloc: Global,
    cfg: &Cfg,
    o: Octets,
    w: WireNo,
    fin: bool,
    job: &mut Job,
) -> Result<bool, NoMemory>
    requires unread { job.old.connection.unread ≤ cfg.now.window }
    requires held { EndsBy (job.old.connection.rcv + (cfg.now.window - job.old.connection.unread)) job.old.connection.held }
    requires frames { LiesInFrames job.old.connection.held }
    requires within { o.at + length o.bytes ≤ job.old.connection.rcv + (cfg.now.window - job.old.connection.unread) }
    requires frame { o.from + length o.bytes < 2 ^ 16 }
    ensures { IfOk result (λ stands. ◌≡◌ {A = AJob × Bool} (job.new, stands) (received_part cfg.now o w fin job.old)) }
{
    let _window = cfg.window; // a proof knows the range of what is read
    if o.at == job.connection.rcv {
        deliver(o, w, job)?;
        return fill(alloc, fin, job);
    }
    let frame = ack_frame(alloc, cfg, &job.connection);
    hold(alloc, o, w, fin, &mut job.connection)?;
    give(job, frame)?;
    Ok(false)
}

/// Whether the segment's own FIN stands at what is expected.
pub fn ends_next(seg: &Seg, w: &Connection) -> bool
    requires { length seg.now.body < 2 ^ 16 }
    ensures { result ≡ ends_next_test seg.now w.now }
{
    let end = seq_of(w, &seg.head) + seg.body.len() as i64;
    has_flag(seg.head.flags, FIN) && is_next(end)
}

/// Seventh: the body. Answers whether a FIN stands at what is expected then.
#[tactic(auto, unfolding(crate::specs::Body::body))]
pub fn body(alloc: Global, cfg: &Cfg, w: WireNo, seg: &Seg, job: &mut Job) -> Result<bool, NoMemory>
    requires framed { IsFramed seg.now }
    requires unread { job.old.connection.unread ≤ cfg.now.window }
    requires held { EndsBy (job.old.connection.rcv + (cfg.now.window - job.old.connection.unread)) job.old.connection.held }
    requires frames { LiesInFrames job.old.connection.held }
    ensures { IfOk result (λ stands. ◌≡◌ {A = AJob × Bool} (job.new, stands) (body_part cfg.now w seg.now job.old)) }
{
    let c = &job.connection;
    if !c.state.takes_body() {
        return Ok(ends_next(seg, c));
    }
    let window = rcv_wnd(cfg, c);
    let seq = seq_of(c, &seg.head);
    let o = octets(alloc, c.rcv, window, seq, seg.head.at, seg.body.as_slice())?;
    if o.bytes.len() == 0 {
        return Ok(ends_next(seg, c));
    }
    let fin = has_flag(seg.head.flags, FIN) && o.whole;
    receive(alloc, cfg, o, w, fin, job)
}

/// The peer's stream ends at what is expected.
#[tactic(auto, unfolding(crate::specs::Body::fin_taken))]
pub fn take_fin(alloc: Global, cfg: &Cfg, now: u64, job: &mut Job) -> Result<(), NoMemory>
    ensures { OnOk result (job.new ≡ fin_taken_part cfg.now now job.old) }
{
    let c = &mut job.connection;
    c.rcv = further(c.rcv, 1)?;
    c.ack_owed = true;
    c.held = List::new(alloc);
    match c.state {
        State::Established => {
            c.state = State::CloseWait;
            return tell(job, Told::RecvEnd);
        }
        State::FinWait1 => c.state = State::Closing,
        State::FinWait2 => {
            c.state = State::TimeWait;
            c.deadline = Some(later(now, cfg.time_wait));
        }
        _ => {}
    }
    Ok(())
}

/// Eighth: the FIN bit.
#[tactic(auto, unfolding(crate::specs::Body::finished))]
pub fn finish(
    alloc: Global,
    cfg: &Cfg,
    head: &SegHead,
    now: u64,
    stands: bool,
    job: &mut Job,
) -> Result<(), NoMemory>
    ensures { OnOk result (job.new ≡ finished_part cfg.now head.now now stands job.old) }
{
    if stands {
        return take_fin(alloc, cfg, now, job);
    }
    let has_fin = has_flag(head.flags, FIN) && head.len == 0;
    if has_fin && SeqNumber(head.seq).is_past(rcv_nxt(&job.connection)) {
        let frame = ack_frame(alloc, cfg, &job.connection);
        give(job, frame)?;
    }
    Ok(())
}

/// Seventh and eighth: the body and the FIN.
#[tactic(auto, unfolding(crate::specs::Body::text_and_fin))]
pub fn text_and_fin(
    alloc: Global,
    cfg: &Cfg,
    w: WireNo,
    seg: &Seg,
    now: u64,
    job: &mut Job,
) -> Result<(), NoMemory>
    requires framed { IsFramed seg.now }
    requires unread { job.old.connection.unread ≤ cfg.now.window }
    requires held { EndsBy (job.old.connection.rcv + (cfg.now.window - job.old.connection.unread)) job.old.connection.held }
    requires frames { LiesInFrames job.old.connection.held }
    ensures { OnOk result (job.new ≡ text_and_fin_part cfg.now w seg.now now job.old) }
{
    let stands = body(alloc, cfg, w, seg, job)?;
    finish(alloc, cfg, &seg.head, now, stands, job)
}
