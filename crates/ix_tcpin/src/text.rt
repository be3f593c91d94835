// The body and the FIN of a segment.
ghost use Rattle.std.specs.Prelude.{◌≡◌, ◌≤◌, ◌<◌, ◌+◌, ◌^◌, ◌-ℤ◌, ◌≤ℤ◌, ◌<ℤ◌, pos, false, [], length};
ghost use Rattle.std.specs.List.{list_all};
ghost use Rattle.arrayvec.specs.ArrayVec.{array_vec_len};
ghost use Rattle.ix_tcpin.specs.Work.{work};
ghost use Rattle.ix_tcpin.specs.Text.{
  octets_in,
  moved as moved_of,
  end_of as end_number,
  rest_use as rest_use_of,
  filled_numbers,
  fills,
  taken_body as taken_body_of,
  is_beside as beside_test,
  place_among as place_of,
  waiting_part,
  received_part,
  stands_next as stands_test,
  body_part,
  fin_part,
  finished_part,
  text_part,
  texted,
};

use crate::checks::distance;
use crate::heads::ack_head;
use crate::verdict::{HeldUse, Take, Uses, Verdict, drop_kept, keep};
use crate::words::tell;
use arrayvec::ArrayVec;
use ix_base::{FIN, SegHead, SeqNumber, behind, has_flag, is_next, past};
use ix_tcpdef::{Cfg, HeldHead, MOST_HELD, State, Tcb, Told, later, offered_window};

/// The octets of a body that lie in the window.
#[derive(Clone, Copy)]
pub struct Octets {
    /// How far the first stands past what is expected.
    pub past: u32,
    /// Its place in the body, and the place behind the last.
    pub from: u16,
    pub to: u16,
    /// Whether none was cut off behind them.
    pub whole: bool,
}

/// The octets of a body of this length, where its first stands at this distance from what is expected.
#[tactic(auto, unfolding(crate::specs::Text::octets_in))]
fn octets_within(window: u16, distance: i64, len: u16) -> Octets
    requires low { (pos 0 -ℤ pos (2 ^ 31)) ≤ℤ distance }
    requires high { distance <ℤ pos (2 ^ 31) }
    ensures order { result.from ≤ result.to }
    ensures within { result.to ≤ len }
    ensures value { result ≡ octets_in window distance len }
{
    let past = past(distance) as u32;
    let behind = behind(distance);
    let room = u32::from(window).saturating_sub(past);
    let from = behind.min(u64::from(len)) as u16;
    let to = from + room.min(u32::from(len - from)) as u16;
    Octets {
        past,
        from,
        to,
        whole: u64::from(len) + u64::from(past) <= u64::from(window) + behind,
    }
}

/// So many octets are taken.
fn advance(n: u32, tcb: &mut Tcb)
    ensures held { tcb.new.held ≡ tcb.old.held }
    ensures value { tcb.new ≡ moved_of n tcb.old }
{
    tcb.rcv_nxt = SeqNumber(tcb.rcv_nxt).advanced(n).0;
    tcb.ack_owed = true;
    if !tcb.shut {
        tcb.unread = tcb.unread.saturating_add(n);
    }
}

/// The number behind a held segment's octets.
fn end_of(held: &HeldHead) -> SeqNumber
    ensures { result.0 ≡ end_number held.now }
{
    SeqNumber(held.at).advanced(u32::from(held.len))
}

/// What is made of a held segment that is reached.
fn rest_use(tcb: &Tcb, held: &HeldHead) -> HeldUse
    ensures { result ≡ rest_use_of tcb.now held.now }
{
    if tcb.shut {
        return HeldUse::Drop;
    }
    let skip = SeqNumber(held.at).ahead(SeqNumber(tcb.rcv_nxt));
    HeldUse::Deliver {
        from: skip.min(u32::from(held.len)) as u16,
    }
}

/// Takes the held segments that begin at or before what is expected, and answers whether a FIN stands behind what was taken last.
#[tactic(auto, using(crate::proofs::HeldLemmas::filled_none_left, crate::proofs::HeldLemmas::filled_stops), unfolding(crate::specs::Text::filled_numbers))]
fn fill(own_fin: bool, tcb: &mut Tcb, uses: &mut Uses) -> bool
    requires { uses.old.items ≡ [] }
    ensures numbers { tcb.new ≡ (filled_numbers tcb.old.held.items own_fin tcb.old).numbers }
    ensures uses { uses.new.items ≡ (filled_numbers tcb.old.held.items own_fin tcb.old).uses }
    ensures fin { result ≡ (filled_numbers tcb.old.held.items own_fin tcb.old).fin }
{
    let _held = tcb.held.len(); // a proof knows the room of what is asked for its length
    let mut fin = own_fin;
    while let Some(first) = tcb.held.get(0) {
        let head = *first;
        let expected = SeqNumber(tcb.rcv_nxt);
        if SeqNumber(head.at).is_past(expected) {
            break;
        }
        tcb.held.remove(0);
        let end = end_of(&head);
        if !end.is_past(expected) {
            uses.push(HeldUse::Drop);
            continue;
        }
        uses.push(rest_use(tcb, &head));
        advance(expected.ahead(end), tcb);
        fin = head.fin;
    }
    keep(tcb.held.as_slice(), uses);
    fin
}

/// What is made of octets that are taken.
fn taken_body(tcb: &Tcb, octets: Octets) -> Take
    ensures { result ≡ taken_body_of tcb.now octets }
{
    let Octets { from, to, .. } = octets;
    if tcb.shut {
        Take::Discard { from, to }
    } else {
        Take::Deliver { from, to }
    }
}

/// Whether octets share none with a held segment.
fn is_beside(expected: SeqNumber, octets: Octets, held: &HeldHead) -> bool
    requires { octets.from ≤ octets.to }
    ensures { result ≡ beside_test expected.0 octets held.now }
{
    let begin = u64::from(expected.ahead(SeqNumber(held.at)));
    let end = begin + u64::from(held.len);
    let past = u64::from(octets.past);
    past + u64::from(octets.to - octets.from) <= begin || end <= past
}

fn is_beside_all(expected: SeqNumber, octets: Octets, held: &[HeldHead]) -> bool
    requires { octets.from ≤ octets.to }
    ensures { result ≡ list_all (beside_test expected.0 octets) held.now }
{
    held.iter().all(|head| is_beside(expected, octets, head))
}

/// How many held segments begin before octets that are so far past what is expected.
#[tactic(auto, using(crate::proofs::HeldLemmas::place_here, crate::proofs::HeldLemmas::place_next, crate::proofs::HeldLemmas::place_last))]
pub fn place_among(expected: SeqNumber, past: u32, held: &[HeldHead]) -> usize
    ensures within { result ≤ length held.now }
    ensures value { result ≡ place_of expected.0 past held.now }
{
    for (place, head) in held.iter().enumerate() {
        if past < expected.ahead(SeqNumber(head.at)) {
            return place;
        }
    }
    held.len()
}

/// Holds octets behind a hole, where there is room for them.
#[tactic(auto, unfolding(crate::specs::Text::waiting_part))]
fn hold(octets: Octets, fin: bool, tcb: &mut Tcb, verdict: &mut Verdict)
    requires { octets.from ≤ octets.to }
    ensures told { verdict.new.told ≡ verdict.old.told }
    ensures step { work tcb.new verdict.new ≡ waiting_part octets fin (work tcb.old verdict.old) }
{
    let expected = SeqNumber(tcb.rcv_nxt);
    let held = tcb.held.as_slice();
    if held.len() >= MOST_HELD || !is_beside_all(expected, octets, held) {
        return;
    }
    let place = place_among(expected, octets.past, held);
    let head = HeldHead {
        at: expected.advanced(octets.past).0,
        len: octets.to - octets.from,
        fin,
    };
    tcb.held.insert(place, head);
    verdict.take = Take::Hold {
        from: octets.from,
        to: octets.to,
    };
}

/// Takes octets in the window, and answers whether a FIN stands at what is expected then.
#[tactic(auto, unfolding(crate::specs::Text::received_part))]
fn receive(cfg: &Cfg, octets: Octets, fin: bool, tcb: &mut Tcb, verdict: &mut Verdict) -> bool
    requires { octets.from ≤ octets.to }
    ensures told { verdict.new.told ≡ verdict.old.told }
    ensures step { texted (work tcb.new verdict.new) result ≡ received_part cfg.now octets fin (work tcb.old verdict.old) }
{
    if octets.past != 0 {
        let reply = ack_head(cfg, tcb);
        hold(octets, fin, tcb, verdict);
        verdict.reply = Some(reply);
        return false;
    }
    verdict.take = taken_body(tcb, octets);
    advance(u32::from(octets.to - octets.from), tcb);
    let mut uses = ArrayVec::new();
    let stands = fill(fin, tcb, &mut uses);
    verdict.held = uses;
    stands
}

/// Whether the segment's own FIN stands at what is expected.
fn stands_next(head: &SegHead, tcb: &Tcb) -> bool
    ensures { result ≡ stands_test head.now tcb.now }
{
    let end = distance(tcb, head) + i64::from(head.len);
    has_flag(head.flags, FIN) && is_next(end)
}

/// Seventh: the body. Answers whether a FIN stands at what is expected then.
#[tactic(auto, unfolding(crate::specs::Text::body_part))]
fn take_body(cfg: &Cfg, head: &SegHead, tcb: &mut Tcb, verdict: &mut Verdict) -> bool
    ensures told { verdict.new.told ≡ verdict.old.told }
    ensures step { texted (work tcb.new verdict.new) result ≡ body_part cfg.now head.now (work tcb.old verdict.old) }
{
    if !tcb.state.takes_body() {
        return stands_next(head, tcb);
    }
    let octets = octets_within(
        offered_window(cfg, tcb.unread),
        distance(tcb, head),
        head.len,
    );
    if octets.to == octets.from {
        return stands_next(head, tcb);
    }
    let fin = has_flag(head.flags, FIN) && octets.whole;
    receive(cfg, octets, fin, tcb, verdict)
}

/// The peer's stream ends at what is expected.
#[tactic(auto, unfolding(crate::specs::Text::fin_part))]
fn take_fin(cfg: &Cfg, now: u64, tcb: &mut Tcb, verdict: &mut Verdict)
    requires { array_vec_len verdict.old.told ≤ 3 }
    ensures { work tcb.new verdict.new ≡ fin_part cfg.now now (work tcb.old verdict.old) }
{
    tcb.rcv_nxt = SeqNumber(tcb.rcv_nxt).advanced(1).0;
    tcb.ack_owed = true;
    tcb.held = ArrayVec::new();
    verdict.held = drop_kept(&verdict.held);
    match tcb.state {
        State::Established => {
            tcb.state = State::CloseWait;
            tell(Told::RecvEnd, tcb, verdict);
        }
        State::FinWait1 => tcb.state = State::Closing,
        State::FinWait2 => {
            tcb.state = State::TimeWait;
            tcb.deadline = Some(later(now, cfg.time_wait));
        }
        _ => {}
    }
}

/// Eighth: the FIN bit.
#[tactic(auto, unfolding(crate::specs::Text::finished_part))]
fn finish(cfg: &Cfg, head: &SegHead, now: u64, stands: bool, tcb: &mut Tcb, verdict: &mut Verdict)
    requires { array_vec_len verdict.old.told ≤ 3 }
    ensures { work tcb.new verdict.new ≡ finished_part cfg.now head.now now (texted (work tcb.old verdict.old) stands) }
{
    if stands {
        take_fin(cfg, now, tcb, verdict);
        return;
    }
    let has_fin = has_flag(head.flags, FIN) && head.len == 0;
    if has_fin && SeqNumber(head.seq).is_past(SeqNumber(tcb.rcv_nxt)) {
        verdict.reply = Some(ack_head(cfg, tcb));
    }
}

/// Seventh and eighth: the body and the FIN.
#[tactic(auto, unfolding(crate::specs::Text::text_part))]
pub fn take_text(cfg: &Cfg, head: &SegHead, now: u64, tcb: &mut Tcb, verdict: &mut Verdict)
    requires { array_vec_len verdict.old.told ≤ 3 }
    ensures { work tcb.new verdict.new ≡ text_part cfg.now head.now now (work tcb.old verdict.old) }
{
    let stands = take_body(cfg, head, tcb, verdict);
    finish(cfg, head, now, stands, tcb, verdict);
}
