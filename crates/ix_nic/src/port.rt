// The card's side of one receive ring.
ghost use Rattle.std.specs.Prelude.{◌≡◌, ◌≤◌, ◌+◌, ◌++◌, ◌⊎◌, [], ◌∷◌, length, IfSome, IfNone};
ghost use Rattle.std.specs.VecDeque.{deque_capacity};
ghost use mathlib.Core.List.{IsPrefix};
ghost use Rattle.ix_ring.specs.Ends.{put_list, spare, taken, known};
ghost use Rattle.ix_nic.specs.Ports.{PutsOn, TakesNext, capped};

use crate::offer::Counts;
use ix_base::{BUFFER_BYTES, BufId, GroupId, NoMemory, WireNo};
use ix_mbuf::Mbuf;
use ix_ring::{PutEnd, TakeEnd, fresh, meet};
use ix_stack::Item;
use std::alloc::Global;
use std::collections::VecDeque;
use std::marker::Model;

/// How many items can stand behind a ring.
const MOST_BEHIND: usize = 1024;

/// The card's ends of one core's rings.
#[derive(Drop)]
pub struct NicEnd {
    /// Puts on the core's receive ring.
    pub items: PutEnd<Item>,
    /// Takes the buffers that the core posts.
    pub posted: TakeEnd<Mbuf>,
}

/// The card's side of one receive ring.
#[derive(Drop)]
pub(crate) struct Port {
    items: PutEnd<Item>,
    behind: VecDeque<Item>,
    posts: TakeEnd<Mbuf>,
    kept: Option<Mbuf>,
    item_count: u32,
    frame_count: u32,
    posted: u32,
    ended: bool,
}

/// Why a ring takes no frame.
#[derive(Clone, Copy, PartialEq, Eq)]
pub(crate) enum Refusal {
    RingFull,
    NoBuffer,
}

impl Model for Port {
    ghost use Rattle.std.specs.Prelude.{length};
    ghost use Rattle.std.specs.VecDeque.{deque_capacity};
    ghost use Rattle.ix_nic.specs.Ports.{PortView, HasRoom, IsBacked, kept_count};

    ghost Value = { PortView };

    ghost view = { λ p. record {
      ring = p.items;
      behind = p.behind.items;
      posts = p.posts;
      kept = p.kept;
      items = p.item_count;
      frames = p.frame_count;
      posted = p.posted;
      ended = p.ended;
    } };

    ghost invariant = { λ p. HasRoom (deque_capacity p.behind) (length p.behind.items) p.items.spare p.item_count p.ended × IsBacked (length p.posts.known) (kept_count p.kept) p.frame_count p.posted };
}

impl Port {
    ghost use Rattle.std.specs.Prelude.{◌≡◌, ◌≤◌, ◌<◌, ◌-◌, [], Some, None, false, length, IfOk, IfErr, OnOk, OnErr, MatchOption};
    ghost use Rattle.ix_ring.specs.Ends.{put_list, spare, places, taken, known, IsRing};
    ghost use Rattle.ix_nic.specs.Ports.{PortView, Puts, IsRetried, posted_now, kept_count};
    ghost use Rattle.ix_nic.specs.Offers.{Accepts, Refuses, BothMeet, BothFreshen, BothKeep, TakesPosted, unkept};
    ghost use Rattle.ix_nic.specs.Cards.{opened, settled, IsAtRest};

    /// The card's side of a ring, with room for 1,024 items behind it.
    pub(crate) fn new(alloc: Global, end: NicEnd) -> Result<Port, NoMemory>
        requires { 512 ≤ spare end.items }
        ensures { IfOk result (λ p. p ≡ opened end) }
    {
        let NicEnd {
            items,
            posted: posts,
        } = end;
        let posted = capped(posts.known_count());
        Ok(Port {
            items,
            behind: VecDeque::with_capacity(alloc, MOST_BEHIND)?,
            posts,
            kept: None,
            item_count: 0,
            frame_count: 0,
            posted,
            ended: false,
        })
    }

    /// How many items stand behind the ring.
    pub(crate) fn waiting(&self) -> usize
        ensures count { result ≡ length self.now.behind }
        ensures few { result ≤ 1024 }
    {
        self.behind.len()
    }

    /// Puts what stands behind the ring, as far as the ring takes it.
    pub(crate) fn retry(&mut self)
        ensures { Puts None self.old self.new }
    {
        retry(&mut self.items, &mut self.behind);
    }

    /// Puts an item behind all that is there, and then what stands behind the ring, as far as the ring takes it.
    pub(crate) fn put(&mut self, item: Item)
        requires { length self.old.behind < 1024 }
        ensures { Puts (Some item) self.old self.new }
    {
        match item {
            Item::End => self.ended = true,
            _ => self.item_count = self.item_count.saturating_add(1),
        }
        self.behind.push_back_reserved(item);
        retry(&mut self.items, &mut self.behind);
    }

    /// Puts a frame on the ring, in the buffer that is kept or the next that was posted.
    pub(crate) fn offer(
        &mut self,
        w: WireNo,
        group: GroupId,
        frame: &[u8],
    ) -> Result<BufId, Refusal>
        requires open { self.old.ended ≡ false }
        requires retried { IsRetried self.old }
        requires small { length frame.now ≤ BUFFER_BYTES }
        ensures ok { IfOk result (λ id. Accepts w group frame.now id self.old self.new) }
        ensures err { IfErr result (λ refusal. Refuses frame.now refusal self.old self.new) }
    {
        if !self.behind.is_empty() {
            return Err(Refusal::RingFull);
        }
        let Some(mut buf) = next_buffer(&mut self.kept, &mut self.posts) else {
            return Err(Refusal::NoBuffer);
        };
        buf.fill(frame);
        let id = buf.id();
        match self.items.put(Item::Frame { w, group, buf }) {
            Ok(()) => {
                self.item_count = self.item_count.saturating_add(1);
                self.frame_count = self.frame_count.saturating_add(1);
                Ok(id)
            }
            Err(
                Item::Frame {
                    w: _,
                    group: _,
                    buf,
                },
            ) => {
                self.kept = Some(buf);
                Err(Refusal::RingFull)
            }
            Err(_) => unreachable!(),
        }
    }

    /// Begins the counts anew, with the buffers that are posted now.
    pub(crate) fn settle(&mut self)
        requires { IsAtRest self.old }
        ensures { self.new ≡ settled self.old }
    {
        let counts = self.counts();
        self.item_count = 0;
        self.frame_count = 0;
        self.posted = counts.posted;
        self.ended = false;
    }

    /// Takes the next buffer that was posted.
    pub(crate) fn take_posted(&mut self) -> Option<Mbuf>
        ensures { TakesPosted result self.old self.new }
    {
        match self.posts.take() {
            Some(buf) => {
                self.posted = self.posted.saturating_sub(1);
                Some(buf)
            }
            None => None,
        }
    }

    /// Takes the buffer that is kept.
    pub(crate) fn take_kept(&mut self) -> Option<Mbuf>
        ensures kept { result ≡ self.old.kept }
        ensures unkept { self.new ≡ unkept self.old }
    {
        match self.kept.take() {
            Some(buf) => {
                self.posted = self.posted.saturating_sub(1);
                Some(buf)
            }
            None => None,
        }
    }

    /// Tells both ends of both rings what stands in them.
    pub(crate) fn meet(&mut self, items: &mut TakeEnd<Item>, posted: &mut PutEnd<Mbuf>)
        requires items { IsRing self.old.ring items.old }
        requires posted { IsRing posted.old self.old.posts }
        ensures { BothMeet self.old self.new items.old items.new posted.old posted.new }
    {
        meet(&mut self.items, items);
        meet(posted, &mut self.posts);
    }

    /// Makes both rings anew.
    pub(crate) fn fresh(
        &mut self,
        alloc: Global,
        items: &mut TakeEnd<Item>,
        posted: &mut PutEnd<Mbuf>,
    ) -> Result<(), NoMemory>
        requires items { IsRing self.old.ring items.old }
        requires posted { IsRing posted.old self.old.posts }
        requires empty { put_list self.old.ring ≡ taken items.old }
        ensures ok { OnOk result (BothFreshen self.old self.new items.old items.new posted.old posted.new) }
        ensures err { OnErr result (BothKeep self.old self.new items.old items.new posted.old posted.new) }
    {
        fresh(alloc, &mut self.items, items)?;
        fresh(alloc, posted, &mut self.posts)
    }

    /// The counts since the last settle.
    pub(crate) fn counts(&self) -> Counts
        ensures { result ≡ record { posted = posted_now self.now; frames = self.now.frames; items = self.now.items } }
    {
        let known = self.posts.known_count();
        let posted = match self.kept {
            Some(_) => capped(known.saturating_add(1)),
            None => capped(known),
        };
        Counts {
            posted,
            frames: self.frame_count,
            items: self.item_count,
        }
    }
}

// Puts what stands behind a ring on it, in order, until the ring gives an item back.
fn retry(items: &mut PutEnd<Item>, behind: &mut VecDeque<Item>)
    ensures ring { PutsOn items.old items.new }
    ensures whole { put_list items.new ++ behind.new.items ≡ put_list items.old ++ behind.old.items }
    ensures stops { (behind.new.items ≡ []) ⊎ (spare items.new ≡ 0) }
    ensures room { length behind.new.items + spare items.old ≤ spare items.new + length behind.old.items }
    ensures fewer { length behind.new.items ≤ length behind.old.items }
    ensures capacity { deque_capacity behind.new ≡ deque_capacity behind.old }
{
    while let Some(item) = behind.pop_front() {
        if let Err(item) = items.put(item) {
            behind.push_front_reserved(item);
            return;
        }
    }
}

// The buffer that is kept, or the next that was posted.
fn next_buffer(kept: &mut Option<Mbuf>, posts: &mut TakeEnd<Mbuf>) -> Option<Mbuf>
    ensures some { IfSome result (λ buf. TakesNext kept.old posts.old buf posts.new) }
    ensures none { IfNone result ((kept.old ≡ None) × (posts.new ≡ posts.old) × (known posts.old ≡ [])) }
    ensures kept { kept.new ≡ None }
{
    match kept.take() {
        Some(buf) => Some(buf),
        None => posts.take(),
    }
}

// A count, at most the greatest number of its type.
fn capped(count: usize) -> u32
    ensures { result ≡ capped count }
{
    count.min(u32::MAX as usize) as u32
}
