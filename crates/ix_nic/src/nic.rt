// The card.
ghost use Rattle.std.specs.Prelude.{◌≡◌, ◌≢◌, ◌≤◌, ◌<◌, ℕ, false, length, slice_index_or};
ghost use Rattle.ix_nic.specs.Cards.{Carries, HaveRoomFor, AreAtRest, AreSettled, all_waiting};
ghost use Rattle.ix_nic.specs.Offers.{Answers};
ghost use Rattle.ix_nic.specs.Ports.{PortView, IsRetried};

use crate::control::Control;
use crate::offer::{Counts, Offer};
use crate::port::{NicEnd, Port, Refusal};
use ix_base::{BUFFER_BYTES, CoreId, GroupId, NoMemory, WireNo};
use ix_mbuf::Mbuf;
use ix_reta::Reta;
use ix_ring::{PutEnd, TakeEnd};
use ix_stack::Item;
use ix_steer::frame_group;
use std::alloc::Global;
use std::marker::Model;

/// The card of one to eight cores. Contracts see its redirection table, and of each core what was put on the core's receive ring and stands
/// behind it, the buffers that the core posted, and the counts since the last settle.
#[derive(Drop)]
pub struct Nic {
    reta: Reta,
    ports: Vec<Port>,
}

impl Model for Nic {
    ghost use Rattle.std.specs.Prelude.{length};
    ghost use Rattle.ix_nic.specs.Cards.{CardView, IsCard};

    ghost Value = { CardView };

    ghost view = { λ n. record { table = n.reta; ports = n.ports.items } };

    ghost invariant = { λ n. IsCard n.reta (length n.ports.items) };
}

impl Nic {
    ghost use Rattle.std.specs.Prelude.{◌≡◌, ◌≢◌, ◌≤◌, ◌<◌, ◌+◌, ◌-◌, ◌++◌, ◌∷◌, [], ℕ, All, map, length, slice_index_or, IfOk, OnOk, OnErr};
    ghost use Rattle.ix_order.specs.Wire.{tag, move, time, settle};
    ghost use Rattle.ix_reta.specs.Table.{tenure_of};
    ghost use Rattle.ix_ring.specs.Ends.{IsRing, put_list, taken};
    ghost use Rattle.ix_steer.specs.Steering.{group_of_frame};
    ghost use Rattle.ix_nic.specs.declared.control.Control.TheVariants as controls;
    ghost use Rattle.ix_nic.specs.Cards.{Carries, ChangesOne, HaveRoom, IsUnused, AreOpen, AreAtRest, Offered, all_waiting, AreSettled, core_at, counts_of, opened};
    ghost use Rattle.ix_nic.specs.Held.{KeepsBuffers};
    ghost use Rattle.ix_nic.specs.Offers.{BothMeet, BothFreshen, BothKeep, TakesPosted, unkept};
    ghost use Rattle.ix_nic.specs.Ports.{PortView};
    ghost use Rattle.ix_nic.specs.Words.{CarriesOut, offered};

    /// The card at the opening of a play: one end for each core, in order.
    pub fn new(alloc: Global, reta: Reta, ends: Vec<NicEnd>) -> Result<Nic, NoMemory>
        requires some { 1 ≤ length ends.items }
        requires few { length ends.items ≤ 8 }
        requires cores { (group : ℕ) → group < 512 → (core_at reta group).0 < length ends.items }
        requires unused { All IsUnused ends.items }
        ensures { IfOk result (λ n. n ≡ record { table = reta; ports = map opened ends.items }) }
    {
        let mut ports = Vec::with_capacity(alloc, ends.len())?;
        for end in ends {
            ports.push(Port::new(alloc, end)?)?;
        }
        Ok(Nic { reta, ports })
    }

    /// The core of a group.
    pub fn core(&self, group: GroupId) -> CoreId
        requires { group.0 < 512 }
        ensures core { result ≡ core_at self.now.table group.0 }
        ensures within { result.0 < length self.now.ports }
    {
        self.reta.core(group)
    }

    /// Puts the items that stand behind the rings, in order, as far as each ring takes them. It answers how many still stand there.
    pub fn retry(&mut self) -> usize
        ensures table { self.new.table ≡ self.old.table }
        ensures rings { Carries controls.Nothing self.old.ports self.new.ports }
        ensures buffers { KeepsBuffers self.old.ports self.new.ports }
        ensures waiting { result ≡ all_waiting self.new.ports }
        ensures room { result < 1024 → HaveRoom self.new.ports }
    {
        carry(&mut self.ports, Control::Nothing);
        waiting(&self.ports)
    }

    /// Steers a frame to the ring of its group's core, where it is answered by the first of these that applies: it is longer than a buffer;
    /// items stand behind its ring; no buffer is kept or posted for the ring; the ring has no room, and then the buffer is kept for the next
    /// offer; it is accepted. A ring is full only with 512 items or more since the last settle, and lacks a buffer only with as many frames
    /// since then as buffers were posted at it and not handed out since.
    pub fn offer(&mut self, w: WireNo, frame: &[u8]) -> Offer
        requires { AreOpen self.old.ports }
        ensures answer { Offered w frame.now result self.old self.new }
        ensures entry { CarriesOut (offered (group_of_frame frame.now) result) w.0 self.old self.new }
    {
        carry(&mut self.ports, Control::Nothing);
        if frame.len() > BUFFER_BYTES {
            return Offer::TooLong { len: frame.len() };
        }
        let group = frame_group(frame);
        let ring = self.reta.core(group);
        offer_to(&mut self.ports, ring, w, group, frame)
    }

    /// Puts a tag of a group on the ring of its core.
    pub fn tag(&mut self, group: GroupId)
        requires group { group.0 < 512 }
        requires room { HaveRoom self.old.ports }
        ensures table { self.new.table ≡ self.old.table }
        ensures rings { Carries (controls.Tag group (core_at self.old.table group.0)) self.old.ports self.new.ports }
        ensures entry { (w : ℕ) → CarriesOut (tag group.0) w self.old self.new }
    {
        let core = self.reta.core(group);
        carry(&mut self.ports, Control::Tag { group, core });
    }

    /// Moves a group to another core: a cut on the ring that it leaves, a start on the ring that it comes to.
    pub fn turn(&mut self, group: GroupId, to: CoreId)
        requires group { group.0 < 512 }
        requires core { to.0 < length self.old.ports }
        requires other { to.0 ≢ (core_at self.old.table group.0).0 }
        requires turns { 0 < self.old.table.room }
        requires room { HaveRoom self.old.ports }
        ensures table { self.new.table ≡ record self.old.table { turns = self.old.table.turns ++ (group, to) ∷ []; room = self.old.table.room - 1 } }
        ensures rings { Carries (controls.Turn group (core_at self.old.table group.0) to (tenure_of self.old.table.turns group.0 + 1)) self.old.ports self.new.ports }
        ensures entry { (w : ℕ) → CarriesOut (move group.0 to.0) w self.old self.new }
    {
        let from = self.reta.core(group);
        self.reta.turn(group, to);
        let tenure = self.reta.tenure(group);
        let control = Control::Turn {
            group,
            from,
            to,
            tenure,
        };
        carry(&mut self.ports, control);
    }

    /// Puts a time, in milliseconds, on each ring.
    pub fn time(&mut self, w: WireNo, t: u64)
        requires { HaveRoom self.old.ports }
        ensures table { self.new.table ≡ self.old.table }
        ensures rings { Carries (controls.Time w t) self.old.ports self.new.ports }
        ensures entry { CarriesOut time w.0 self.old self.new }
    {
        carry(&mut self.ports, Control::Time { w, t });
    }

    /// Puts an end on each ring.
    pub fn end(&mut self)
        requires { HaveRoom self.old.ports }
        ensures table { self.new.table ≡ self.old.table }
        ensures rings { Carries controls.End self.old.ports self.new.ports }
        ensures entry { (w : ℕ) → CarriesOut settle w self.old self.new }
    {
        carry(&mut self.ports, Control::End);
    }

    /// Tells both ends of a core's two rings what stands in them.
    pub fn meet_ends(&mut self, core: CoreId, items: &mut TakeEnd<Item>, posted: &mut PutEnd<Mbuf>)
        requires core { core.0 < length self.old.ports }
        requires items { (d : PortView) → IsRing (slice_index_or self.old.ports core.0 d).ring items.old }
        requires posted { (d : PortView) → IsRing posted.old (slice_index_or self.old.ports core.0 d).posts }
        ensures others { ChangesOne core.0 self.old self.new }
        ensures met { (d : PortView) → BothMeet (slice_index_or self.old.ports core.0 d) (slice_index_or self.new.ports core.0 d) items.old items.new posted.old posted.new }
    {
        let port = &mut self.ports[usize::from(core.0)];
        port.meet(items, posted);
    }

    /// Makes both rings of a core anew, the receive ring being empty. Where memory runs out, both rings have the items that they had.
    pub fn fresh_ends(
        &mut self,
        alloc: Global,
        core: CoreId,
        items: &mut TakeEnd<Item>,
        posted: &mut PutEnd<Mbuf>,
    ) -> Result<(), NoMemory>
        requires core { core.0 < length self.old.ports }
        requires items { (d : PortView) → IsRing (slice_index_or self.old.ports core.0 d).ring items.old }
        requires posted { (d : PortView) → IsRing posted.old (slice_index_or self.old.ports core.0 d).posts }
        requires empty { (d : PortView) → put_list (slice_index_or self.old.ports core.0 d).ring ≡ taken items.old }
        ensures others { ChangesOne core.0 self.old self.new }
        ensures ok { OnOk result ((d : PortView) → BothFreshen (slice_index_or self.old.ports core.0 d) (slice_index_or self.new.ports core.0 d) items.old items.new posted.old posted.new) }
        ensures err { OnErr result ((d : PortView) → BothKeep (slice_index_or self.old.ports core.0 d) (slice_index_or self.new.ports core.0 d) items.old items.new posted.old posted.new) }
    {
        let port = &mut self.ports[usize::from(core.0)];
        port.fresh(alloc, items, posted)
    }

    /// Takes the next buffer that was posted to a core's ring; none only where the card knows of none. It counts as posted no longer.
    pub fn take_posted(&mut self, core: CoreId) -> Option<Mbuf>
        requires { core.0 < length self.old.ports }
        ensures others { ChangesOne core.0 self.old self.new }
        ensures taken { (d : PortView) → TakesPosted result (slice_index_or self.old.ports core.0 d) (slice_index_or self.new.ports core.0 d) }
    {
        let port = &mut self.ports[usize::from(core.0)];
        port.take_posted()
    }

    /// Takes the buffer that is kept for a core's ring; none exactly where none is kept. It counts as posted no longer.
    pub fn take_kept(&mut self, core: CoreId) -> Option<Mbuf>
        requires { core.0 < length self.old.ports }
        ensures others { ChangesOne core.0 self.old self.new }
        ensures kept { (d : PortView) → result ≡ (slice_index_or self.old.ports core.0 d).kept }
        ensures unkept { (d : PortView) → slice_index_or self.new.ports core.0 d ≡ unkept (slice_index_or self.old.ports core.0 d) }
    {
        let port = &mut self.ports[usize::from(core.0)];
        port.take_kept()
    }

    /// The counts of a core's ring since the last settle.
    pub fn counts(&self, core: CoreId) -> Counts
        requires { core.0 < length self.now.ports }
        ensures { (d : PortView) → result ≡ counts_of (slice_index_or self.now.ports core.0 d) }
    {
        self.ports[usize::from(core.0)].counts()
    }

    /// Begins the counts of every ring anew, with the buffers that are posted now.
    pub fn settled(&mut self)
        requires { AreAtRest self.old.ports }
        ensures table { self.new.table ≡ self.old.table }
        ensures rings { AreSettled self.old.ports self.new.ports }
    {
        settle(&mut self.ports);
    }
}

// Gives each ring its item of a control entry, behind all that stands there.
fn carry(ports: &mut Vec<Port>, control: Control)
    requires { HaveRoomFor control ports.old.items }
    ensures { Carries control ports.old.items ports.new.items }
{
    carry_each(ports, control);
}

fn carry_each(ports: &mut [Port], control: Control)
    requires { HaveRoomFor control ports.old }
    ensures { Carries control ports.old ports.new }
{
    for (ring, port) in ports.iter_mut().enumerate() {
        match control.item_on(ring) {
            Some(item) => port.put(item),
            None => port.retry(),
        }
    }
}

// Offers a frame to the ring of its core, behind which all was put that the ring took.
fn offer_to(ports: &mut Vec<Port>, ring: CoreId, w: WireNo, group: GroupId, frame: &[u8]) -> Offer
    requires ring { ring.0 < length ports.old.items }
    requires open { (d : PortView) → (slice_index_or ports.old.items ring.0 d).ended ≡ false }
    requires retried { (d : PortView) → IsRetried (slice_index_or ports.old.items ring.0 d) }
    requires small { length frame.now ≤ BUFFER_BYTES }
    ensures count { length ports.new.items ≡ length ports.old.items }
    ensures others { (r : ℕ) (d : PortView) → r ≢ ring.0 → slice_index_or ports.new.items r d ≡ slice_index_or ports.old.items r d }
    ensures answer { (d : PortView) → Answers w group.0 ring frame.now result (slice_index_or ports.old.items ring.0 d) (slice_index_or ports.new.items ring.0 d) }
{
    let port = &mut ports[usize::from(ring.0)];
    let Counts { items, frames, .. } = port.counts();
    match port.offer(w, group, frame) {
        Ok(buf) => Offer::Accepted { ring, group, buf },
        Err(Refusal::RingFull) => Offer::RingFull { ring, group, items },
        Err(Refusal::NoBuffer) => Offer::NoBuffer {
            ring,
            group,
            frames,
        },
    }
}

// Begins the counts of every ring anew.
fn settle(ports: &mut [Port])
    requires { AreAtRest ports.old }
    ensures { AreSettled ports.old ports.new }
{
    for port in ports.iter_mut() {
        port.settle();
    }
}

// How many items stand behind the rings.
fn waiting(ports: &[Port]) -> usize
    requires { length ports.now ≤ 8 }
    ensures { result ≡ all_waiting ports.now }
{
    let mut sum = 0;
    for port in ports {
        sum += port.waiting();
    }
    sum
}
