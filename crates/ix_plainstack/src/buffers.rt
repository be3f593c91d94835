// The buffers that a group owns, and those that it doesn't need any more.
ghost use Rattle.std.specs.Prelude.{◌≡◌, ◌≤◌, ◌<◌, ◌^◌, ◌+◌, ◌++◌, [], length, vec_len, count_by, IfOk, OnOk};
ghost use Rattle.std.specs.List.{position};
ghost use Rattle.ix_plainstack.specs.Kept.{has_number, first_with, without, kept_of, left_of, buffers_of};
ghost use Rattle.ix_plainstack.specs.Owning.{no_buffers, found_by, settled_by, is_at_home, counts_at};

use crate::numbers::Numbers;
use ix_base::{CoreId, NoMemory, Owned, WireNo};
use ix_mbuf::Mbuf;
use ix_stack::Taken;
use std::alloc::Global;
use std::marker::Model;
use std::mem::replace;

/// The buffers of a group with their frames: of segments held out of order, of told parts that the application has, and of those that
/// are queued; and the buffers that wait to be handed out.
#[derive(Drop)]
pub struct Buffers {
    held: Vec<Taken>,
    app: Vec<Taken>,
    queue: Vec<Taken>,
    freed: Vec<Mbuf>,
}

impl Model for Buffers {
    ghost use Rattle.std.specs.Prelude.{◌<◌, ◌^◌, length};
    ghost use Rattle.ix_plainstack.specs.Owning.{Buffered};

    ghost Value = { Buffered };

    ghost view = { λ b. record { held = b.held.items; app = b.app.items; queue = b.queue.items; freed = b.freed.items } };

    // no more than a count tells
    ghost invariant = { λ b. (length b.held.items < 2 ^ 32) × (length b.app.items < 2 ^ 32) × (length b.queue.items < 2 ^ 32) };
}

// The place of the first frame with this number.
fn place_of(number: WireNo, frames: &[Taken]) -> Option<usize>
    ensures { result ≡ position (has_number number) frames.now }
{
    frames.iter().position(|taken| taken.w.0 == number.0)
}

// Moves the first frame with this number, if there is one.
#[tactic(auto, using(crate::proofs::KeptLaws::for_one))]
fn move_one(number: WireNo, from: &mut Vec<Taken>, to: &mut Vec<Taken>) -> Result<(), NoMemory>
    ensures to { OnOk result (to.new.items ≡ to.old.items ++ first_with number from.old.items) }
    ensures from { OnOk result (from.new.items ≡ without number from.old.items) }
    ensures count { OnOk result (length to.new.items ≤ length to.old.items + 1) }
{
    let Some(place) = place_of(number, from.as_slice()) else {
        return Ok(());
    };
    to.reserve(1)?;
    let taken = from.remove(place);
    to.push_reserved(taken);
    Ok(())
}

// Takes for each of these numbers the first frame that has it out of others. More than a count tells fit in no memory.
#[tactic(auto, using(crate::proofs::KeptLaws::for_all))]
fn take_numbered(
    alloc: Global,
    numbers: &[WireNo],
    from: &mut Vec<Taken>,
) -> Result<Vec<Taken>, NoMemory>
    ensures kept { IfOk result (λ kept. kept.items ≡ kept_of numbers.now from.old.items) }
    ensures left { OnOk result (from.new.items ≡ left_of numbers.now from.old.items) }
    ensures few { IfOk result (λ kept. length kept.items < 2 ^ 32) }
{
    let mut kept = Vec::new(alloc);
    if numbers.len() > u32::MAX as usize {
        return Err(NoMemory);
    }
    for number in numbers {
        move_one(*number, from, &mut kept)?;
    }
    Ok(kept)
}

// Puts the buffers of these frames behind others.
#[tactic(auto, using(crate::proofs::KeptLaws::buffers_push))]
fn free_all(frames: Vec<Taken>, freed: &mut Vec<Mbuf>) -> Result<(), NoMemory>
    ensures { OnOk result (freed.new.items ≡ freed.old.items ++ buffers_of frames.items) }
{
    for taken in frames {
        let Taken { w: _, buf } = taken;
        freed.push(buf)?;
    }
    Ok(())
}

// How many of these frames lie in buffers of this home.
fn count_at(home: CoreId, frames: &[Taken]) -> u32
    requires { length frames.now < 2 ^ 32 }
    ensures { result ≡ count_by (is_at_home home.0) frames.now }
{
    frames
        .iter()
        .filter(|taken| taken.buf.id().home.0 == home.0)
        .count() as u32
}

impl Buffers {
    /// No buffers.
    pub fn new(alloc: Global) -> Buffers
        ensures { result ≡ no_buffers }
    {
        Buffers {
            held: Vec::new(alloc),
            app: Vec::new(alloc),
            queue: Vec::new(alloc),
            freed: Vec::new(alloc),
        }
    }

    // Takes out all frames whose buffers may be owned after a cycle: those of before, and those that came.
    fn found(&mut self, alloc: Global, came: Vec<Taken>) -> Result<Vec<Taken>, NoMemory>
        ensures found { IfOk result (λ found. found.items ≡ found_by self.old came.items) }
        ensures freed { self.new.freed ≡ self.old.freed }
    {
        let mut came = came;
        let mut found = Vec::new(alloc);
        found.append(&mut self.held)?;
        found.append(&mut self.app)?;
        found.append(&mut self.queue)?;
        found.append(&mut came)?;
        Ok(found)
    }

    /// Keeps those with these numbers of the buffers of before and of those that came, and lays the others aside to be handed out.
    pub fn settle(
        &mut self,
        alloc: Global,
        numbers: &Numbers,
        came: Vec<Taken>,
    ) -> Result<(), NoMemory>
        ensures { OnOk result (self.new ≡ settled_by numbers.now.held.items numbers.now.app.items numbers.now.queue.items (found_by self.old came.items) self.old.freed) }
    {
        let mut found = self.found(alloc, came)?;
        let held = take_numbered(alloc, numbers.held.as_slice(), &mut found)?;
        let app = take_numbered(alloc, numbers.app.as_slice(), &mut found)?;
        let queue = take_numbered(alloc, numbers.queue.as_slice(), &mut found)?;
        free_all(found, &mut self.freed)?;
        self.held = held;
        self.app = app;
        self.queue = queue;
        Ok(())
    }

    /// Hands out the buffers that wait.
    pub fn drain(&mut self, alloc: Global) -> Vec<Mbuf>
        ensures given { result.items ≡ self.old.freed }
        ensures rest { self.new ≡ record self.old { freed = [] } }
    {
        replace(&mut self.freed, Vec::new(alloc))
    }

    /// Hands out all buffers.
    pub fn drain_all(&mut self, alloc: Global) -> Result<Vec<Mbuf>, NoMemory>
        ensures given { IfOk result (λ bufs. bufs.items ≡ buffers_of self.old.held ++ (buffers_of self.old.app ++ (buffers_of self.old.queue ++ self.old.freed))) }
        ensures rest { OnOk result (self.new ≡ no_buffers) }
    {
        let mut bufs = Vec::new(alloc);
        free_all(replace(&mut self.held, Vec::new(alloc)), &mut bufs)?;
        free_all(replace(&mut self.app, Vec::new(alloc)), &mut bufs)?;
        free_all(replace(&mut self.queue, Vec::new(alloc)), &mut bufs)?;
        bufs.append(&mut self.freed)?;
        Ok(bufs)
    }

    /// How many buffers of a home are held, with the application, and queued.
    pub fn owned(&self, home: CoreId) -> Owned
        ensures { result ≡ counts_at self.now home.0 }
    {
        Owned {
            held: count_at(home, self.held.as_slice()),
            app: count_at(home, self.app.as_slice()),
            queue: count_at(home, self.queue.as_slice()),
        }
    }
}
