// The two ends.

use rtrb::{Consumer, Producer, PushError};
use std::marker::Model;

mod both;

pub use both::{fresh, meet, ring};

/// The end that puts. It may move to another thread.
///
/// Contracts see the list of what was put, and the spare: the number of free places that this end knows of, at most those that are free.
#[derive(Drop)]
pub struct PutEnd<T> {
    producer: Producer<T>,
    spare: usize,
}

/// The end that takes. It may move to another thread.
///
/// Contracts see the list of what was taken, and the items in the ring that this end knows of.
#[derive(Drop)]
pub struct TakeEnd<T> {
    consumer: Consumer<T>,
}

impl<T> Model for PutEnd<T> {
    ghost use Rattle.std.specs.Prelude.{◌≤◌};
    ghost use Rattle.rtrb.specs.Ring.{known_free, producer_capacity, sent};
    ghost use Rattle.ix_ring.specs.Views.{PutView};

    ghost Value = { PutView T };

    ghost view = { λ p. record { ring = (p.producer.end.words, p.producer.end.slots, p.producer.end.names, p.producer.end.heap); places = producer_capacity p.producer; put = sent p.producer; spare = p.spare } };

    ghost invariant = { λ p. (p.spare ≤ known_free p.producer) × (1 ≤ producer_capacity p.producer) };
}

impl<T> Model for TakeEnd<T> {
    ghost use Rattle.rtrb.specs.Ring.{received, known_items};
    ghost use Rattle.ix_ring.specs.Views.{TakeView};

    ghost Value = { TakeView T };

    ghost view = { λ t. record { ring = (t.consumer.end.words, t.consumer.end.slots, t.consumer.end.names, t.consumer.end.heap); taken = received t.consumer; known = known_items t.consumer } };
}

impl<T> PutEnd<T> {
    ghost use Rattle.std.specs.Prelude.{◌≡◌, ◌+◌, ◌≤◌, ◌<◌, [], ◌∷◌, ◌++◌, OnOk, IfErr};
    ghost use Rattle.ix_ring.specs.Ends.{put_list, spare, SamePutEnd};

    // Puts an item into a place that this end knows to be free.
    fn put_reserved(&mut self, item: T)
        requires { 0 < spare self.old }
        ensures ring { SamePutEnd self.old self.new }
        ensures put { (put_list self.new ≡ put_list self.old ++ item ∷ []) × (spare self.old ≡ spare self.new + 1) }
    {
        self.producer.push_reserved(item);
        self.spare -= 1;
    }

    /// Puts an item, or hands it back: only where this end knows of no free place.
    pub fn put(&mut self, item: T) -> Result<(), T>
        ensures ring { SamePutEnd self.old self.new }
        ensures ok { OnOk result ((put_list self.new ≡ put_list self.old ++ item ∷ []) × (spare self.old ≤ spare self.new + 1)) }
        ensures back { IfErr result (λ x. (x ≡ item) × (put_list self.new ≡ put_list self.old) × (spare self.old ≡ 0) × (spare self.new ≡ 0)) }
    {
        if self.spare > 0 {
            self.producer.push_reserved(item);
            self.spare -= 1;
            return Ok(());
        }
        match self.producer.push(item) {
            Ok(()) => Ok(()),
            Err(PushError::Full(item)) => Err(item),
        }
    }
}

impl<T> TakeEnd<T> {
    ghost use Rattle.std.specs.Prelude.{◌≡◌, ◌<◌, [], ◌∷◌, ◌++◌, length, IfSome, IfNone};
    ghost use mathlib.Core.List.{IsPrefix};
    ghost use Rattle.ix_ring.specs.Ends.{taken, known, SameTakeEnd};

    /// The number of items in the ring that this end knows of.
    pub fn known_count(&self) -> usize
        ensures { result ≡ length (known self.now) }
    {
        self.consumer.cached_slots()
    }

    // Takes an item that this end knows of.
    fn take_known(&mut self) -> T
        requires { 0 < length (known self.old) }
        ensures ring { SameTakeEnd self.old self.new }
        ensures taken { (taken self.new ≡ taken self.old ++ result ∷ []) × (known self.old ≡ result ∷ known self.new) }
    {
        self.consumer.pop_known()
    }

    /// Takes the oldest item. There is none only where this end knows of none, so after `meet` exactly where the ring is empty.
    pub fn take(&mut self) -> Option<T>
        ensures ring { SameTakeEnd self.old self.new }
        ensures some { IfSome result (λ x. (taken self.new ≡ taken self.old ++ x ∷ []) × IsPrefix (known self.old) (x ∷ known self.new)) }
        ensures none { IfNone result ((taken self.new ≡ taken self.old) × (known self.old ≡ []) × (known self.new ≡ [])) }
    {
        self.consumer.pop().ok()
    }
}
