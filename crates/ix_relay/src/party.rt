// The two actors.
ghost use Rattle.std.specs.Prelude.{◌≤◌, vec_len};

use ix_base::NoMemory;
use ix_ring::{PutEnd, TakeEnd};
use ix_run::{Actor, Turn};

/// Puts a list, item by item.
#[derive(Drop)]
pub struct Sender {
    /// The end that it puts into.
    pub put: PutEnd<u32>,
    /// The list.
    pub items: Vec<u32>,
    /// The place of the item that it puts next.
    pub next: usize,
    pub ghost within: { next ≤ vec_len items },
}

/// Takes what comes, and keeps it in order.
#[derive(Drop)]
pub struct Receiver {
    /// The end that it takes from.
    pub take: TakeEnd<u32>,
    /// What it took, in order.
    pub got: Vec<u32>,
    /// Whether one of its turns found no memory.
    pub failed: bool,
}

/// One of the two.
#[derive(Drop)]
pub enum Party {
    /// The one that puts.
    Sender(Sender),
    /// The one that takes.
    Receiver(Receiver),
}

impl Sender {
    ghost use Rattle.std.specs.Prelude.{◌≡◌, [], ◌↔◌};
    ghost use Rattle.ix_relay.specs.Parties.{to_put, SenderBecame, IsEnded};

    /// Puts the next item, if there is one and a place for it.
    pub fn turn(&mut self) -> Turn
        ensures own { SenderBecame self.old self.new }
        ensures ended { IsEnded result ↔ (to_put self.old ≡ []) }
        ensures nothing_left { IsEnded result → (to_put self.new ≡ []) }
    {
        if self.next >= self.items.len() {
            return Turn::Ended { frames: 0 };
        }
        if self.put.put(self.items[self.next]).is_err() {
            return Turn::Idle;
        }
        self.next += 1;
        Turn::Worked { frames: 1 }
    }
}

impl Receiver {
    ghost use Rattle.std.specs.Prelude.{◌≡◌, ◌||◌, [], is_err, Ok};
    ghost use Rattle.ix_ring.specs.Ends.{taken, known};
    ghost use Rattle.ix_relay.specs.Parties.{ReceiverBecame};

    /// Takes one item, if there is one. A turn that finds no memory has taken nothing.
    pub fn turn(&mut self) -> Result<Turn, NoMemory>
        ensures own { ReceiverBecame self.old self.new }
        ensures idle { result ≡ Ok Turn.Idle → (known self.old.take ≡ []) × (taken self.new.take ≡ taken self.old.take) × (self.new.got.items ≡ self.old.got.items) }
        ensures failed { self.new.failed ≡ (self.old.failed || is_err result) }
    {
        if self.got.reserve(1).is_err() {
            self.failed = true;
            return Err(NoMemory);
        }
        match self.take.take() {
            Some(item) => {
                self.got.push_reserved(item);
                Ok(Turn::Worked { frames: 1 })
            }
            None => Ok(Turn::Idle),
        }
    }
}

impl Actor for Party {
    ghost use Rattle.std.specs.Prelude.{◌≡◌, ◌||◌, false};
    ghost use Rattle.ix_relay.specs.Parties.{Became, has_failed};
    ghost use Rattle.ix_relay.specs.Laws.{Became-stays, Became-joins};

    type Env = ();

    ghost became = { λ _. Became };

    ghost has_failed = { has_failed };

    fn turn(&mut self, _env: &()) -> Result<Turn, NoMemory> {
        match self {
            Party::Sender(sender) => Ok(sender.turn()),
            Party::Receiver(receiver) => receiver.turn(),
        }
    }

    fn failed(&self) -> bool {
        match self {
            Party::Sender(_) => false,
            Party::Receiver(receiver) => receiver.failed,
        }
    }

    ghost stays = { λ _. Became-stays };

    ghost joins = { λ _. Became-joins };
}
