// The card as an actor.
ghost use Rattle.ix_feed.specs.Replays.{CanFeed, feed_view};

use crate::feeding::feed;
use crate::replay::Replay;
use ix_base::NoMemory;
use ix_nic::Nic;
use ix_run::{Actor, Turn};
use std::marker::Model;

/// A card with the wire list that it is fed, as an actor of an epoch. No turn of it finds no memory.
#[derive(Drop)]
pub struct Feed {
    nic: Nic,
    replay: Replay,
}

impl Model for Feed {
    ghost use Rattle.ix_feed.specs.Replays.{CanFeed, FeedView};

    ghost Value = { FeedView };

    ghost view = { λ f. record { card = f.nic; replay = f.replay } };

    ghost invariant = { λ f. CanFeed f.nic f.replay };
}

impl Feed {
    ghost use Rattle.std.specs.Prelude.{◌≡◌};
    ghost use Rattle.ix_feed.specs.Turns.{FeedBecame, FeedTurned};

    /// This card with this wire list.
    pub fn new(nic: Nic, replay: Replay) -> Feed
        requires { CanFeed nic replay }
        ensures { result ≡ feed_view nic replay }
    {
        Feed { nic, replay }
    }

    /// The card and the wire list.
    pub fn apart(self) -> (Nic, Replay)
        ensures apart { feed_view result.0 result.1 ≡ self }
        ensures feed { CanFeed result.0 result.1 }
    {
        let Feed { nic, replay } = self;
        (nic, replay)
    }

    /// One turn, as [`feed`] makes it.
    pub fn feed(&mut self) -> Turn
        ensures became { FeedBecame self.old self.new }
        ensures turned { FeedTurned result self.old self.new }
    {
        feed(&mut self.nic, &mut self.replay)
    }
}

impl Actor for Feed {
    ghost use Rattle.std.specs.Prelude.{false};
    ghost use Rattle.ix_feed.specs.Turns.{FeedBecame};
    ghost use Rattle.ix_feed.specs.Laws.{feed_joins, feed_stays};

    type Env = ();

    ghost became = { λ _ x y. FeedBecame x y };

    ghost has_failed = { λ _. false };

    fn turn(&mut self, _env: &()) -> Result<Turn, NoMemory> {
        Ok(self.feed())
    }

    fn failed(&self) -> bool {
        false
    }

    ghost stays = { λ _ x. feed_stays x };

    ghost joins = { λ _ x y z p q. feed_joins x y z p q };
}
