// The workers of an epoch.

use ix_base::NoMemory;
use ix_core::Core;
use ix_feed::Feed;
use ix_run::{Actor, Turn};
use ix_stack::GroupStack;

/// A worker of an epoch.
#[derive(Drop)]
pub enum Worker<G: GroupStack> {
    /// The card, with the entries that it carries out.
    Card(Feed),
    /// A core.
    Core(Core<G>),
}

impl<G: GroupStack> Actor for Worker<G> {
    ghost use Rattle.ix_epochs.specs.Workers.{WorkerBecame, has_failed};
    ghost use Rattle.ix_epochs.specs.Laws.{worker_joins, worker_stays};

    type Env = G::Env;

    ghost became = { λ env x y. WorkerBecame G.counted G.name G.stepped G.advanced G.drained env x y };

    ghost has_failed = { λ x. has_failed x };

    fn turn(&mut self, env: &G::Env) -> Result<Turn, NoMemory> {
        match self {
            Worker::Card(feed) => Ok(feed.feed()),
            Worker::Core(core) => core.turn(env),
        }
    }

    fn failed(&self) -> bool {
        match self {
            Worker::Card(_) => false,
            Worker::Core(core) => core.failed,
        }
    }

    ghost stays = { λ env x. worker_stays G.counted G.name G.stepped G.advanced G.drained env x };

    ghost joins = { λ env x y z p q. worker_joins G.counted G.name G.stepped G.advanced G.drained env x y z p q };
}
