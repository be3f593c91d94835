// A core as an actor.

use crate::turning::Core;
use ix_base::NoMemory;
use ix_run::{Actor, Turn};
use ix_stack::GroupStack;

impl<G: GroupStack> Actor for Core<G> {
    ghost use Rattle.ix_core.specs.Cores.{CoreBecame};
    ghost use Rattle.ix_core.specs.Laws.{core_joins, core_stays};

    type Env = G::Env;

    ghost became = { λ env x y. CoreBecame G.counted G.name G.stepped G.advanced G.drained env x y };

    ghost has_failed = { λ x. x.failed };

    fn turn(&mut self, env: &G::Env) -> Result<Turn, NoMemory> {
        Core::turn(self, env)
    }

    fn failed(&self) -> bool {
        self.failed
    }

    ghost stays = { λ env x. core_stays G.counted G.name G.stepped G.advanced G.drained env x };

    ghost joins = { λ env x y z p q. core_joins G.counted G.name G.stepped G.advanced G.drained env x y z p q };
}
