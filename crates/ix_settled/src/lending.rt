// The plain stack as a unit of the laws on histories, which hands out buffers between its steps.
use ix_base::{CoreId, List, NoMemory};
use ix_desk::Unit;
use ix_history::HandsOut;
use ix_mbuf::Mbuf;
use ix_plainstack::{PlainStack, StackEnv};
use ix_stack::{GroupStack, Work};
use std::marker::Model;

/// A plain stack that is lent between its steps.
#[derive(Drop)]
pub struct Lending {
    stack: PlainStack,
}

impl Model for Lending {
    ghost use Rattle.ix_plainstack.specs.Stack.{Stack};

    ghost Value = { Stack };

    ghost view = { λ l. l.stack };
}

impl Unit for Lending {
    ghost use Rattle.std.specs.Prelude.{◌≡◌, ◌++◌, map, OnOk};
    ghost use Rattle.ix_plainstack.specs.Batches.{work_number, is_frame_work};
    ghost use Rattle.ix_plainstack.specs.Stack.{Advances};

    type Item = Work;

    type Env = StackEnv;

    ghost name = { work_number };

    ghost counted = { is_frame_work };

    ghost stepped = { λ s. s.steps };

    ghost advanced = { λ x env core items y. Advances x env core items y };

    fn step(&mut self, env: &StackEnv, core: CoreId, items: Vec<Work>) -> Result<(), NoMemory>
        ensures names { OnOk result (self.new.steps ≡ self.old.steps ++ map (λ x. (work_number x, core.0)) items.items) }
        ensures advanced { OnOk result (Advances self.old env.now core.0 items.items self.new) }
    {
        self.stack.step(env, core, items)
    }

    fn counts(item: &Work) -> bool {
        PlainStack::counts(item)
    }
}

impl HandsOut for Lending {
    ghost use Rattle.std.specs.Prelude.{IfOk};
    ghost use Rattle.ix_plainstack.specs.Stack.{Drains};
    ghost use Rattle.ix_settled.specs.Moments.{drains-steps};

    type Out = List<Mbuf>;

    ghost lends = { λ x bufs y. Drains x bufs y };

    fn hand_out(&mut self) -> Result<List<Mbuf>, NoMemory>
        ensures { IfOk result (λ bufs. Drains self.old bufs self.new) }
    {
        let bufs = self.stack.freed()?;
        Ok(List::from_vec(bufs))
    }

    ghost lends_steps = { λ x bufs y so. drains-steps x bufs y so };
}
