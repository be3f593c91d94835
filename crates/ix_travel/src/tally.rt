// A unit that lists what it steps.
ghost use Rattle.std.specs.Prelude.{◌≡◌};
ghost use Rattle.ix_travel.specs.Things.{number_of};

use ix_base::{CoreId, NoMemory};
use ix_desk::Unit;

/// An item, by its number: a frame counts, a time doesn't.
#[derive(Clone, Copy, Debug, PartialEq, Eq)]
pub enum Thing {
    /// A frame.
    Frame(u32),
    /// A time.
    Time(u32),
}

/// The numbers that were stepped, each with its core. One of its steps finds no memory.
#[derive(Drop)]
pub struct Tally {
    /// The numbers of the items, each with the core that stepped it.
    pub seen: Vec<(u32, u8)>,
    /// How many steps were made.
    pub steps: u32,
    /// The step that finds no memory, counted from 1; 0 for none.
    pub fails_at: u32,
}

impl Unit for Tally {
    ghost use Rattle.std.specs.Prelude.{◌≡◌, ◌++◌, map, OnOk};
    ghost use Rattle.ix_travel.specs.Things.{number_of, is_frame};

    type Item = Thing;

    type Env = ();

    ghost name = { number_of };

    ghost counted = { is_frame };

    ghost stepped = { λ t. t.seen.items };

    ghost advanced = { λ _ _ _ _ _. Unit {0} };

    fn step(&mut self, _env: &(), core: CoreId, items: Vec<Thing>) -> Result<(), NoMemory>
        ensures names { OnOk result (self.new.seen.items ≡ self.old.seen.items ++ map (λ x. (number_of x, core.0)) items.items) }
        ensures advanced { OnOk result (Unit {0}) }
    {
        self.steps = self.steps.saturating_add(1);
        if self.steps == self.fails_at {
            return Err(NoMemory);
        }
        for item in items {
            self.seen.reserve(1)?;
            self.seen.push_reserved((number(item), core.0));
        }
        Ok(())
    }

    fn counts(item: &Thing) -> bool {
        matches!(item, Thing::Frame(_))
    }
}

fn number(item: Thing) -> u32
    ensures { result ≡ number_of item }
{
    match item {
        Thing::Frame(w) => w,
        Thing::Time(w) => w,
    }
}
