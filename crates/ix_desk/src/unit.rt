// What travels: a unit, the items that it steps, and a shipment.
use ix_base::{CoreId, GroupId, List, NoMemory};

/// A state that steps items in order, and that travels from core to core.
///
/// It means the list of what it has stepped, each as the item's name and the core that stepped it, and a relation that each step keeps
/// between the unit before, what all units read, the core, the items and the unit after.
pub trait Unit: Drop {
    ghost use Rattle.std.specs.Prelude.{◌≡◌, ℕ, ◌++◌, List, Bool, map, OnOk};

    /// What it steps.
    type Item: Drop;

    /// What all units read.
    type Env;

    /// The name of an item.
    ghost name: { Self.Item → ℕ };

    /// Whether an item counts towards the bound of a batch.
    ghost counted: { Self.Item → Bool };

    /// The names of the items that the unit has stepped, each with its core.
    ghost stepped: { Self → List (ℕ × ℕ) };

    /// `advanced x env core items y`: a step of `items` on `core` may take the unit from `x` to `y`.
    ghost advanced: { Self → Self.Env → ℕ → List Self.Item → Self → Type 0 };

    /// Steps items in order, on this core. Where it finds no memory, they are gone, and what the unit has then done is left open.
    fn step(
        &mut self,
        env: &Self::Env,
        core: CoreId,
        items: Vec<Self::Item>,
    ) -> Result<(), NoMemory>
        ensures names { OnOk result (stepped self.new ≡ stepped self.old ++ map (λ x. (name x, core.0)) items.items) }
        ensures advanced { OnOk result (advanced self.old env.now core.0 items.items self.new) };

    /// Whether an item counts.
    fn counts(item: &Self::Item) -> bool
        ensures { result ≡ counted item.now };
}

/// What a core takes of a group from its ring: an item of its piece, the tag behind which it steps nothing more, and the end and the
/// beginning of a piece.
#[derive(Drop)]
pub enum DeskItem<I> {
    /// An item of the group's piece.
    Work(I),
    /// What follows is stepped by the next tenure.
    Tag,
    /// The piece ends, and the unit goes to this core.
    Cut { to: CoreId },
    /// The piece of this tenure begins.
    Start { tenure: u32 },
}

/// A unit under way to its next tenure, with the items that the next core steps first.
#[derive(Drop)]
pub struct Shipment<U: Unit> {
    /// The flow group that the unit is.
    pub group: GroupId,
    /// The number of its next tenure.
    pub tenure: u32,
    /// The core of that tenure.
    pub to: CoreId,
    pub unit: U,
    /// Its remote queue: what the old core had behind the tag, in order.
    pub queue: List<U::Item>,
}
