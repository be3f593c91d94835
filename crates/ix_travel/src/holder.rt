// A unit that holds buffers.
ghost use Rattle.std.specs.Prelude.{◌≤◌, vec_capacity};

use crate::room::Room;
use ix_base::{CoreId, NoMemory};
use ix_desk::Unit;
use ix_mbuf::Mbuf;

/// What a holder steps: a frame in its buffer, which counts, or a time. Each has its number.
#[derive(Drop)]
pub enum Load {
    /// A frame and the buffer that it lies in.
    Frame { w: u32, buf: Mbuf },
    /// A time.
    Time { w: u32 },
}

/// A flow group in little: it holds the buffers of the first frames, as many as there is room for, and lays the others aside. Beside them
/// it lists the numbers that it has stepped, each with its core.
#[derive(Drop)]
pub struct Holder {
    /// The numbers of the items, each with the core that stepped it.
    pub seen: Vec<(u32, u8)>,
    /// The buffers that it holds, in order of their frames.
    pub held: Vec<Mbuf>,
    /// Those that it doesn't need any more.
    pub spent: Vec<Mbuf>,
    pub ghost room: { 8 ≤ vec_capacity held },
}

impl Holder {
    ghost use Rattle.std.specs.Prelude.{◌≡◌, ◌++◌, ◌∷◌, [], OnOk};
    ghost use Rattle.ix_travel.specs.Loads.{load_number, kept_one, spent_one};

    // Steps one item. Memory for it is taken first.
    fn step_one(&mut self, room: &Room, core: CoreId, item: Load) -> Result<(), NoMemory>
        ensures seen { OnOk result (self.new.seen.items ≡ self.old.seen.items ++ (load_number item, core.0) ∷ []) }
        ensures held { OnOk result (self.new.held.items ≡ kept_one room.now self.old.held.items item) }
        ensures spent { OnOk result (self.new.spent.items ≡ self.old.spent.items ++ spent_one room.now self.old.held.items item) }
    {
        self.seen.reserve(1)?;
        self.spent.reserve(1)?;
        match item {
            Load::Frame { w, buf } => {
                self.seen.push_reserved((w, core.0));
                if self.held.len() < room.places() {
                    self.held.push_reserved(buf);
                } else {
                    self.spent.push_reserved(buf);
                }
            }
            Load::Time { w } => self.seen.push_reserved((w, core.0)),
        }
        Ok(())
    }
}

impl Unit for Holder {
    ghost use Rattle.std.specs.Prelude.{◌≡◌, ◌++◌, map, OnOk};
    ghost use Rattle.ix_travel.specs.Loads.{load_number, is_frame_load, Holds};

    type Item = Load;

    type Env = Room;

    ghost name = { load_number };

    ghost counted = { is_frame_load };

    ghost stepped = { λ h. h.seen.items };

    ghost advanced = { λ x env core items y. Holds env core items x.held.items x.spent.items x.seen.items y.held.items y.spent.items y.seen.items };

    fn step(&mut self, env: &Room, core: CoreId, items: Vec<Load>) -> Result<(), NoMemory>
        ensures names { OnOk result (self.new.seen.items ≡ self.old.seen.items ++ map (λ x. (load_number x, core.0)) items.items) }
        ensures advanced { OnOk result (Holds env.now core.0 items.items self.old.held.items self.old.spent.items self.old.seen.items self.new.held.items self.new.spent.items self.new.seen.items) }
    {
        for item in items {
            self.step_one(env, core, item)?;
        }
        Ok(())
    }

    fn counts(item: &Load) -> bool {
        matches!(item, Load::Frame { .. })
    }
}
