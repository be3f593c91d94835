// The turns of a redirection table, in room that was taken at its making.

use ix_base::{CoreId, GroupId, NoMemory};
use std::alloc::Global;
use std::marker::Model;

/// The turns of a redirection table in order: each a flow group and the core that it went to. A contract sees them as a list, beside the
/// number of turns for which there is room yet.
#[derive(Drop)]
pub struct TurnLog {
    turns: Vec<(GroupId, CoreId)>,
    room: usize,
}

impl Model for TurnLog {
    ghost use Rattle.std.specs.Prelude.{◌≤◌, ◌+◌, vec_capacity, vec_len};
    ghost use Rattle.ix_reta.specs.Table.{Turns};

    ghost Value = { Turns };

    ghost view = { λ l. record { turns = l.turns.items; room = l.room } };

    ghost invariant = { λ l. vec_len l.turns + l.room ≤ vec_capacity l.turns };
}

impl TurnLog {
    ghost use Rattle.std.specs.Prelude.{◌≡◌, ◌<◌, ◌-◌, ◌∷◌, ◌++◌, [], IfOk, length};

    /// No turn yet, and room for so many.
    pub(crate) fn new(alloc: Global, room: usize) -> Result<TurnLog, NoMemory>
        ensures { IfOk result (λ l. l ≡ record { turns = []; room = room }) }
    {
        Ok(TurnLog {
            turns: Vec::with_capacity(alloc, room)?,
            room,
        })
    }

    /// The turns so far, in order.
    pub fn as_slice(&self) -> &[(GroupId, CoreId)]
        ensures { result.now ≡ self.now.turns }
    {
        self.turns.as_slice()
    }

    /// The number of turns so far.
    pub fn len(&self) -> usize
        ensures { result ≡ length self.now.turns }
    {
        self.turns.len()
    }

    /// The number of turns for which there is room yet.
    pub fn room(&self) -> usize
        ensures { result ≡ self.now.room }
    {
        self.room
    }

    /// Puts one more turn at the end. It takes no memory.
    pub(crate) fn put(&mut self, group: GroupId, core: CoreId)
        requires { 0 < self.old.room }
        ensures { self.new ≡ record { turns = self.old.turns ++ (group, core) ∷ []; room = self.old.room - 1 } }
    {
        self.turns.push_reserved((group, core));
        self.room -= 1;
    }
}
