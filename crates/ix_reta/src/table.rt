// The redirection table.
ghost use Rattle.std.specs.Prelude.{◌<◌, [], IfOk};
ghost use Rattle.ix_reta.specs.Rows.{AreRows};

use crate::log::TurnLog;
use ix_base::{CoreId, FLOW_GROUPS, GroupId, NoMemory};
use std::alloc::Global;
use std::marker::Model;

/// A row of the table: the core of a flow group, and the number of its turns so far.
#[derive(Clone, Copy, Debug, PartialEq, Eq)]
pub struct Row {
    /// The core that the group is on.
    pub core: CoreId,
    /// The number of its turns so far.
    pub tenure: u32,
}

/// The redirection table of 512 flow groups. At the start group g is on core (g mod 128) mod `live`; each turn puts one group on another
/// core. A contract sees the table as `live`, its turns so far, and the number of turns for which there is room yet.
#[derive(Drop)]
pub struct Reta {
    live: u8,
    rows: Vec<Row>,
    log: TurnLog,
}

impl Model for Reta {
    ghost use Rattle.ix_reta.specs.Table.{Table};

    ghost Value = { Table };

    ghost use Rattle.std.specs.Prelude.{◌≤◌, ◌<◌, ◌+◌, length};
    ghost use Rattle.ix_reta.specs.Rows.{AreRows};

    ghost view = { λ r. record { live = r.live; turns = r.log.turns; room = r.log.room } };

    ghost invariant = { λ r. ((0 < r.live) × (length r.log.turns + r.log.room < 4294967295)) × AreRows r.live r.log.turns r.rows.items };
}

impl Reta {
    ghost use Rattle.std.specs.Prelude.{◌≡◌, ◌≢◌, ◌<◌, ◌≤◌, ◌+◌, ◌-◌, ◌∷◌, ◌++◌, ℕ, [], IfOk};
    ghost use Rattle.ix_reta.specs.Table.{core_of, tenure_of};

    /// The table at the start of a play on the first `live` cores, with room for so many turns.
    pub fn new(alloc: Global, live: u8, turns: usize) -> Result<Reta, NoMemory>
        requires live { (1 ≤ live) × (live ≤ 8) }
        requires turns { turns < 4294967295 }
        ensures { IfOk result (λ r. r ≡ record { live = live; turns = []; room = turns }) }
    {
        Ok(Reta {
            live,
            rows: opening_rows(alloc, live)?,
            log: TurnLog::new(alloc, turns)?,
        })
    }

    /// The core of a group.
    pub fn core(&self, group: GroupId) -> CoreId
        requires { group.0 < 512 }
        ensures { result ≡ core_of self.now.live self.now.turns group.0 }
    {
        self.rows[group.0 as usize].core
    }

    /// The number of turns of a group so far.
    pub fn tenure(&self, group: GroupId) -> u32
        requires { group.0 < 512 }
        ensures { result ≡ tenure_of self.now.turns group.0 }
    {
        self.rows[group.0 as usize].tenure
    }

    /// The turns so far, in order.
    pub fn log(&self) -> &TurnLog
        ensures { result.now ≡ record { turns = self.now.turns; room = self.now.room } }
    {
        &self.log
    }

    /// Puts a group on a core. It takes no memory.
    pub fn turn(&mut self, group: GroupId, core: CoreId)
        requires group { group.0 < 512 }
        requires room { 0 < self.old.room }
        ensures turned { self.new ≡ record { live = self.old.live; turns = self.old.turns ++ (group, core) ∷ []; room = self.old.room - 1 } }
        ensures core { core_of self.new.live self.new.turns group.0 ≡ core }
        ensures tenure { tenure_of self.new.turns group.0 ≡ tenure_of self.old.turns group.0 + 1 }
        ensures others { (g : ℕ) → g ≢ group.0 → core_of self.new.live self.new.turns g ≡ core_of self.old.live self.old.turns g }
        ensures other_tenures { (g : ℕ) → g ≢ group.0 → tenure_of self.new.turns g ≡ tenure_of self.old.turns g }
    {
        let row = &mut self.rows[group.0 as usize];
        row.core = core;
        row.tenure += 1;
        self.log.put(group, core);
    }
}

// The rows of 512 groups over the first `live` cores.
fn opening_rows(alloc: Global, live: u8) -> Result<Vec<Row>, NoMemory>
    requires { 0 < live }
    ensures { IfOk result (λ v. AreRows live [] v.items) }
{
    let mut rows = Vec::with_capacity(alloc, FLOW_GROUPS)?;
    for group in 0..512u16 {
        rows.push(Row {
            core: CoreId((group % 128 % live as u16) as u8),
            tenure: 0,
        })?;
    }
    Ok(rows)
}
