// Where the flow groups are, which of them are tagged, and which cores are live.
ghost use Rattle.std.specs.Prelude.{◌≡◌, ◌≤◌, IfOk, vec_len};
ghost use Rattle.ix_wire.specs.Table.{earlier, first_live, no_tags, opening_cores};

use crate::command::CLASSES;
use ix_base::{CoreId, FLOW_GROUPS, NoMemory};
use ix_cp::{Cores, PlanMove, plan_add, plan_revoke};
use std::alloc::Global;
use std::marker::Model;

/// The flow groups, as the numbers of a script count them.
const GROUPS: u16 = FLOW_GROUPS as u16;

/// The core and the tag of each of the 512 flow groups, and the cores. A tag is the number of the line that set it.
#[derive(Drop)]
pub struct Table {
    at: Vec<CoreId>,
    tags: Vec<Option<u32>>,
    cores: Cores,
}

impl Model for Table {
    ghost use Rattle.std.specs.Prelude.{◌≡◌, ◌≤◌, length};
    ghost use Rattle.ix_wire.specs.Table.{Standing};

    ghost Value = { Standing };

    ghost view = { λ t. record { at = t.at.items; tags = t.tags.items; live = t.cores.live; count = t.cores.count } };

    ghost invariant = { λ t. (length t.at.items ≡ 512) × (length t.tags.items ≡ 512) × (t.cores.count ≤ 8) };
}

impl Table {
    ghost use Rattle.std.specs.Prelude.{◌≡◌, ◌<◌, ◌≤◌, ◌+◌, ◌*◌, All, IfOk, false, slice_index_or, slice_set, take, true};
    ghost use Rattle.std.specs.Bool.{OnTrue};
    ghost use Rattle.std.specs.List.{list_any};
    ghost use Rattle.ix_cp.specs.Plan.{IsMoveTo, add_plan, revoke_plan};
    ghost use Rattle.ix_wire.specs.Table.{are_planned_tagged, earliest, groups_from, has_core, has_tagged_on, is_live_core, is_on, is_only_live, is_tagged, is_untagged, moved, opening_table, tagged, with_live};

    /// The table at the start of a play on so many cores, the first `live` of them live.
    #[tactic(auto, unfolding(crate::specs::Table::opening_table))]
    pub fn new(alloc: Global, cores: u8, live: u8) -> Result<Table, NoMemory>
        requires live { (1 ≤ live) × (live ≤ 8) }
        requires cores { cores ≤ 8 }
        ensures { IfOk result (λ t. t ≡ opening_table cores live) }
    {
        Ok(Table {
            at: opening_cores(alloc, live, GROUPS)?,
            tags: no_tags(alloc, GROUPS)?,
            cores: Cores {
                live: first_live(live),
                count: cores,
            },
        })
    }

    /// A second table that says the same.
    pub fn copy(&self, alloc: Global) -> Result<Table, NoMemory>
        ensures { IfOk result (λ t. t ≡ self.now) }
    {
        Ok(Table {
            at: Vec::from_slice(alloc, &self.at)?,
            tags: Vec::from_slice(alloc, &self.tags)?,
            cores: self.cores,
        })
    }

    /// Whether there is a core of this number.
    pub fn has_core(&self, core: u32) -> bool
        ensures core { result ≡ has_core core self.now }
        ensures bound { OnTrue result (core < 8) }
    {
        core < self.cores.count as u32
    }

    /// Whether there is a core of this number, and it is live.
    pub fn is_live(&self, core: u32) -> bool
        ensures live { result ≡ is_live_core core self.now }
        ensures bound { OnTrue result (core < 8) }
    {
        if !self.has_core(core) {
            return false;
        }
        match self.cores.live.get(core as usize) {
            Some(live) => *live,
            None => false,
        }
    }

    fn is_on(&self, core: u32, group: u16) -> bool
        ensures { result ≡ is_on self.now core group }
    {
        match self.at.get(group as usize) {
            Some(owner) => owner.0 as u32 == core,
            None => false,
        }
    }

    fn is_tagged(&self, group: u16) -> bool
        ensures { result ≡ is_tagged self.now group }
    {
        match self.tags.get(group as usize) {
            Some(tag) => tag.is_some(),
            None => false,
        }
    }

    /// Whether some group that a number names is tagged.
    #[tactic(auto, using(crate::proofs::TableLaws::group_steps))]
    pub fn has_tagged(&self, place: u16, width: u16) -> bool
        requires { place + 128 * width < 640 }
        ensures { result ≡ list_any (is_tagged self.now) (groups_from place width) }
    {
        for k in 0..width {
            if self.is_tagged(place + CLASSES * k) {
                return true;
            }
        }
        false
    }

    /// Whether some group that a number names is not tagged.
    #[tactic(auto, using(crate::proofs::TableLaws::group_steps))]
    pub fn has_untagged(&self, place: u16, width: u16) -> bool
        requires { place + 128 * width < 640 }
        ensures { result ≡ list_any (is_untagged self.now) (groups_from place width) }
    {
        for k in 0..width {
            if !self.is_tagged(place + CLASSES * k) {
                return true;
            }
        }
        false
    }

    /// Whether some group that a number names is on a core.
    #[tactic(auto, using(crate::proofs::TableLaws::group_steps))]
    pub fn has_on(&self, core: u32, place: u16, width: u16) -> bool
        requires { place + 128 * width < 640 }
        ensures { result ≡ list_any (is_on self.now core) (groups_from place width) }
    {
        for k in 0..width {
            if self.is_on(core, place + CLASSES * k) {
                return true;
            }
        }
        false
    }

    /// Whether some group of a core is tagged.
    #[tactic(auto, using(crate::proofs::TableLaws::tagged_on_steps))]
    pub fn has_tagged_on(&self, core: u32) -> bool
        ensures { result ≡ has_tagged_on self.now core 512 }
    {
        let mut found = false;
        for group in 0..GROUPS {
            found = found || self.is_on(core, group) && self.is_tagged(group);
        }
        found
    }

    /// Whether no core is live but this one.
    #[tactic(auto, using(crate::proofs::TableLaws::only_live_steps))]
    pub fn is_only_live(&self, core: u32) -> bool
        ensures { result ≡ is_only_live self.now core 8 }
    {
        let mut only = true;
        for other in 0..8u32 {
            only = only && (other == core || !self.is_live(other));
        }
        only
    }

    /// The line of the first tag that has no move.
    pub fn earliest(&self) -> Option<u32>
        ensures { result ≡ earliest self.now.tags }
    {
        let mut first: Option<u32> = None;
        for tag in &self.tags {
            first = earlier(first, *tag);
        }
        first
    }

    /// Tags a group.
    #[tactic(auto, unfolding(crate::specs::Table::tagged))]
    pub fn tag(&mut self, line: u32, group: u16)
        requires { group < 512 }
        ensures { self.new ≡ tagged line group self.old }
    {
        self.tags[group as usize] = Some(line);
    }

    /// Puts a group on another core, and takes its tag.
    #[tactic(auto, unfolding(crate::specs::Table::moved))]
    pub fn put(&mut self, group: u16, to: CoreId)
        requires { group < 512 }
        ensures { self.new ≡ moved group to self.old }
    {
        self.at[group as usize] = to;
        self.tags[group as usize] = None;
    }

    /// Makes a core live or not.
    #[tactic(auto, unfolding(crate::specs::Table::with_live))]
    pub fn set_live(&mut self, core: u8, live: bool)
        requires { core < 8 }
        ensures { self.new ≡ with_live core live self.old }
    {
        self.cores.live[core as usize] = live;
    }

    /// The plan of a core that is to be added, over so many places.
    pub fn add_plan(
        &self,
        alloc: Global,
        places: usize,
        core: u8,
    ) -> Result<Vec<PlanMove>, NoMemory>
        requires places { places ≤ 512 }
        requires core { core < 8 }
        ensures plan { IfOk result (λ moves. moves.items ≡ add_plan self.now.live core (take places self.now.at)) }
        ensures moves { IfOk result (λ moves. All (IsMoveTo (slice_set self.now.live core true) places) moves.items) }
    {
        plan_add(alloc, &self.at[..places], &self.cores, CoreId(core))
    }

    /// The plan of a core that is to be revoked, over so many places.
    pub fn revoke_plan(
        &self,
        alloc: Global,
        places: usize,
        core: u8,
    ) -> Result<Vec<PlanMove>, NoMemory>
        requires places { places ≤ 512 }
        requires core { core < 8 }
        ensures plan { IfOk result (λ moves. moves.items ≡ revoke_plan self.now.live core (take places self.now.at)) }
        ensures moves { IfOk result (λ moves. All (IsMoveTo (slice_set self.now.live core false) places) moves.items) }
    {
        plan_revoke(alloc, &self.at[..places], &self.cores, CoreId(core))
    }

    /// Whether a plan moves a tagged group, where each of its places names so many groups.
    pub fn are_planned_tagged(&self, plan: &[PlanMove], width: u16) -> bool
        requires { All (λ m. m.group.0 + 128 * width < 640) plan.now }
        ensures { result ≡ are_planned_tagged self.now width plan.now }
    {
        for one in plan {
            if self.has_tagged(one.group.0, width) {
                return true;
            }
        }
        false
    }
}

// Of two tags that of the lower line.
fn earlier(a: Option<u32>, b: Option<u32>) -> Option<u32>
    ensures { result ≡ earlier a b }
{
    match (a, b) {
        (Some(a), Some(b)) => Some(if b < a { b } else { a }),
        (Some(a), None) => Some(a),
        (None, b) => b,
    }
}

// The cores of the flow groups at the start.
#[tactic(auto, using(crate::proofs::TableLaws::opening_steps))]
fn opening_cores(alloc: Global, live: u8, groups: u16) -> Result<Vec<CoreId>, NoMemory>
    requires { 1 ≤ live }
    ensures cores { IfOk result (λ v. v.items ≡ opening_cores live groups) }
    ensures count { IfOk result (λ v. vec_len v ≡ groups) }
{
    let mut at = Vec::new(alloc);
    for group in 0..groups {
        at.push(CoreId((group % CLASSES % live as u16) as u8))?;
    }
    Ok(at)
}

#[tactic(auto, using(crate::proofs::TableLaws::no_tag_steps))]
fn no_tags(alloc: Global, groups: u16) -> Result<Vec<Option<u32>>, NoMemory>
    ensures tags { IfOk result (λ v. v.items ≡ no_tags groups) }
    ensures count { IfOk result (λ v. vec_len v ≡ groups) }
{
    let mut tags = Vec::new(alloc);
    for _group in 0..groups {
        tags.push(None)?;
    }
    Ok(tags)
}

fn first_live(live: u8) -> [bool; 8]
    ensures { result ≡ first_live live }
{
    [
        live > 0,
        live > 1,
        live > 2,
        live > 3,
        live > 4,
        live > 5,
        live > 6,
        live > 7,
    ]
}
