// All desks of a core.
ghost use Rattle.std.specs.Prelude.{◌≡◌, ◌<◌, ◌-◌, ◌^◌, ◌≤◌, min, sum_by, ◌++◌, [], ◌∷◌, ℕ, true, false, All, AllPairs, OnOk, OnErr, IfOk, IfErr, IfSome, IfNone, IsErr, IsNone, Some, Option, slice_get, length, MatchOption};
ghost use Rattle.std.specs.Option.{option_copied};
ghost use Rattle.ix_desk.specs.Views.{Piece, CutPiece};
ghost use Rattle.ix_desk.specs.Groups.{taken, landed, unit_of, untaken, changed, done_of, shipped, waits};
ghost use Rattle.ix_desk.specs.Steps.{leave, group_leaves, AllWorked};
ghost use Rattle.ix_desk.specs.Failures.{AllFailed};
ghost use Rattle.ix_desk.specs.Desks.{group_at, with_group, fits_at, welcome_at, groups_wait, opened, has_work, Ships, NothingDone, SameOrder};

use crate::all_groups::{empty_groups, groups_waiting, seat_home, ship_first};
use crate::amounts::{Measure, groups_amount};
use crate::group::GroupDesks;
use crate::unit::{DeskItem, Shipment, Unit};
use crate::working::work_groups;
use ix_base::{Back, CoreId, FLOW_GROUPS, GroupId, NoMemory};
use std::alloc::Global;
use std::marker::Model;

/// The desks of a core: of each flow group the tenures whose pieces began here, the items that wait at them, and the unit while it is
/// here. Group by group, the items of a tenure wait behind those that its unit brought along.
#[derive(Drop)]
pub struct Desks<U: Unit> {
    core: CoreId,
    failed: bool,
    groups: Vec<GroupDesks<U, U::Item>>,
    alloc: Global,
}

impl<U: Unit> Model for Desks<U> {
    ghost use Rattle.std.specs.Prelude.{◌≡◌, length};
    ghost use Rattle.ix_desk.specs.Views.{View};

    ghost Value = { View U U.Item };

    ghost view = { λ d. record { core = d.core.0; failed = d.failed; groups = d.groups.items } };

    ghost invariant = { λ d. length d.groups.items ≡ 512 };
}

impl<U: Unit> Desks<U> {
    ghost use Rattle.std.specs.Option.{option_copied_mut};
    ghost use Rattle.std.specs.Borrow.{LendsIf, sem};
    ghost use Rattle.ix_desk.specs.contracts.desks.Desks.{the_row};

    // The place of a group's desks, where there is a group of this number.
    fn place(&self, g: GroupId) -> Option<usize>
        ensures some { IfSome result (λ place. (place ≡ g.0) × (g.0 < length self.now.groups)) }
        ensures none { IfNone result (length self.now.groups ≤ g.0) }
        ensures groups { length self.now.groups ≡ 512 }
    {
        let place = usize::from(g.0);
        if place >= self.groups.len() {
            return None;
        }
        Some(place)
    }

    /// Whether this item comes next for this group, by the order of a ring. There are 512 groups.
    pub fn fits(&self, g: GroupId, it: &DeskItem<U::Item>) -> bool
        ensures fits { result ≡ fits_at self.now g.0 it.now }
        ensures groups { length self.now.groups ≡ 512 }
    {
        let Some(place) = self.place(g) else {
            return false;
        };
        let group = &self.groups[place];
        group.fits(it)
    }

    /// Takes an item of a group from the ring, or hands it back for want of memory.
    pub fn item(&mut self, g: GroupId, it: DeskItem<U::Item>) -> Result<(), Back<DeskItem<U::Item>>>
        requires { fits_at self.old g.0 it ≡ true }
        ensures ok { OnOk result (self.new ≡ with_group self.old g.0 (taken (group_at self.old g.0) it)) }
        ensures back { IfErr result (λ b. (b.item ≡ it) × (self.new ≡ self.old)) }
        ensures failed { self.old.failed ≡ true → IsErr result }
    {
        if self.failed {
            return Err(Back { item: it });
        }
        let group = &mut self.groups[usize::from(g.0)];
        group.item(self.alloc, it)
    }

    /// Whether this unit is awaited: it goes to this core, and its tenure is above 0 and hasn't arrived.
    pub fn welcomes(&self, s: &Shipment<U>) -> bool
        ensures { result ≡ welcome_at self.now s.now.group.0 s.now.tenure s.now.to.0 }
    {
        let Some(place) = self.place(s.group) else {
            return false;
        };
        if s.to != self.core || s.tenure == 0 {
            return false;
        }
        let group = &self.groups[place];
        !group.has_arrived(s.tenure)
    }

    /// Takes a unit that arrives with its remote queue, or hands it back for want of memory.
    pub fn arrive(&mut self, s: Shipment<U>) -> Result<(), Back<Shipment<U>>>
        requires { welcome_at self.old s.group.0 s.tenure s.to.0 ≡ true }
        ensures ok { OnOk result (self.new ≡ with_group self.old s.group.0 (landed (group_at self.old s.group.0) (record { tenure = s.tenure; unit = s.unit; queue = s.queue }))) }
        ensures back { IfErr result (λ b. (b.item ≡ s) × (self.new ≡ self.old)) }
        ensures failed { self.old.failed ≡ true → IsErr result }
    {
        if self.failed {
            return Err(Back { item: s });
        }
        let Shipment {
            group: g,
            tenure,
            to,
            unit,
            queue,
        } = s;
        let group = &mut self.groups[usize::from(g.0)];
        let Some((unit, queue)) = group.arrive(tenure, unit, queue) else {
            return Ok(());
        };
        Err(Back {
            item: Shipment {
                group: g,
                tenure,
                to,
                unit,
                queue,
            },
        })
    }

    /// The unit of a group, if it is here: one that arrived only once its tenure's piece began.
    pub fn unit(&self, g: GroupId) -> Option<&U>
        ensures { option_copied result ≡ unit_of (group_at self.now g.0) }
    {
        let Some(place) = self.place(g) else {
            return None;
        };
        let group = &self.groups[place];
        group.unit()
    }

    /// The unit of a group, to be changed in its place, if it is here. What is written there stays; every other group stays as it is.
    pub fn unit_mut(&mut self, g: GroupId) -> Option<&mut U>
        ensures* writes_back { sem 𝓛 (LendsIf (the_row U.row U.Item.row U.Env.row U.Unit) U.row self.entry result (λ u. with_group self.old g.0 (changed (group_at self.old g.0) u)) self.old) }
        ensures value { option_copied_mut result ≡ unit_of (group_at self.old g.0) }
    {
        let Some(place) = self.place(g) else {
            return None;
        };
        self.unit_mut_at(place)
    }

    fn unit_mut_at(&mut self, place: usize) -> Option<&mut U>
        requires { place < 512 }
        ensures* writes_back { sem 𝓛 (LendsIf (the_row U.row U.Item.row U.Env.row U.Unit) U.row self.entry result (λ u. with_group self.old place (changed (group_at self.old place) u)) (with_group self.old place (group_at self.old place))) }
        ensures value { option_copied_mut result ≡ unit_of (group_at self.old place) }
    {
        let group = &mut self.groups[place];
        group.unit_mut()
    }

    /// Takes away the unit of a group, if it is here and no item of the group waits.
    pub fn take_unit(&mut self, g: GroupId) -> Option<U>
        requires { waits (group_at self.old g.0) ≡ [] }
        ensures unit { result ≡ unit_of (group_at self.old g.0) }
        ensures rest { self.new ≡ with_group self.old g.0 (untaken (group_at self.old g.0)) }
        ensures none { IfNone result (self.new ≡ self.old) }
    {
        let Some(place) = self.place(g) else {
            return None;
        };
        let group = &mut self.groups[place];
        group.take_unit()
    }

    /// An item that waits: group after group, of each tenure the remote queue before the local one, which goes on behind the tag, and then
    /// what came with units whose piece hasn't begun.
    pub fn waiting(&self, i: usize) -> Option<&U::Item>
        ensures { option_copied result ≡ slice_get (groups_wait self.now) i }
    {
        groups_waiting(self.groups.as_slice(), i).ok()
    }

    /// The numbers of the items that wait, added up. The sum stands still at the type's end.
    pub fn amount<M: Measure<U::Item>>(&self, measure: &M) -> u32
        ensures { result ≡ min (sum_by (M.amount measure.now) (groups_wait self.now)) (2 ^ 32 - 1) }
    {
        groups_amount(measure, self.groups.as_slice())
    }

    /// Whether something is to be stepped: an item that is ready at a desk whose unit is here, whether it counts or not. There are 512 groups.
    pub fn has_work(&self) -> bool
        ensures work { result ≡ has_work self.now }
        ensures groups { length self.now.groups ≡ 512 }
    {
        self.groups.iter().any(|group| group.has_work())
    }

    /// Steps items of the desks whose unit is here, remote queue first and none behind a tag, until so many that count are stepped or none
    /// is left. A desk's items go to one step. Answers the number of those that count.
    ///
    /// It can find no memory only at a piece that has items to step. The pieces before that one were then worked on, and those behind it
    /// are as they were. Where there was no memory to gather its items, they still wait; where its step found none, they are gone, and its
    /// unit is as that step left it. From then on `item`, `arrive` and `work` find no memory either, and nothing is shipped.
    pub fn work(&mut self, env: &U::Env, max: usize) -> Result<usize, NoMemory>
        ensures most { IfOk result (λ n. n ≤ max) }
        ensures count { IfOk result (λ n. n ≡ max - leave (group_leaves U.counted) max self.old.groups) }
        ensures worked { OnOk result (AllWorked U.counted U.name U.stepped U.advanced env.now self.old.core max self.old self.new) }
        ensures done { IfOk result (λ n. n < max → has_work self.new ≡ false) }
        ensures err { OnErr result ((self.new.failed ≡ true) × (self.new.core ≡ self.old.core)) }
        ensures stopped { OnErr result ((self.old.failed ≡ false) → AllFailed U.counted U.name U.stepped U.advanced env.now self.old.core max self.old self.new) }
        ensures failed { self.old.failed ≡ true → IsErr result × (self.new ≡ self.old) }
        ensures order { SameOrder self.old self.new }
    {
        if self.failed {
            return Err(NoMemory);
        }
        match work_groups(self.alloc, env, self.core, max, &mut self.groups) {
            Ok(left) => Ok(max - left),
            Err(NoMemory) => {
                self.failed = true;
                Err(NoMemory)
            }
        }
    }

    /// Gives away a unit that is to leave: its piece was cut, and all that stood before the tag is stepped.
    pub fn ship(&mut self) -> Option<Shipment<U>>
        ensures none { IfNone result (self.new ≡ self.old) }
        ensures nothing { IfNone result ((self.old.failed ≡ false) → NothingDone self.old) }
        ensures failed { self.old.failed ≡ true → IsNone result }
        ensures ships { IfSome result (λ s. Ships self.old self.new s.group.0 s.tenure s.to.0 s.unit s.queue) }
        ensures order { SameOrder self.old self.new }
    {
        if self.failed {
            return None;
        }
        let (place, piece) = ship_first(&mut self.groups)?;
        let (to, tenure, unit, queue) = piece.into_parts();
        let Some(unit) = unit else { unreachable!() };
        Some(Shipment {
            group: GroupId(place),
            tenure,
            to,
            unit,
            queue,
        })
    }

    /// The desks of a core at the opening, with the units that are at home here, of different groups.
    pub fn new(alloc: Global, core: CoreId, home: Vec<(GroupId, U)>) -> Result<Desks<U>, NoMemory>
        requires within { All (λ h. h.0.0 < 512) home.items }
        requires different { AllPairs (λ a b. a.0.0 ≡ b.0.0 → ⊥) home.items }
        ensures core { IfOk result (λ d. (d.core ≡ core.0) × (d.failed ≡ false)) }
        ensures groups { IfOk result (λ d. (g : ℕ) → group_at d g ≡ opened home.items g) }
    {
        let mut groups = empty_groups(alloc, FLOW_GROUPS)?;
        seat_home(alloc, &mut groups, home);
        Ok(Desks {
            core,
            failed: false,
            groups,
            alloc,
        })
    }
}
