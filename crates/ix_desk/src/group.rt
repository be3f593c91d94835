// The desks of one group on this core.
ghost use Rattle.std.specs.Prelude.{◌≡◌, ◌==◌, ◌+◌, true, false, is_some, length, position, Some, IfSome, IfNone, IfOk, IfErr, slice_get};
ghost use Rattle.std.specs.List.{list_any};
ghost use Rattle.std.specs.Option.{option_copied};
ghost use Rattle.ix_desk.specs.Groups.{arrival_of, arrivals_but, cut_awaits, cut_seated, is_awaiting, is_finished, is_seated, current_awaits, current_seated, cut_unit, cut_untaken, cut_with, HasNoUnit, HasUnitAt, done_of, cut_but_done, cut_has_work, current_has_work, cut_waits, current_waits, early_waits};

use crate::amounts::{Measure, current_amount, cut_amount, early_amount};
use crate::desk::Desk;
use crate::tenures::Tenures;
use crate::unit::{DeskItem, Unit};
use crate::working::work_cut;
use ix_base::{Back, CoreId, List, NoMemory};
use std::alloc::Global;
use std::marker::Model;

/// A piece that was cut, and the core that its unit goes to.
#[derive(Drop)]
pub struct CutDesk<U, I> {
    pub to: CoreId,
    pub desk: Desk<U, I>,
}

/// A unit whose tenure's piece hasn't begun, with its remote queue.
#[derive(Drop)]
pub struct Early<U, I> {
    pub tenure: u32,
    pub unit: U,
    pub queue: List<I>,
}

/// One group: the pieces that were cut, the one to which items come, and what arrived before its piece began.
///
/// A tenure that has ended leaves nothing here but its number, which tells that it has arrived.
#[derive(Drop)]
pub struct GroupDesks<U, I> {
    cut: Vec<CutDesk<U, I>>,
    current: Option<Desk<U, I>>,
    early: Vec<Early<U, I>>,
    arrived: Tenures,
    last: u32,
}

impl<U, I> Model for CutDesk<U, I> {
    ghost use Rattle.ix_desk.specs.Views.{CutPiece};

    ghost Value = { CutPiece U I };

    ghost view = { λ c. record { to = c.to.0; piece = c.desk } };
}

impl<U, I> Model for Early<U, I> {
    ghost use Rattle.ix_desk.specs.Views.{Arrival};

    ghost Value = { Arrival U I };

    ghost view = { λ e. record { tenure = e.tenure; unit = e.unit; queue = e.queue } };
}

impl<U, I> Model for GroupDesks<U, I> {
    ghost use Rattle.ix_desk.specs.Views.{Group};

    ghost Value = { Group U I };

    ghost view = { λ g. record { cut = g.cut.items; current = g.current; early = g.early.items; arrived = g.arrived; last = g.last } };
}

impl<U: Drop, I: Drop> GroupDesks<U, I> {
    ghost use Rattle.std.specs.Prelude.{◌≡◌, ◌+◌, ◌++◌, ◌∷◌, [], true, false, length, Option, Some, None, OnOk, IfOk, IfErr, IfSome, IfNone, MatchOption, slice_get};
    ghost use Rattle.std.specs.Option.{option_copied};
    ghost use Rattle.ix_desk.specs.declared.unit.DeskItem.TheVariants.{Work, Tag, Cut, Start};
    ghost use Rattle.ix_desk.specs.Tenures.{has_arrived};
    ghost use Rattle.ix_desk.specs.Groups.{fits, taken, landed, unit_of, untaken, changed, current_unit, current_with, cut_piece_with, no_piece, done_of, shipped, group_has_work, waits, empty, at_home};
    ghost use Rattle.std.specs.Prelude.{◌<◌, ◌-◌, ◌^◌, min, sum_by, slice_set, slice_index_or};
    ghost use Rattle.std.specs.Option.{option_copied_mut};
    ghost use Rattle.std.specs.Borrow.{LendsIf, sem};
    ghost use Rattle.ix_desk.specs.contracts.group.GroupDesks.{the_row};

    /// A group of which no piece began and no unit arrived.
    pub fn new(alloc: Global) -> GroupDesks<U, I>
        ensures { result ≡ empty }
    {
        GroupDesks {
            cut: Vec::new(alloc),
            current: None,
            early: Vec::new(alloc),
            arrived: Tenures::new(alloc),
            last: 0,
        }
    }

    /// A group whose unit is at home here.
    pub fn at_home(alloc: Global, unit: U) -> GroupDesks<U, I>
        ensures { result ≡ at_home unit }
    {
        GroupDesks {
            cut: Vec::new(alloc),
            current: Some(Desk::with_unit(alloc, 0, unit, List::new(alloc))),
            early: Vec::new(alloc),
            arrived: Tenures::new(alloc),
            last: 0,
        }
    }

    /// Whether this item comes next by the order of a ring.
    pub fn fits(&self, it: &DeskItem<I>) -> bool
        ensures { result ≡ fits self.now it.now }
    {
        match it {
            DeskItem::Work(_) => self.current.is_some(),
            DeskItem::Tag => match &self.current {
                Some(desk) => !desk.is_tagged(),
                None => false,
            },
            DeskItem::Cut { to: _ } => match &self.current {
                Some(desk) => desk.is_tagged(),
                None => false,
            },
            DeskItem::Start { tenure } => {
                self.current.is_none() && self.last < *tenure && *tenure < u32::MAX
            }
        }
    }

    /// Takes an item of the ring, or hands it back.
    pub fn item(&mut self, alloc: Global, it: DeskItem<I>) -> Result<(), Back<DeskItem<I>>>
        requires { fits self.old it ≡ true }
        ensures ok { OnOk result (self.new ≡ taken self.old it) }
        ensures back { IfErr result (λ b. (b.item ≡ it) × (self.new ≡ self.old)) }
    {
        match it {
            DeskItem::Work(item) => self.put(item),
            DeskItem::Tag => {
                self.tag();
                Ok(())
            }
            DeskItem::Cut { to } => self.cut(to),
            DeskItem::Start { tenure } => {
                self.start(alloc, tenure);
                Ok(())
            }
        }
    }

    fn put(&mut self, item: I) -> Result<(), Back<DeskItem<I>>>
        requires { fits self.old (Work item) ≡ true }
        ensures ok { OnOk result (self.new ≡ taken self.old (Work item)) }
        ensures back { IfErr result (λ b. (b.item ≡ Work item) × (self.new ≡ self.old)) }
    {
        let Some(desk) = &mut self.current else {
            unreachable!()
        };
        match desk.put(item) {
            Ok(()) => Ok(()),
            Err(back) => Err(Back {
                item: DeskItem::Work(back.item),
            }),
        }
    }

    fn tag(&mut self)
        requires { fits self.old Tag ≡ true }
        ensures { self.new ≡ taken self.old Tag }
    {
        if let Some(desk) = &mut self.current {
            desk.tag();
        }
    }

    fn cut(&mut self, to: CoreId) -> Result<(), Back<DeskItem<I>>>
        requires { fits self.old (Cut to) ≡ true }
        ensures ok { OnOk result (self.new ≡ taken self.old (Cut to)) }
        ensures back { IfErr result (λ b. (b.item ≡ Cut to) × (self.new ≡ self.old)) }
    {
        let Ok(()) = self.cut.reserve(1) else {
            return Err(Back {
                item: DeskItem::Cut { to },
            });
        };
        if let Some(desk) = self.current.take() {
            self.cut.push_reserved(CutDesk { to, desk });
        }
        Ok(())
    }

    fn start(&mut self, alloc: Global, tenure: u32)
        requires { fits self.old (Start tenure) ≡ true }
        ensures { self.new ≡ taken self.old (Start tenure) }
    {
        let desk = match take_early(&mut self.early, tenure) {
            Some(
                Early {
                    tenure: _,
                    unit,
                    queue,
                },
            ) => Desk::with_unit(alloc, tenure, unit, queue),
            None => Desk::new(alloc, tenure),
        };
        self.current = Some(desk);
        self.last = tenure;
    }

    /// Whether the unit of this tenure has arrived.
    pub fn has_arrived(&self, tenure: u32) -> bool
        ensures { result ≡ has_arrived tenure self.now.arrived }
    {
        self.arrived.contains(tenure)
    }

    /// Takes a unit with its remote queue, or gives them back for want of memory.
    pub fn arrive(&mut self, tenure: u32, unit: U, queue: List<I>) -> Option<(U, List<I>)>
        ensures ok { IfNone result (self.new ≡ landed self.old (record { tenure = tenure; unit = unit; queue = queue })) }
        ensures back { IfSome result (λ b. (b.0 ≡ unit) × (b.1 ≡ queue) × (self.new ≡ self.old)) }
    {
        let Ok(()) = self.early.reserve(1) else {
            return Some((unit, queue));
        };
        let Ok(()) = self.arrived.add(tenure) else {
            return Some((unit, queue));
        };
        let Some((unit, queue)) = seat_cut(&mut self.cut, tenure, unit, queue) else {
            return None;
        };
        let Some((unit, queue)) = seat_current(&mut self.current, tenure, unit, queue) else {
            return None;
        };
        self.early.push_reserved(Early {
            tenure,
            unit,
            queue,
        });
        None
    }

    /// The unit that is here.
    pub fn unit(&self) -> Option<&U>
        ensures { option_copied result ≡ unit_of self.now }
    {
        if let Some(unit) = find_cut_unit(self.cut.as_slice()) {
            return Some(unit);
        }
        match &self.current {
            Some(desk) => desk.unit(),
            None => None,
        }
    }

    /// The unit that is here, to be changed in its place.
    #[tactic(auto, unfolding(crate::specs::Groups::changed))]
    pub fn unit_mut(&mut self) -> Option<&mut U>
        ensures* writes_back { sem 𝓛 (LendsIf (the_row U.row I.row) U.row self.entry result (changed self.old) self.old) }
        ensures value { option_copied_mut result ≡ unit_of self.old }
    {
        match place_of_unit(self.cut.as_slice()) {
            Some(place) => self.cut_unit_mut(place),
            None => self.current_unit_mut(),
        }
    }

    fn cut_unit_mut(&mut self, place: usize) -> Option<&mut U>
        requires { place < length self.old.cut }
        ensures* writes_back { sem 𝓛 (LendsIf (the_row U.row I.row) U.row self.entry result (λ u. record self.old { cut = slice_set self.old.cut place (cut_piece_with (slice_index_or self.old.cut place no_piece) u) }) (record self.old { cut = slice_set self.old.cut place (slice_index_or self.old.cut place no_piece) })) }
        ensures value { option_copied_mut result ≡ (slice_index_or self.old.cut place no_piece).piece.unit }
    {
        let here = &mut self.cut[place];
        here.unit_mut()
    }

    fn current_unit_mut(&mut self) -> Option<&mut U>
        ensures* writes_back { sem 𝓛 (LendsIf (the_row U.row I.row) U.row self.entry result (λ u. record self.old { current = current_with self.old.current u }) self.old) }
        ensures value { option_copied_mut result ≡ current_unit self.old.current }
    {
        self.current.as_mut()?.unit_mut()
    }

    /// Takes away the unit that is here.
    pub fn take_unit(&mut self) -> Option<U>
        ensures unit { result ≡ unit_of self.old }
        ensures rest { self.new ≡ untaken self.old }
        ensures none { IfNone result (self.new ≡ self.old) }
    {
        if let Some(unit) = take_cut_unit(&mut self.cut) {
            return Some(unit);
        }
        match &mut self.current {
            Some(desk) => desk.take_unit(),
            None => None,
        }
    }

    /// Gives away the oldest piece that was cut and is done.
    pub fn ship(&mut self) -> Option<CutDesk<U, I>>
        ensures piece { result ≡ done_of self.old.cut }
        ensures rest { self.new ≡ shipped self.old }
        ensures none { IfNone result (self.new ≡ self.old) }
    {
        take_done(&mut self.cut)
    }

    /// Whether something of the group is to be stepped here.
    pub fn has_work(&self) -> bool
        ensures { result ≡ group_has_work self.now }
    {
        cut_has_work(self.cut.as_slice()) || current_has_work(&self.current)
    }

    /// An item that waits, or how many more places it stands behind all of this group.
    pub fn waiting(&self, i: usize) -> Result<&I, usize>
        ensures found { IfOk result (λ x. slice_get (waits self.now) i ≡ Some x.now) }
        ensures beyond { IfErr result (λ rest. rest + length (waits self.now) ≡ i) }
    {
        let i = match cut_waiting(self.cut.as_slice(), i) {
            Ok(item) => return Ok(item),
            Err(rest) => rest,
        };
        let i = match current_waiting(&self.current, i) {
            Ok(item) => return Ok(item),
            Err(rest) => rest,
        };
        early_waiting(self.early.as_slice(), i)
    }

    /// The numbers of the items that wait, added up. The sum stands still at the type's end.
    pub fn amount<M: Measure<I>>(&self, measure: &M) -> u32
        ensures { result ≡ min (sum_by (M.amount measure.now) (waits self.now)) (2 ^ 32 - 1) }
    {
        let cut = cut_amount(measure, self.cut.as_slice());
        let current = current_amount(measure, &self.current);
        let early = early_amount(measure, self.early.as_slice());
        let rest = current.saturating_add(early);
        cut.saturating_add(rest)
    }
}

impl<U: Drop, I: Drop> CutDesk<U, I> {
    ghost use Rattle.std.specs.Prelude.{◌≡◌, ◌+◌};
    ghost use Rattle.std.specs.Option.{option_copied_mut};
    ghost use Rattle.std.specs.Borrow.{LendsIf, sem};
    ghost use Rattle.ix_desk.specs.Groups.{cut_piece_with};
    ghost use Rattle.ix_desk.specs.contracts.group.CutDesk.{the_row};

    /// The unit of its desk, to be changed in its place.
    pub fn unit_mut(&mut self) -> Option<&mut U>
        ensures* writes_back { sem 𝓛 (LendsIf (the_row U.row I.row) U.row self.entry result (cut_piece_with self.old) self.old) }
        ensures value { option_copied_mut result ≡ self.old.piece.unit }
    {
        self.desk.unit_mut()
    }

    /// Takes it apart: where the unit goes, the number of its next tenure, the unit, and the items behind the tag.
    pub fn into_parts(self) -> (CoreId, u32, Option<U>, List<I>)
        ensures { (result.0.0 ≡ self.to) × (result.1 ≡ self.piece.tenure + 1) × (result.2 ≡ self.piece.unit) × (result.3 ≡ self.piece.behind) }
    {
        let CutDesk { to, desk } = self;
        let (tenure, unit, queue) = desk.into_parts();
        (to, tenure, unit, queue)
    }
}

impl<U: Unit> CutDesk<U, U::Item> {
    ghost use Rattle.std.specs.Prelude.{◌≡◌, OnOk, OnErr, IfOk};
    ghost use Rattle.ix_desk.specs.Steps.{cut_leaves, CutWorked};
    ghost use Rattle.ix_desk.specs.Failures.{CutFailed};

    /// `work` of its desk.
    pub fn work(
        &mut self,
        alloc: Global,
        env: &U::Env,
        core: CoreId,
        budget: usize,
    ) -> Result<usize, NoMemory>
        ensures worked { OnOk result (CutWorked U.counted U.name U.stepped U.advanced env.now core.0 budget self.old self.new) }
        ensures left { IfOk result (λ left. left ≡ cut_leaves U.counted budget self.old) }
        ensures failed { OnErr result (CutFailed U.counted budget self.old self.new) }
    {
        self.desk.work(alloc, env, core, budget)
    }
}

impl<U: Unit> GroupDesks<U, U::Item> {
    ghost use Rattle.std.specs.Prelude.{◌≡◌, OnOk, OnErr, IfOk};
    ghost use Rattle.ix_desk.specs.Steps.{group_leaves, GroupWorked};
    ghost use Rattle.ix_desk.specs.Failures.{GroupFailed};

    /// Steps items of each piece whose unit is here, within a budget of items that count. Answers what is left of it.
    pub fn work(
        &mut self,
        alloc: Global,
        env: &U::Env,
        core: CoreId,
        budget: usize,
    ) -> Result<usize, NoMemory>
        ensures worked { OnOk result (GroupWorked U.counted U.name U.stepped U.advanced env.now core.0 budget self.old self.new) }
        ensures left { IfOk result (λ left. left ≡ group_leaves U.counted budget self.old) }
        ensures failed { OnErr result (GroupFailed U.counted U.name U.stepped U.advanced env.now core.0 budget self.old self.new) }
    {
        let left = work_cut(alloc, env, core, budget, &mut self.cut)?;
        match &mut self.current {
            Some(desk) => desk.work(alloc, env, core, left),
            None => Ok(left),
        }
    }
}

fn cut_has_work<U: Drop, I: Drop>(cut: &[CutDesk<U, I>]) -> bool
    ensures { result ≡ list_any cut_has_work cut.now }
{
    cut.iter().any(|here| here.desk.has_work())
}

fn current_has_work<U: Drop, I: Drop>(current: &Option<Desk<U, I>>) -> bool
    ensures { result ≡ current_has_work current.now }
{
    match current {
        Some(desk) => desk.has_work(),
        None => false,
    }
}

// Takes out what arrived for a tenure.
fn take_early<U: Drop, I: Drop>(early: &mut Vec<Early<U, I>>, tenure: u32) -> Option<Early<U, I>>
    ensures taken { result ≡ arrival_of tenure early.old.items }
    ensures rest { early.new.items ≡ arrivals_but tenure early.old.items }
{
    let place = place_of_arrival(early.as_slice(), tenure)?;
    Some(early.remove(place))
}

fn place_of_arrival<U: Drop, I: Drop>(early: &[Early<U, I>], tenure: u32) -> Option<usize>
    ensures { result ≡ position (λ a. a.tenure == tenure) early.now }
{
    early.iter().position(|here| here.tenure == tenure)
}

// Gives a unit that arrived, with its remote queue, to the piece that was cut and awaits it, or gives them back.
fn seat_cut<U: Drop, I: Drop>(
    cut: &mut Vec<CutDesk<U, I>>,
    tenure: u32,
    unit: U,
    queue: List<I>,
) -> Option<(U, List<I>)>
    ensures cut { cut.new.items ≡ cut_seated (record { tenure = tenure; unit = unit; queue = queue }) cut.old.items }
    ensures seated { IfNone result (cut_awaits tenure cut.old.items ≡ true) }
    ensures back { IfSome result (λ b. (b.0 ≡ unit) × (b.1 ≡ queue) × (cut_awaits tenure cut.old.items ≡ false)) }
{
    let Some(place) = place_of_awaiting(cut.as_slice(), tenure) else {
        return Some((unit, queue));
    };
    let here = &mut cut[place];
    here.desk.seat(unit, queue);
    None
}

fn place_of_awaiting<U: Drop, I: Drop>(cut: &[CutDesk<U, I>], tenure: u32) -> Option<usize>
    ensures { result ≡ position (is_awaiting tenure) cut.now }
{
    cut.iter().position(|here| here.desk.awaits(tenure))
}

// Gives them to the piece to which items come, if that awaits them, or gives them back.
fn seat_current<U: Drop, I: Drop>(
    current: &mut Option<Desk<U, I>>,
    tenure: u32,
    unit: U,
    queue: List<I>,
) -> Option<(U, List<I>)>
    ensures current { current.new ≡ current_seated (record { tenure = tenure; unit = unit; queue = queue }) current.old }
    ensures seated { IfNone result (current_awaits tenure current.old ≡ true) }
    ensures back { IfSome result (λ b. (b.0 ≡ unit) × (b.1 ≡ queue) × (current_awaits tenure current.old ≡ false)) }
{
    match current {
        Some(desk) => {
            if desk.awaits(tenure) {
                desk.seat(unit, queue);
                return None;
            }
            Some((unit, queue))
        }
        None => Some((unit, queue)),
    }
}

// Takes away the unit of the oldest piece that was cut and has one.
fn take_cut_unit<U: Drop, I: Drop>(cut: &mut Vec<CutDesk<U, I>>) -> Option<U>
    ensures unit { result ≡ cut_unit cut.old.items }
    ensures rest { cut.new.items ≡ cut_untaken cut.old.items }
    ensures none { IfNone result (cut.new.items ≡ cut.old.items) }
{
    let place = place_of_unit(cut.as_slice())?;
    let here = &mut cut[place];
    here.desk.take_unit()
}

// Takes out the oldest piece that is done.
fn take_done<U: Drop, I: Drop>(cut: &mut Vec<CutDesk<U, I>>) -> Option<CutDesk<U, I>>
    ensures done { result ≡ done_of cut.old.items }
    ensures rest { cut.new.items ≡ cut_but_done cut.old.items }
    ensures none { IfNone result (cut.new.items ≡ cut.old.items) }
{
    let place = place_of_finished(cut.as_slice())?;
    Some(cut.remove(place))
}

fn place_of_finished<U: Drop, I: Drop>(cut: &[CutDesk<U, I>]) -> Option<usize>
    ensures { result ≡ position is_finished cut.now }
{
    cut.iter().position(|here| here.desk.is_done())
}

// The unit of the oldest piece that was cut and has one.
fn find_cut_unit<'a, U: Drop, I: Drop>(cut: &'a [CutDesk<U, I>]) -> Option<&'a U>
    ensures { option_copied result ≡ cut_unit cut.now }
{
    let place = place_of_unit(cut)?;
    let here = &cut[place];
    here.desk.unit()
}

// The place of the oldest piece that was cut and has its unit.
fn place_of_unit<U: Drop, I: Drop>(cut: &[CutDesk<U, I>]) -> Option<usize>
    ensures some { IfSome result (HasUnitAt cut.now) }
    ensures none { IfNone result (HasNoUnit cut.now) }
{
    place_of_seated(cut)
}

fn place_of_seated<U: Drop, I: Drop>(cut: &[CutDesk<U, I>]) -> Option<usize>
    ensures { result ≡ position is_seated cut.now }
{
    cut.iter().position(|here| here.desk.has_unit())
}

// An item that waits at pieces that were cut, or how many more places it stands behind them.
fn cut_waiting<'a, U: Drop, I: Drop>(cut: &'a [CutDesk<U, I>], i: usize) -> Result<&'a I, usize>
    ensures found { IfOk result (λ x. slice_get (cut_waits cut.now) i ≡ Some x.now) }
    ensures beyond { IfErr result (λ rest. rest + length (cut_waits cut.now) ≡ i) }
{
    let mut left = i;
    for here in cut {
        match here.desk.waiting(left) {
            Ok(item) => return Ok(item),
            Err(rest) => left = rest,
        }
    }
    Err(left)
}

fn current_waiting<'a, U: Drop, I: Drop>(
    current: &'a Option<Desk<U, I>>,
    i: usize,
) -> Result<&'a I, usize>
    ensures found { IfOk result (λ x. slice_get (current_waits current.now) i ≡ Some x.now) }
    ensures beyond { IfErr result (λ rest. rest + length (current_waits current.now) ≡ i) }
{
    match current {
        Some(desk) => desk.waiting(i),
        None => Err(i),
    }
}

// An item that came with a unit whose piece hasn't begun, or how many more places it stands behind them.
fn early_waiting<'a, U: Drop, I: Drop>(early: &'a [Early<U, I>], i: usize) -> Result<&'a I, usize>
    ensures found { IfOk result (λ x. slice_get (early_waits early.now) i ≡ Some x.now) }
    ensures beyond { IfErr result (λ rest. rest + length (early_waits early.now) ≡ i) }
{
    let mut left = i;
    for here in early {
        match here.queue.get(left) {
            Some(item) => return Ok(item),
            None => left -= here.queue.len(),
        }
    }
    Err(left)
}
