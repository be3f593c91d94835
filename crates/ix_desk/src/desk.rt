// One tenure of a group on this core, from the beginning of its piece until its unit leaves.
ghost use Rattle.std.specs.Prelude.{◌≡◌, true};

use ix_base::{Back, List};
use std::alloc::Global;
use std::collections::VecDeque;
use std::marker::Model;

/// The items of a piece that wait, and the unit once it is here.
#[derive(Drop)]
pub struct Desk<U, I> {
    pub tenure: u32,
    pub tagged: bool,
    pub unit: Option<U>,
    pub remote: VecDeque<I>,
    pub local: VecDeque<I>,
    pub behind: List<I>,
}

impl<U, I> Model for Desk<U, I> {
    ghost use Rattle.std.specs.Prelude.{◌<◌};
    ghost use Rattle.ix_desk.specs.Views.{Piece};

    ghost Value = { Piece U I };

    ghost view = { λ d. record { tenure = d.tenure; tagged = d.tagged; unit = d.unit; remote = d.remote.items; local = d.local.items; behind = d.behind } };

    ghost invariant = { λ d. d.tenure < 4294967295 };
}

impl<U: Drop, I: Drop> Desk<U, I> {
    ghost use Rattle.std.specs.Prelude.{◌≡◌, ◌+◌, ◌<◌, ◌++◌, ◌∷◌, [], ℕ, true, false, length, is_some, Option, Some, None, OnOk, IfOk, IfErr, IfNone, slice_get};
    ghost use Rattle.std.specs.Option.{option_copied};
    ghost use Rattle.ix_desk.specs.Pieces.{begun, with_item, with_tag, with_arrival, awaits, without_unit, with_unit, is_done, piece_has_work, piece_waits};
    ghost use Rattle.std.specs.Option.{option_copied_mut};
    ghost use Rattle.std.specs.Borrow.{LendsIf, sem};
    ghost use Rattle.ix_desk.specs.contracts.desk.Desk.{the_row};

    /// The desk of a piece that begins, whose unit hasn't come.
    pub fn new(alloc: Global, tenure: u32) -> Desk<U, I>
        requires { tenure < 4294967295 }
        ensures { result ≡ begun tenure None }
    {
        Desk {
            tenure,
            tagged: false,
            unit: None,
            remote: VecDeque::new(alloc),
            local: VecDeque::new(alloc),
            behind: List::new(alloc),
        }
    }

    /// The desk of a piece that begins, whose unit has come.
    pub fn with_unit(alloc: Global, tenure: u32, unit: U, queue: List<I>) -> Desk<U, I>
        requires { tenure < 4294967295 }
        ensures { result ≡ record { tenure = tenure; tagged = false; unit = Some unit; remote = queue; local = []; behind = [] } }
    {
        Desk {
            tenure,
            tagged: false,
            unit: Some(unit),
            remote: VecDeque::from(queue.into_vec()),
            local: VecDeque::new(alloc),
            behind: List::new(alloc),
        }
    }

    /// Takes an item of the piece.
    pub fn put(&mut self, item: I) -> Result<(), Back<I>>
        ensures ok { OnOk result (self.new ≡ with_item self.old item) }
        ensures back { IfErr result (λ b. (b.item ≡ item) × (self.new ≡ self.old)) }
    {
        if self.tagged {
            return self.behind.push(item);
        }
        self.local
            .push_back(item)
            .map_err(|failed| Back { item: failed.value })
    }

    /// Takes the tag.
    pub fn tag(&mut self)
        ensures { self.new ≡ with_tag self.old }
    {
        self.tagged = true;
    }

    /// Whether the tag was taken.
    pub fn is_tagged(&self) -> bool
        ensures { result ≡ self.now.tagged }
    {
        self.tagged
    }

    /// Whether the unit of this tenure has yet to come.
    pub fn awaits(&self, tenure: u32) -> bool
        ensures { result ≡ awaits tenure self.now }
    {
        self.unit.is_none() && self.remote.is_empty() && self.tenure == tenure
    }

    /// Takes the unit, with the items that are to be stepped first.
    pub fn seat(&mut self, unit: U, queue: List<I>)
        ensures { self.new ≡ with_arrival (record { tenure = self.old.tenure; unit = unit; queue = queue }) self.old }
    {
        self.unit = Some(unit);
        self.remote = VecDeque::from(queue.into_vec());
    }

    /// Whether the unit is here.
    pub fn has_unit(&self) -> bool
        ensures { result ≡ is_some self.now.unit }
    {
        self.unit.is_some()
    }

    /// The unit, if it is here.
    pub fn unit(&self) -> Option<&U>
        ensures { option_copied result ≡ self.now.unit }
    {
        self.unit.as_ref()
    }

    /// The unit, to be changed in its place, if it is here.
    pub fn unit_mut(&mut self) -> Option<&mut U>
        ensures* writes_back { sem 𝓛 (LendsIf (the_row U.row I.row) U.row self.entry result (with_unit self.old) self.old) }
        ensures value { option_copied_mut result ≡ self.old.unit }
    {
        self.unit.as_mut()
    }

    /// Takes the unit away.
    pub fn take_unit(&mut self) -> Option<U>
        ensures unit { result ≡ self.old.unit }
        ensures rest { self.new ≡ without_unit self.old }
        ensures none { IfNone result (self.new ≡ self.old) }
    {
        self.unit.take()
    }

    /// Whether the unit is here and all that was to be stepped is.
    pub fn is_done(&self) -> bool
        ensures { result ≡ is_done self.now }
    {
        self.unit.is_some() && self.remote.is_empty() && self.local.is_empty()
    }

    /// Whether the unit is here and something is to be stepped.
    #[tactic(auto, using(crate::proofs::Work::work_laws))]
    pub fn has_work(&self) -> bool
        ensures { result ≡ piece_has_work self.now }
    {
        self.unit.is_some() && !(self.remote.is_empty() && self.local.is_empty())
    }

    /// An item that waits, or how many more places it stands behind all of this desk.
    pub fn waiting(&self, i: usize) -> Result<&I, usize>
        ensures found { IfOk result (λ x. slice_get (piece_waits self.now) i ≡ Some x.now) }
        ensures beyond { IfErr result (λ rest. rest + length (piece_waits self.now) ≡ i) }
    {
        if let Some(item) = self.remote.get(i) {
            return Ok(item);
        }
        let i = i - self.remote.len();
        if let Some(item) = self.local.get(i) {
            return Ok(item);
        }
        let i = i - self.local.len();
        if let Some(item) = self.behind.get(i) {
            return Ok(item);
        }
        Err(i - self.behind.len())
    }

    /// Takes the desk apart: the number of the next tenure, the unit, and the items behind the tag.
    pub fn into_parts(self) -> (u32, Option<U>, List<I>)
        ensures { (result.0 ≡ self.tenure + 1) × (result.1 ≡ self.unit) × (result.2 ≡ self.behind) }
    {
        let Desk {
            tenure,
            tagged: _,
            unit,
            remote: _,
            local: _,
            behind,
        } = self;
        (tenure + 1, unit, behind)
    }
}
