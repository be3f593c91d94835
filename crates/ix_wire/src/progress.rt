// What the lines so far have come to, and what one line more does.
ghost use Rattle.std.specs.Prelude.{◌≡◌, ◌<◌, ◌≤◌, ◌^◌, ◌+◌, ◌*◌, All, IfOk, Ok, OnErr, length, true};
ghost use Rattle.std.specs.List.{list_all};
ghost use Rattle.ix_cp.specs.Plan.{IsMoveTo};
ghost use Rattle.ix_wire.specs.Chain.{Leaves};
ghost use Rattle.ix_wire.specs.Command.{IsCommand, places_of, width_of};
ghost use Rattle.ix_wire.specs.Saved.{GoesOn, IsMark, restored, saved_of};
ghost use Rattle.ix_wire.specs.Table.{groups_from};
ghost use Rattle.ix_wire.specs.Progress.{add_run, each_run, frames_run, is_printable, is_skipped, line_run, move_run, revoke_run, run, tag_run, time_run, with_all_planned, with_plan, with_planned, with_step, with_steps, with_tag, with_tags};

use crate::command::{CLASSES, Command, Version, command_of};
use crate::entry::Entry;
use crate::fault::{Refused, ScriptKind};
use crate::records::Records;
use crate::table::Table;
use crate::wire::{Mark, Wire};
use ix_base::{CoreId, GroupId, NoMemory};
use ix_cp::PlanMove;
use std::alloc::Global;

/// The longest line in bytes, without its end.
const MAX_LINE: usize = 128;

/// The entries so far, the flow groups, the last time, the version, and whether a line has said something.
#[derive(Drop)]
pub struct Progress {
    pub wire: Wire,
    pub table: Table,
    pub clock: u32,
    pub version: Version,
    pub begun: bool,
}

/// What a line may change, as it was before it.
#[derive(Drop)]
struct Saved {
    wire: Mark,
    table: Table,
    clock: u32,
    version: Version,
    begun: bool,
}

impl Progress {
    /// Carries out a line, or says why it is refused, and then leaves all as it was.
    #[tactic(auto, unfolding(crate::specs::Progress::line_run))]
    pub fn line(
        &mut self,
        alloc: Global,
        records: &Records<'_>,
        number: u32,
        line: &[u8],
    ) -> Result<(), Refused>
        ensures is { Leaves result self.new (line_run records.now number line.now self.old) }
        ensures refused { OnErr result (self.new ≡ self.old) }
    {
        if line.len() > MAX_LINE {
            return Err(Refused::Kind(ScriptKind::TooLong));
        }
        if line.is_empty() || line[0] == b'#' {
            return Ok(());
        }
        if !is_printable(line) {
            return Err(Refused::Kind(ScriptKind::Word));
        }
        match command_of(self.begun, self.version, line) {
            Ok(command) => self.attempt(alloc, records, number, command),
            Err(kind) => Err(Refused::Kind(kind)),
        }
    }

    // Carries out a command of a line, or leaves all as it was.
    fn attempt(
        &mut self,
        alloc: Global,
        records: &Records<'_>,
        number: u32,
        command: Command,
    ) -> Result<(), Refused>
        requires { IsCommand self.old.version command }
        ensures is { Leaves result self.new (run records.now number command (record self.old { begun = true })) }
        ensures refused { OnErr result (self.new ≡ self.old) }
    {
        let Ok(saved) = self.save(alloc) else {
            return Err(Refused::NoMemory);
        };
        self.begun = true;
        match self.run(alloc, records, number, command) {
            Ok(()) => Ok(()),
            Err(refused) => {
                self.restore(saved);
                Err(refused)
            }
        }
    }

    fn save(&self, alloc: Global) -> Result<Saved, NoMemory>
        ensures is { IfOk result (λ s. s ≡ saved_of self.now) }
        ensures counts { IfOk result (λ s. IsMark s.wire) }
    {
        Ok(Saved {
            wire: self.wire.mark(),
            table: self.table.copy(alloc)?,
            clock: self.clock,
            version: self.version,
            begun: self.begun,
        })
    }

    fn restore(&mut self, saved: Saved)
        requires within { saved.wire.count ≤ length self.old.wire.entries }
        requires counts { IsMark saved.wire }
        ensures { self.new ≡ restored saved self.old }
    {
        let Saved {
            wire,
            table,
            clock,
            version,
            begun,
        } = saved;
        self.wire.rewind(wire);
        self.table = table;
        self.clock = clock;
        self.version = version;
        self.begun = begun;
    }

    // Carries out a command of a line.
    #[tactic(auto, unfolding(crate::specs::Progress::run))]
    fn run(
        &mut self,
        alloc: Global,
        records: &Records<'_>,
        number: u32,
        command: Command,
    ) -> Result<(), Refused>
        requires { IsCommand self.old.version command }
        ensures is { Leaves result self.new (run records.now number command self.old) }
        ensures onward { GoesOn self.old.wire self.new.wire }
    {
        match command {
            Command::Version(version) => {
                self.version = version;
                Ok(())
            }
            Command::Frames { from, to } => self.frames(records, from, to),
            Command::Each { from, to } => self.each(records, from, to),
            Command::Time { t } => self.time(t),
            Command::Tag { place } => self.tag(number, place),
            Command::Move { place, to } => self.move_place(place, to),
            Command::Settle => self.wire.settle(),
            Command::Add { core } => self.add(alloc, number, core),
            Command::Revoke { core } => self.revoke(alloc, number, core),
        }
    }

    #[tactic(auto, unfolding(crate::specs::Progress::frames_run))]
    fn frames(&mut self, records: &Records<'_>, from: u32, to: u32) -> Result<(), Refused>
        requires { from ≤ to }
        ensures is { Leaves result self.new (frames_run records.now from to self.old) }
        ensures onward { GoesOn self.old.wire self.new.wire }
    {
        if to as usize >= records.len() {
            return Err(Refused::Kind(ScriptKind::NoRecord));
        }
        self.wire.frames(records.between(from, to))
    }

    #[tactic(auto, unfolding(crate::specs::Progress::each_run))]
    fn each(&mut self, records: &Records<'_>, from: u32, to: u32) -> Result<(), Refused>
        requires { from ≤ to }
        ensures is { Leaves result self.new (each_run records.now from to self.old) }
        ensures onward { GoesOn self.old.wire self.new.wire }
    {
        if to as usize >= records.len() {
            return Err(Refused::Kind(ScriptKind::NoRecord));
        }
        self.wire.each(records.between(from, to))
    }

    #[tactic(auto, unfolding(crate::specs::Progress::time_run))]
    fn time(&mut self, t: u32) -> Result<(), Refused>
        ensures is { Leaves result self.new (time_run t self.old) }
        ensures onward { GoesOn self.old.wire self.new.wire }
    {
        if t < self.clock {
            return Err(Refused::Kind(ScriptKind::Back));
        }
        self.wire.control(Entry::Time { t })?;
        self.clock = t;
        Ok(())
    }

    #[tactic(auto, unfolding(crate::specs::Progress::tag_run))]
    fn tag(&mut self, number: u32, place: u16) -> Result<(), Refused>
        requires { place < places_of self.old.version }
        ensures is { Leaves result self.new (tag_run number place self.old) }
        ensures onward { GoesOn self.old.wire self.new.wire }
    {
        let width = self.version.width();
        if self.table.has_tagged(place, width) {
            return Err(Refused::Kind(ScriptKind::AlreadyTagged));
        }
        self.tag_groups(number, place, width)
    }

    #[tactic(auto, unfolding(crate::specs::Progress::move_run))]
    fn move_place(&mut self, place: u16, to: u32) -> Result<(), Refused>
        requires { place < places_of self.old.version }
        ensures is { Leaves result self.new (move_run place to self.old) }
        ensures onward { GoesOn self.old.wire self.new.wire }
    {
        let width = self.version.width();
        if !self.table.is_live(to) {
            return Err(Refused::Kind(ScriptKind::NoCore));
        }
        if self.table.has_untagged(place, width) {
            return Err(Refused::Kind(ScriptKind::NotTagged));
        }
        if self.table.has_on(to, place, width) {
            return Err(Refused::Kind(ScriptKind::SameCore));
        }
        self.move_groups(place, width, CoreId(to as u8))
    }

    #[tactic(auto, unfolding(crate::specs::Progress::add_run))]
    fn add(&mut self, alloc: Global, number: u32, core: u32) -> Result<(), Refused>
        ensures is { Leaves result self.new (add_run number core self.old) }
        ensures onward { GoesOn self.old.wire self.new.wire }
    {
        if !self.table.has_core(core) {
            return Err(Refused::Kind(ScriptKind::NoCore));
        }
        if self.table.is_live(core) {
            return Err(Refused::Kind(ScriptKind::Live));
        }
        let width = self.version.width();
        let Ok(plan) = self
            .table
            .add_plan(alloc, self.version.places(), core as u8)
        else {
            return Err(Refused::NoMemory);
        };
        if self.table.are_planned_tagged(&plan, width) {
            return Err(Refused::Kind(ScriptKind::AlreadyTagged));
        }
        self.table.set_live(core as u8, true);
        self.carry_out(number, width, &plan)
    }

    #[tactic(auto, unfolding(crate::specs::Progress::revoke_run))]
    fn revoke(&mut self, alloc: Global, number: u32, core: u32) -> Result<(), Refused>
        ensures is { Leaves result self.new (revoke_run number core self.old) }
        ensures onward { GoesOn self.old.wire self.new.wire }
    {
        if !self.table.is_live(core) {
            return Err(Refused::Kind(ScriptKind::NoCore));
        }
        if self.table.is_only_live(core) {
            return Err(Refused::Kind(ScriptKind::LastCore));
        }
        let width = self.version.width();
        let Ok(plan) = self
            .table
            .revoke_plan(alloc, self.version.places(), core as u8)
        else {
            return Err(Refused::NoMemory);
        };
        if self.table.are_planned_tagged(&plan, width) || self.table.has_tagged_on(core) {
            return Err(Refused::Kind(ScriptKind::AlreadyTagged));
        }
        self.table.set_live(core as u8, false);
        self.carry_out(number, width, &plan)
    }

    #[tactic(auto, unfolding(crate::specs::Progress::with_tag))]
    fn tag_group(&mut self, number: u32, group: u16) -> Result<(), Refused>
        requires { group < 512 }
        ensures is { Leaves result self.new (with_tag number group self.old) }
        ensures onward { GoesOn self.old.wire self.new.wire }
    {
        self.wire.step(Entry::Tag {
            group: GroupId(group),
        })?;
        self.table.tag(number, group);
        Ok(())
    }

    #[tactic(auto, unfolding(crate::specs::Progress::with_step))]
    fn move_group(&mut self, group: u16, to: CoreId) -> Result<(), Refused>
        requires { group < 512 }
        ensures is { Leaves result self.new (with_step to group self.old) }
        ensures onward { GoesOn self.old.wire self.new.wire }
    {
        self.wire.step(Entry::Move {
            group: GroupId(group),
            to,
        })?;
        self.table.put(group, to);
        Ok(())
    }

    // Tags each group that a number names.
    #[tactic(auto, using(crate::proofs::TableLaws::group_steps))]
    fn tag_groups(&mut self, number: u32, place: u16, width: u16) -> Result<(), Refused>
        requires { place + 128 * width < 640 }
        ensures is { Leaves result self.new (with_tags number (groups_from place width) self.old) }
        ensures onward { GoesOn self.old.wire self.new.wire }
    {
        for k in 0..width {
            self.tag_group(number, place + CLASSES * k)?;
        }
        Ok(())
    }

    // Moves each group that a number names.
    #[tactic(auto, using(crate::proofs::TableLaws::group_steps))]
    fn move_groups(&mut self, place: u16, width: u16, to: CoreId) -> Result<(), Refused>
        requires { place + 128 * width < 640 }
        ensures is { Leaves result self.new (with_steps to (groups_from place width) self.old) }
        ensures onward { GoesOn self.old.wire self.new.wire }
    {
        for k in 0..width {
            self.move_group(place + CLASSES * k, to)?;
        }
        Ok(())
    }

    // Tags and moves a group.
    #[tactic(auto, unfolding(crate::specs::Progress::with_planned))]
    fn shift_group(&mut self, number: u32, group: u16, to: CoreId) -> Result<(), Refused>
        requires { group < 512 }
        ensures is { Leaves result self.new (with_planned number to group self.old) }
        ensures onward { GoesOn self.old.wire self.new.wire }
    {
        self.tag_group(number, group)?;
        self.move_group(group, to)
    }

    // Tags and moves each group that a number names.
    #[tactic(auto, using(crate::proofs::TableLaws::group_steps))]
    fn shift_groups(
        &mut self,
        number: u32,
        place: u16,
        width: u16,
        to: CoreId,
    ) -> Result<(), Refused>
        requires { place + 128 * width < 640 }
        ensures is { Leaves result self.new (with_all_planned number to (groups_from place width) self.old) }
        ensures onward { GoesOn self.old.wire self.new.wire }
    {
        for k in 0..width {
            self.shift_group(number, place + CLASSES * k, to)?;
        }
        Ok(())
    }

    // Carries out a plan.
    fn carry_out(&mut self, number: u32, width: u16, plan: &[PlanMove]) -> Result<(), Refused>
        requires { All (λ m. m.group.0 + 128 * width < 640) plan.now }
        ensures is { Leaves result self.new (with_plan number width plan.now self.old) }
        ensures onward { GoesOn self.old.wire self.new.wire }
    {
        for one in plan {
            self.shift_groups(number, one.group.0, width, one.to)?;
        }
        Ok(())
    }
}

fn is_printable(line: &[u8]) -> bool
    ensures { result ≡ list_all is_printable line.now }
{
    line.iter().all(|byte| *byte >= 0x20 && *byte <= 0x7e)
}
