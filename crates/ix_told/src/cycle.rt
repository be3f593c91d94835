// Cycles that are read from a report.
ghost use Rattle.std.specs.Prelude.{◌≡◌, ◌++◌, ◌∷◌, ◌<◌, ◌≤◌, All, IfOk, OnOk, length, map};
ghost use Rattle.ix_fits.specs.Cutting.{frame_in, frames_due};
ghost use Rattle.ix_fits.specs.Read.{alone, core_of, cycle_with, first_core};
ghost use Rattle.ix_told.specs.Reading.{IsFrame, cycle_of};
ghost use Rattle.ix_told.specs.Short.{IsShortTaken};

use crate::batch::FrameBatch;
use crate::group_entries::GroupEntry;
use ix_base::{CoreId, List, NoMemory, WireNo};
use ix_groupdef::Taken;
use ix_playdef::Given;
use std::alloc::Global;

/// A cycle of a group.
#[derive(Drop)]
pub enum ReadCycle {
    /// Some frames.
    Frames(FrameBatch),
    /// An entry that sets the clock, in ticks.
    Time { core: CoreId, w: WireNo, t: u32 },
}

// Adds the frame of an entry, if it is one.
fn push_frame(alloc: Global, entry: &GroupEntry, frames: &mut List<Taken>) -> Result<(), NoMemory>
    ensures frames { OnOk result (frames.new ≡ frames.old ++ frame_in entry.now.given) }
    ensures short { All IsShortTaken frames.old → OnOk result (All IsShortTaken frames.new) }
    ensures some { IsFrame entry.now.given → OnOk result (0 < length frames.new) }
{
    if let Given::Frame(taken) = &entry.given {
        let frame = taken.frame.try_clone(alloc)?;
        frames.push(Taken { w: taken.w, frame })?;
    }
    Ok(())
}

// The frames among some entries.
#[tactic(auto, using(crate::proofs::CycleLaws::for_frames))]
fn frames_due(alloc: Global, entries: &[GroupEntry]) -> Result<List<Taken>, NoMemory>
    ensures frames { IfOk result (λ frames. frames ≡ frames_due entries.now) }
    ensures short { IfOk result (All IsShortTaken) }
{
    let mut frames = List::new(alloc);
    for entry in entries {
        push_frame(alloc, entry, &mut frames)?;
    }
    Ok(frames)
}

/// The cycle of the frames among some entries and of one more, on the core that steps the first.
#[tactic(auto, using(crate::proofs::CycleLaws::for_cycles))]
pub fn cycle_with(
    alloc: Global,
    waiting: &[GroupEntry],
    last: &GroupEntry,
) -> Result<ReadCycle, NoMemory>
    requires { IsFrame last.now.given }
    ensures { IfOk result (λ cycle. cycle_of cycle ≡ cycle_with waiting.now last.now) }
{
    let mut frames = frames_due(alloc, waiting)?;
    push_frame(alloc, last, &mut frames)?;
    let core = first_core(waiting, last);
    Ok(ReadCycle::Frames(FrameBatch { core, frames }))
}

// The core that steps the first of some entries and one more.
fn first_core(waiting: &[GroupEntry], last: &GroupEntry) -> CoreId
    ensures { result ≡ first_core (core_of last.now) waiting.now }
{
    match waiting.first() {
        Some(entry) => entry.stepping_core(),
        None => last.stepping_core(),
    }
}

/// An entry as a cycle of its own.
#[tactic(auto, using(crate::proofs::CycleLaws::for_cycles))]
pub fn alone(alloc: Global, entry: &GroupEntry) -> Result<ReadCycle, NoMemory>
    ensures { IfOk result (λ cycle. cycle_of cycle ≡ alone entry.now) }
{
    let core = entry.stepping_core();
    match &entry.given {
        Given::Frame(_) => {
            let mut frames = List::new(alloc);
            push_frame(alloc, entry, &mut frames)?;
            Ok(ReadCycle::Frames(FrameBatch { core, frames }))
        }
        Given::Time { w, t } => Ok(ReadCycle::Time { core, w: *w, t: *t }),
    }
}

/// Adds each of some entries as a cycle of its own.
#[tactic(auto, using(crate::proofs::CycleLaws::for_alone))]
pub fn push_alone(
    alloc: Global,
    entries: &[GroupEntry],
    cycles: &mut Vec<ReadCycle>,
) -> Result<(), NoMemory>
    ensures { OnOk result (map cycle_of cycles.new.items ≡ map cycle_of cycles.old.items ++ map alone entries.now) }
{
    for entry in entries {
        let cycle = alone(alloc, entry)?;
        cycles.push(cycle)?;
    }
    Ok(())
}
