// How far a group has come among the entries of a report.
ghost use Rattle.std.specs.Prelude.{◌≡◌, ◌<◌, ◌≤◌, ◌&&◌, ◌^◌, ◌+◌, if◌then◌else◌, map, not, suc};
ghost use Rattle.ix_fits.specs.Card.{entry_of};
ghost use Rattle.ix_fits.specs.Cutting.{first_stage, is_settle, stage_after};
ghost use Rattle.ix_order.specs.Steppers.{last_tag_by, moved_by, next_core, stepper, tagged_by, tags_by};
ghost use Rattle.ix_told.specs.Entries.{core_number, last_tag_of, stage_of, target_of};

use ix_base::{CoreId, GroupId};
use ix_lines::EntryLine;

/// The last tag of a group so far.
#[derive(Clone, Copy, Debug, PartialEq, Eq)]
pub enum Latest {
    /// There was none.
    NoneYet,
    /// No move has followed it.
    NoMove,
    /// The first move that followed it went to this core.
    MovedTo(CoreId),
}

/// How far a group has come.
#[derive(Clone, Copy, Debug, PartialEq, Eq)]
pub struct Progress {
    /// How many tags of the group there were.
    pub tags: usize,
    /// The last of them.
    pub last: Latest,
    /// Whether no move has followed it yet.
    pub open_tag: bool,
    /// How many settles there were at which no tag of the group was open.
    pub settles: usize,
}

fn tags_by(group: GroupId, tags: usize, entry: &EntryLine) -> usize
    requires { tags < 2 ^ 63 }
    ensures tags { result ≡ tags_by group.0 tags (entry_of entry.now) }
    ensures step { result ≤ tags + 1 }
{
    match entry {
        EntryLine::Tag { group: tagged } => { if group.0 == tagged.0 { tags + 1 } else { tags } }
        _ => tags,
    }
}

fn moved_by(last: Latest, to: CoreId) -> Latest
    ensures { last_tag_of result ≡ moved_by (last_tag_of last) to.0 }
{
    match last {
        Latest::NoMove => Latest::MovedTo(to),
        _ => last,
    }
}

fn last_tag_by(group: GroupId, last: Latest, entry: &EntryLine) -> Latest
    ensures { last_tag_of result ≡ last_tag_by group.0 (last_tag_of last) (entry_of entry.now) }
{
    match entry {
        EntryLine::Tag { group: tagged } => {
            if group.0 == tagged.0 {
                Latest::NoMove
            } else {
                last
            }
        }
        EntryLine::Move { group: moved, to } => {
            if group.0 == moved.0 {
                moved_by(last, *to)
            } else {
                last
            }
        }
        _ => last,
    }
}

fn tagged_by(group: GroupId, open_tag: bool, entry: &EntryLine) -> bool
    ensures { result ≡ tagged_by group.0 open_tag (entry_of entry.now) }
{
    match entry {
        EntryLine::Tag { group: tagged } => { if group.0 == tagged.0 { true } else { open_tag } }
        EntryLine::Move { group: moved, .. } => {
            if group.0 == moved.0 { false } else { open_tag }
        }
        _ => open_tag,
    }
}

/// Whether an entry is a settle.
pub fn is_settle(entry: &EntryLine) -> bool
    ensures { result ≡ is_settle entry.now }
{
    matches!(entry, EntryLine::Settle)
}

fn settles_by(progress: Progress, entry: &EntryLine) -> usize
    requires { progress.settles < 2 ^ 63 }
    ensures step { result ≤ progress.settles + 1 }
    ensures settles { result ≡ (if is_settle entry.now && not progress.open_tag then suc progress.settles else progress.settles) }
{
    if is_settle(entry) && !progress.open_tag {
        progress.settles + 1
    } else {
        progress.settles
    }
}

// Where a move of a group goes.
fn target_of(group: GroupId, entry: &EntryLine) -> Option<CoreId>
    ensures { result ≡ target_of group.0 entry.now }
{
    match entry {
        EntryLine::Move { group: moved, to } => {
            if group.0 == moved.0 { Some(*to) } else { None }
        }
        _ => None,
    }
}

// Where the next move of a group goes.
#[tactic(auto, using(crate::proofs::EntryLaws::for_targets))]
fn next_core(group: GroupId, rest: &[EntryLine]) -> Option<CoreId>
    ensures { core_number result ≡ next_core group.0 (map entry_of rest.now) }
{
    for entry in rest {
        if let Some(core) = target_of(group, entry) {
            return Some(core);
        }
    }
    None
}

impl Progress {
    /// Before the first entry.
    pub fn first() -> Progress
        ensures { stage_of result ≡ first_stage }
    {
        Progress {
            tags: 0,
            last: Latest::NoneYet,
            open_tag: false,
            settles: 0,
        }
    }

    /// One entry on.
    #[tactic(auto, using(crate::proofs::EntryLaws::for_stages))]
    pub fn after(self, group: GroupId, entry: &EntryLine) -> Progress
        requires tags { self.tags < 2 ^ 63 }
        requires settles { self.settles < 2 ^ 63 }
        ensures stage { stage_of result ≡ stage_after group.0 (stage_of self) entry.now }
        ensures few_tags { result.tags ≤ self.tags + 1 }
        ensures few_settles { result.settles ≤ self.settles + 1 }
    {
        Progress {
            tags: tags_by(group, self.tags, entry),
            last: last_tag_by(group, self.last, entry),
            open_tag: tagged_by(group, self.open_tag, entry),
            settles: settles_by(self, entry),
        }
    }

    /// Which core steps an entry of a group, if one does: the group stood on a core at the opening, and these entries are the one and what
    /// follows it.
    pub fn stepper(self, group: GroupId, opening: CoreId, rest: &[EntryLine]) -> Option<CoreId>
        ensures { core_number result ≡ stepper group.0 opening.0 (last_tag_of self.last) (map entry_of rest.now) }
    {
        match self.last {
            Latest::NoneYet => Some(opening),
            Latest::NoMove => next_core(group, rest),
            Latest::MovedTo(core) => Some(core),
        }
    }
}
