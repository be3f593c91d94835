// The fourth point of a report: its file of replies, and the numbers by which lines name them.
ghost use Rattle.std.specs.Prelude.{◌≡◌, ◌≤◌, All, IfOk, length};
ghost use Rattle.std.specs.Bool.{Decides};
ghost use Rattle.ix_fits.specs.Fits.{left_by};
ghost use Rattle.ix_playdef.specs.Replies.{FitsGroup};
ghost use Rattle.ix_places.specs.Filed.{RepliesFitIn, records_by};
ghost use Rattle.ix_decide.specs.Points.{IsPlay, cycles_in, frames_in, settings_in, sheet_in};

use crate::groups::read_group;
use crate::play::Play;
use ix_base::{FLOW_GROUPS, GroupId, NoMemory};
use ix_groupdef::GroupRecord;
use ix_playdef::local_of;
use ix_wire::Entry;
use std::alloc::Global;

// What a group leaves.
fn left_of(alloc: Global, play: &Play<'_>, group: GroupId) -> Result<GroupRecord, NoMemory>
    requires { IsPlay play.now }
    ensures left { IfOk result (λ left. left ≡ left_by (settings_in play.now) (frames_in play.now) (cycles_in play.now) group.0) }
    ensures fit { IfOk result FitsGroup }
{
    let read = read_group(alloc, play, group)?;
    Ok(read.left)
}

// What all groups leave, in the cycles that the lines of a report tell.
#[tactic(auto, using(crate::proofs::ReplyLaws::for_records))]
fn all_left(alloc: Global, play: &Play<'_>) -> Result<Vec<GroupRecord>, NoMemory>
    requires { IsPlay play.now }
    ensures records { IfOk result (λ records. records.items ≡ records_by (settings_in play.now) (frames_in play.now) (cycles_in play.now)) }
    ensures groups { IfOk result (λ records. length records.items ≤ 512) }
    ensures fit { IfOk result (λ records. All FitsGroup records.items) }
{
    let mut records = Vec::new(alloc);
    for group in 0..FLOW_GROUPS {
        records.push(left_of(alloc, play, GroupId(group as u16))?)?;
    }
    Ok(records)
}

/// Whether a file of replies fits a report, in the cycles that its lines tell: docs/FITS.md, "The four points", point 4.
pub fn replies_fit(
    alloc: Global,
    play: &Play<'_>,
    wire: &[Entry],
    file: &[u8],
) -> Result<bool, NoMemory>
    requires { IsPlay play.now }
    ensures { IfOk result (λ fit. Decides fit (RepliesFitIn (settings_in play.now) (frames_in play.now) wire.now (sheet_in play.now) file.now (cycles_in play.now))) }
{
    let records = all_left(alloc, play)?;
    let local = local_of(play.conf);
    ix_places::replies_fit(alloc, &local, records.as_slice(), wire, play.report, file)
}
