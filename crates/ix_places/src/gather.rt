// The replies of all groups with the numbers by which lines name them.
ghost use Rattle.std.specs.Prelude.{◌≡◌, ◌≤◌, ◌<◌, ℕ, All, IfOk, IfSome, MatchOption, length};
ghost use Rattle.ix_playdef.specs.Replies.{FitsGroup, IsShort, all_replies, by_opening};
ghost use Rattle.ix_places.specs.Filed.{AreAsMany};
ghost use Rattle.ix_places.specs.Told.{all_numbers};

use crate::numbers::push_numbers;
use crate::replies::push_group;
use ix_base::{GroupId, Local, NoMemory};
use ix_groupdef::GroupRecord;
use ix_playdef::Reply;
use ix_trace::Report;
use std::alloc::Global;

/// Replies in the order in which lines name them, with their numbers.
#[derive(Drop)]
pub struct Gathered {
    pub replies: Vec<Reply>,
    pub numbers: Vec<u32>,
}

/// All that groups left, where the lines of each group name as many replies as it gave.
#[tactic(auto, using(ix_playdef::specs::Placed::steps))]
pub fn gather(
    alloc: Global,
    local: &Local,
    records: &[GroupRecord],
    report: &Report,
) -> Result<Option<Gathered>, NoMemory>
    requires groups { length records.now ≤ 512 }
    requires fit { All FitsGroup records.now }
    ensures many { IfOk result (λ gathered. MatchOption gathered (AreAsMany local.now records.now report.now → ⊥) (λ g. AreAsMany local.now records.now report.now)) }
    ensures replies { IfOk result (λ gathered. IfSome gathered (λ g. g.replies.items ≡ all_replies by_opening local.now records.now)) }
    ensures numbers { IfOk result (λ gathered. IfSome gathered (λ g. g.numbers.items ≡ all_numbers report.now records.now)) }
    ensures long { IfOk result (λ gathered. IfSome gathered (λ g. length g.replies.items ≡ length g.numbers.items)) }
    ensures short { IfOk result (λ gathered. IfSome gathered (λ g. All IsShort g.replies.items)) }
{
    let mut replies = Vec::new(alloc);
    let mut numbers = Vec::new(alloc);
    for (i, left) in records.iter().enumerate() {
        let group = GroupId(i as u16);
        push_group(alloc, local, group, left, &mut replies)?;
        push_numbers(group, report, &mut numbers)?;
        if replies.len() != numbers.len() {
            return Ok(None);
        }
    }
    Ok(Some(Gathered { replies, numbers }))
}
