// The lines of the strays of a play, in wire order.
ghost use Rattle.std.specs.Prelude.{◌≡◌, ◌≤◌, ◌<◌, ◌^◌, ◌++◌, OnOk, IfOk, length};
ghost use Rattle.std.specs.List.Sorted.{IsPermutation, IsSortedByKey};
ghost use Rattle.std.specs.Ordering.{nat_cmp};
ghost use Rattle.ix_playdef.specs.Order.{key_cmp, key_of};
ghost use Rattle.ix_playdef.specs.Placed.{placed};
ghost use Rattle.ix_sheet.specs.Lines.{by_place};
ghost use Rattle.ix_sheet.specs.Strays.{all_strays, group_strays, reply_number, stray_line, wire_of};

use ix_base::{Bytes, GroupId, NoMemory};
use ix_groupdef::{GroupRecord, Stray};
use ix_lines::StrayLine;
use ix_playdef::{Reply, ReplyKey, number_of, stray_key};
use std::alloc::Global;

fn reply_number(replies: &[Reply], key: &ReplyKey, reply: &Option<Bytes>) -> Option<u32>
    requires order { IsSortedByKey key_of key_cmp replies.now }
    requires few { length replies.now < 2 ^ 32 }
    ensures { result ≡ reply_number replies.now key.now reply.now }
{
    match reply {
        Some(_) => Some(number_of(replies, key) as u32),
        None => None,
    }
}

// The stray that has this place among those of its group.
fn stray_line(replies: &[Reply], group: GroupId, at: usize, stray: &Stray) -> StrayLine
    requires order { IsSortedByKey key_of key_cmp replies.now }
    requires few { length replies.now < 2 ^ 32 }
    ensures { result ≡ stray_line replies.now group.0 at stray.now }
{
    let key = stray_key(group, at, stray.w);
    StrayLine {
        w: stray.w,
        core: stray.core,
        kind: stray.kind,
        reply: reply_number(replies, &key, &stray.reply),
    }
}

// Adds those of a group.
#[tactic(auto, using(crate::proofs::LineLaws::stray_steps))]
fn push_group(
    replies: &[Reply],
    group: GroupId,
    strays: &[Stray],
    lines: &mut Vec<StrayLine>,
) -> Result<(), NoMemory>
    requires order { IsSortedByKey key_of key_cmp replies.now }
    requires few { length replies.now < 2 ^ 32 }
    ensures { OnOk result (lines.new.items ≡ lines.old.items ++ by_place (stray_line replies.now group.0) 0 strays.now) }
{
    for (i, stray) in strays.iter().enumerate() {
        let line = stray_line(replies, group, i, stray);
        lines.push(line)?;
    }
    Ok(())
}

// Adds those of all groups.
#[tactic(auto, using(ix_playdef::specs::Placed::steps))]
fn push_groups(
    replies: &[Reply],
    groups: &[GroupRecord],
    lines: &mut Vec<StrayLine>,
) -> Result<(), NoMemory>
    requires order { IsSortedByKey key_of key_cmp replies.now }
    requires few { length replies.now < 2 ^ 32 }
    requires groups { length groups.now ≤ 512 }
    ensures { OnOk result (lines.new.items ≡ lines.old.items ++ all_strays replies.now groups.now) }
{
    for (i, left) in groups.iter().enumerate() {
        push_group(replies, GroupId(i as u16), left.strays.as_slice(), lines)?;
    }
    Ok(())
}

/// The strays of all groups by rising wire number, each with the number of its reply.
pub fn strays_of(
    alloc: Global,
    replies: &[Reply],
    groups: &[GroupRecord],
) -> Result<Vec<StrayLine>, NoMemory>
    requires order { IsSortedByKey key_of key_cmp replies.now }
    requires few { length replies.now < 2 ^ 32 }
    requires groups { length groups.now ≤ 512 }
    ensures same { IfOk result (λ lines. IsPermutation (all_strays replies.now groups.now) lines.items) }
    ensures rising { IfOk result (λ lines. IsSortedByKey wire_of nat_cmp lines.items) }
{
    let mut lines = Vec::new(alloc);
    push_groups(replies, groups, &mut lines)?;
    lines.sort_by_key(|line| line.w.0)?;
    Ok(lines)
}
