// The lines of the connections of a play.
ghost use Rattle.std.specs.Prelude.{◌≡◌, ◌≤◌, ◌<◌, ◌^◌, ◌++◌, All, Some, IfOk, OnOk, length};
ghost use Rattle.std.specs.List.Sorted.{IsSortedByKey};
ghost use Rattle.ix_playdef.specs.Order.{key_cmp, key_of};
ghost use Rattle.ix_playdef.specs.Placed.{placed};
ghost use Rattle.ix_playdef.specs.Replies.{CanAllBeWritten, FitsGroup, IsWhole};
ghost use Rattle.ix_sheet.specs.Lines.{all_conns, by_place, conn_line, group_conns, present};
ghost use Rattle.ix_sheet.specs.Outcome.{NamesAll, NamesBuffers};

use crate::inputs::inputs_of;
use crate::outputs::{ConnPlace, Source};
use ix_base::{GroupId, NoMemory};
use ix_groupdef::{ConnEnd, GroupRecord};
use ix_lines::ConnLine;
use std::alloc::Global;

// The connection that has this place among those of its group.
#[tactic(auto, using(crate::proofs::LineLaws::for_conn))]
fn conn_line(
    alloc: Global,
    source: &Source<'_>,
    group: GroupId,
    order: usize,
    conn: &ConnEnd,
) -> Result<ConnLine, NoMemory>
    requires order { IsSortedByKey key_of key_cmp source.now.replies.now }
    requires few { length source.now.replies.now < 2 ^ 32 }
    requires place { order < 2 ^ 63 }
    requires whole { IsWhole conn.now }
    requires written { CanAllBeWritten conn.now }
    requires named { NamesBuffers source.now.entries.now conn.now }
    ensures { IfOk result (λ line. Some line ≡ conn_line source.now.entries.now source.now.replies.now group.0 order conn.now) }
{
    let place = ConnPlace {
        group,
        opening: order + 1,
    };
    let inputs = inputs_of(alloc, source, place, conn.ends.as_slice(), &conn.journal)?;
    Ok(ConnLine {
        group,
        remote: conn.flow.remote,
        remote_port: conn.flow.remote_port,
        local_port: conn.flow.local_port,
        iss: conn.iss,
        inputs,
        left: conn.left,
        wrote: conn.wrote,
        taken: conn.taken,
    })
}

// Adds those of a group.
#[tactic(auto, using(crate::proofs::LineLaws::steps))]
fn push_group(
    alloc: Global,
    source: &Source<'_>,
    group: GroupId,
    conns: &[ConnEnd],
    lines: &mut Vec<ConnLine>,
) -> Result<(), NoMemory>
    requires order { IsSortedByKey key_of key_cmp source.now.replies.now }
    requires few { length source.now.replies.now < 2 ^ 32 }
    requires whole { All IsWhole conns.now }
    requires written { All CanAllBeWritten conns.now }
    requires named { All (NamesBuffers source.now.entries.now) conns.now }
    ensures { OnOk result (present lines.new.items ≡ present lines.old.items ++ by_place (conn_line source.now.entries.now source.now.replies.now group.0) 0 conns.now) }
{
    for (i, conn) in conns.iter().enumerate() {
        let line = conn_line(alloc, source, group, i, conn)?;
        lines.push(line)?;
    }
    Ok(())
}

/// The connections of all groups, group by group, each group's in the order of opening.
#[tactic(auto, using(ix_playdef::specs::Placed::steps))]
pub fn conns_of(
    alloc: Global,
    source: &Source<'_>,
    groups: &[GroupRecord],
) -> Result<Vec<ConnLine>, NoMemory>
    requires order { IsSortedByKey key_of key_cmp source.now.replies.now }
    requires few { length source.now.replies.now < 2 ^ 32 }
    requires groups { length groups.now ≤ 512 }
    requires fit { All FitsGroup groups.now }
    requires named { All (NamesAll source.now.entries.now) groups.now }
    ensures { IfOk result (λ lines. present lines.items ≡ all_conns source.now.entries.now source.now.replies.now groups.now) }
{
    let mut lines = Vec::new(alloc);
    for (i, left) in groups.iter().enumerate() {
        push_group(
            alloc,
            source,
            GroupId(i as u16),
            left.conns.as_slice(),
            &mut lines,
        )?;
    }
    Ok(lines)
}
