// A whole script.
ghost use Rattle.std.specs.Prelude.{◌≡◌, ◌<◌, ◌≤◌, ◌-◌, ◌^◌, IfOk};
ghost use Rattle.ix_wire.specs.Entries.{IsWire, terms_of};
ghost use Rattle.ix_wire.specs.Kept.{KeepsRules, ScriptsKeepRules};
ghost use Rattle.ix_wire.specs.Script.{Gives, finish, lines_run, opening, wire_of};
ghost use Rattle.ix_wire.specs.Text.{lines_of};

use crate::command::Version;
use crate::entry::Entry;
use crate::fault::{Refused, ScriptFault, ScriptKind};
use crate::progress::Progress;
use crate::records::Records;
use crate::table::Table;
use crate::text::split_line;
use crate::wire::Wire;
use ix_base::NoMemory;
use ix_cp::plans_go_elsewhere;
use std::alloc::Global;

/// The most lines of a script.
const MAX_LINES: u32 = 65_536;

/// Reads the bytes of a script for a play on so many cores, the first `live` of them live, over a capture, of which `own` says for each
/// record whether it is the local side's own. A settle is added after the `pace`-th frame since the last one, or for no number of frames
/// where it is 0. Answers the whole wire list, or the first faulty line with the first kind, in the order of `ScriptKind`, that applies to
/// it; a tag that has no move is told last, at the line of the first such one.
///
/// After any number of lines each entry names a record that is not the local side's own, a flow group and a core that are there, the tags
/// and moves of each flow group alternate, each move goes to another core, times never fall, the settles stand close enough, and in a
/// script of version 1 the four flow groups of a class are on one core. In the whole list no group is left tagged, and the last entry is
/// a settle.
#[tactic(auto, unfolding(crate::specs::Script::wire_of))]
pub fn read_wire(
    alloc: Global,
    bytes: &[u8],
    pace: u32,
    cores: u8,
    live: u8,
    own: &[bool],
) -> Result<Vec<Entry>, ScriptFault>
    requires cores { cores ≤ 8 }
    requires live { (1 ≤ live) × (live ≤ cores) }
    ensures wire { Gives (λ entries. entries.items) result (wire_of pace cores live own.now bytes.now) }
    ensures entries { IfOk result (λ entries. IsWire (terms_of pace cores live own.now) entries.items) }
    ensures kept { KeepsRules 65536 (terms_of pace cores live own.now) (lines_of bytes.now) }
{
    scripts_keep_rules();
    plans_go_elsewhere();
    let Ok(records) = Records::new(alloc, own) else {
        return Err(ScriptFault::NoMemory);
    };
    let Ok(progress) = begin(alloc, pace, cores, live) else {
        return Err(ScriptFault::NoMemory);
    };
    match read_lines(alloc, &records, MAX_LINES, progress, bytes) {
        Ok(progress) => finish(progress),
        Err(fault) => Err(fault),
    }
}

/// Does nothing: its contract is the law of the lines. What a script has come to after any number of lines keeps the rules, whatever the
/// limit of its lines up to 65,536, so that a reader that is given line after line may rest on them.
pub fn scripts_keep_rules()
    ensures { ScriptsKeepRules }
{
    plans_go_elsewhere();
}

// What there is before the first line.
#[tactic(auto, unfolding(crate::specs::Script::opening))]
fn begin(alloc: Global, pace: u32, cores: u8, live: u8) -> Result<Progress, NoMemory>
    requires cores { cores ≤ 8 }
    requires live { (1 ≤ live) × (live ≤ cores) }
    ensures { IfOk result (λ p. p ≡ opening pace cores live) }
{
    Ok(Progress {
        wire: Wire::new(alloc, pace),
        table: Table::new(alloc, cores, live)?,
        clock: 0,
        version: Version::One,
        begun: false,
    })
}

// Reads line after line, of which there may be so many.
fn read_lines(
    alloc: Global,
    records: &Records<'_>,
    limit: u32,
    progress: Progress,
    bytes: &[u8],
) -> Result<Progress, ScriptFault>
    requires { limit < 2 ^ 32 - 1 }
    ensures { Gives (λ p. p) result (lines_run limit records.now 0 progress (lines_of bytes.now)) }
{
    let mut progress = progress;
    let mut rest = bytes;
    let mut number: u32 = 0;
    while !rest.is_empty() {
        let (line, after) = split_line(rest);
        if number == limit {
            return Err(ScriptFault::At {
                line: number + 1,
                kind: ScriptKind::TooMany,
            });
        }
        number += 1;
        match progress.line(alloc, records, number, line) {
            Ok(()) => rest = after,
            Err(Refused::Kind(kind)) => return Err(ScriptFault::At { line: number, kind }),
            Err(Refused::NoMemory) => return Err(ScriptFault::NoMemory),
        }
    }
    Ok(progress)
}

// The entries, where no tag is left without its move.
#[tactic(auto, unfolding(crate::specs::Script::finish))]
fn finish(progress: Progress) -> Result<Vec<Entry>, ScriptFault>
    ensures { Gives (λ entries. entries.items) result (finish progress) }
{
    if let Some(line) = progress.table.earliest() {
        return Err(ScriptFault::At {
            line,
            kind: ScriptKind::LeftTagged,
        });
    }
    let Progress { mut wire, .. } = progress;
    match wire.settle() {
        Ok(()) => Ok(wire.into_entries()),
        Err(_) => Err(ScriptFault::NoMemory),
    }
}
