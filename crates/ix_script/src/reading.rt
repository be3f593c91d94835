// A script under a configuration.
ghost use Rattle.std.specs.Prelude.{IfOk};
ghost use Rattle.ix_conf.specs.Settings.{settings_of};
ghost use Rattle.ix_wire.specs.Entries.{IsWire};
ghost use Rattle.ix_wire.specs.Kept.{KeepsRules};
ghost use Rattle.ix_wire.specs.Script.{Gives};
ghost use Rattle.ix_wire.specs.Text.{lines_of};
ghost use Rattle.ix_script.specs.Script.{script_of, terms_under};

use ix_conf::Conf;
use ix_wire::{Entry, ScriptFault, read_wire};
use std::alloc::Global;

/// Reads the bytes of a script for a play under a configuration, over a capture, of which `own` says for each record whether it is the
/// local side's own. Answers the whole wire list, or the first faulty line with the first kind, in the order of `ScriptKind`, that
/// applies to it; a tag that has no move is told last, at the line of the first such one.
///
/// After any number of lines each entry names a record that is not the local side's own, a flow group and a core that are there, the tags
/// and moves of each flow group alternate, each move goes to another core, times never fall, the settles stand close enough, and in a
/// script of version 1 the four flow groups of a class are on one core. In the whole list no group is left tagged, and the last entry is
/// a settle.
pub fn read_script(
    alloc: Global,
    bytes: &[u8],
    conf: &Conf,
    own: &[bool],
) -> Result<Vec<Entry>, ScriptFault>
    ensures wire { Gives (λ entries. entries.items) result (script_of (settings_of conf.now) own.now bytes.now) }
    ensures entries { IfOk result (λ entries. IsWire (terms_under conf.now own.now) entries.items) }
    ensures kept { KeepsRules 65536 (terms_under conf.now own.now) (lines_of bytes.now) }
{
    read_wire(alloc, bytes, conf.pace, conf.cores, conf.live, own)
}
