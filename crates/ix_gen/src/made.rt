// The three files of a generated play.
ghost use Rattle.std.specs.Prelude.{◌≡◌, ◌≤◌, ◌*◌, IfOk, Ok};
ghost use Rattle.ix_pcap.specs.Written.{capture_bytes, ReadsBack};
ghost use Rattle.ix_gen.specs.Foreign.{FramesAreForeign};
ghost use Rattle.ix_gen.specs.Rounds.{frames_of};
ghost use Rattle.ix_conf.specs.Settings.{conf_of};
ghost use Rattle.ix_script.specs.Script.{script_of};
ghost use Rattle.ix_gen.specs.Settings.{ConfIsRead, settings_made};
ghost use Rattle.ix_gen.specs.Wire.{ScriptIsRead, none_own, wire_made};
ghost use Rattle.ix_gen.specs.Texts.{conf_text, script_text};

use crate::rounds::recorded;
use crate::texts::{conf_text, script_text};
use ix_base::{Bytes, NoMemory};
use std::alloc::Global;

/// The files that a play reads.
#[derive(Debug, Drop)]
pub struct Made {
    pub conf: Bytes,
    pub capture: Bytes,
    pub script: Bytes,
}

/// Makes the configuration, the capture and the script of a play from a number: so many clients, at most 512, each open a connection to
/// an application that echoes, send four pieces of drawn lengths, and acknowledge what comes back, while flow groups move among four
/// cores.
pub fn generate(alloc: Global, number: u32, conns: u16) -> Result<Made, NoMemory>
    requires { (1 ≤ conns) × (conns ≤ 512) }
    ensures conf { IfOk result (λ made. made.conf ≡ conf_text) }
    ensures capture { IfOk result (λ made. made.capture ≡ capture_bytes (frames_of number conns)) }
    ensures script { IfOk result (λ made. made.script ≡ script_text number conns) }

    // The configuration is read, with these values.
    ensures conf_read { IfOk result (λ made. conf_of made.conf ≡ Ok settings_made) }

    // The script is read, over a capture of as many records of which none is the local side's own, and gives this wire list.
    ensures script_read { IfOk result (λ made. script_of settings_made (none_own (7 * conns)) made.script ≡ Ok (wire_made number conns)) }

    // The capture reads as exactly these frames.
    ensures frames_read { IfOk result (λ made. ReadsBack (frames_of number conns) made.capture) }
{
    conf_is_read();
    script_is_read();
    let conf = conf_text(alloc)?;
    let script = script_text(alloc, number, conns)?;
    let capture = recorded(alloc, number, conns)?.written(alloc)?;
    Ok(Made {
        conf,
        capture,
        script,
    })
}

/// Does nothing: its contract is the law that the configuration is read.
#[tactic(auto, using(crate::proofs::ConfLaws::conf_read))]
pub fn conf_is_read()
    ensures { ConfIsRead }
{}

/// Does nothing: its contract is the law that each number's script is read.
#[tactic(auto, using(crate::proofs::ScriptLaws::script_read))]
pub fn script_is_read()
    ensures { ScriptIsRead }
{}

/// Does nothing: its contract is the law that no frame of a generated play is the server's own, so that each is played.
#[tactic(auto, using(crate::proofs::ForeignLaws::frames_foreign))]
pub fn frames_are_foreign()
    ensures { FramesAreForeign }
{}
