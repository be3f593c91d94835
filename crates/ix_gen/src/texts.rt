// The configuration and the script of a generated play.
ghost use Rattle.std.specs.Prelude.{◌≡◌, ◌≤◌, ◌<◌, ◌+◌, ◌++◌, IfOk, OnOk, string_bytes};
ghost use Rattle.ix_gen.specs.Texts.{class_behind, conf_text, move_lines, round_lines, script_text};

use ix_base::{Bytes, NoMemory};
use std::alloc::{AllocError, Global};
use std::fmt::Write;

/// The configuration, the same for each number.
#[tactic(auto, unfolding(crate::specs::Texts::conf_text))]
pub fn conf_text(alloc: Global) -> Result<Bytes, NoMemory>
    ensures { IfOk result (λ text. text ≡ conf_text) }
{
    Bytes::from_slice(
        alloc,
        b"[local]\nmac = \"02:00:00:00:00:01\"\nip = \"161.142.100.80\"\nport = 1766\napp = \"echo\"\n\n[core]\ncores = 4\nbuffers = 4096\n",
    )
}

/// A round of one frame of each client, and its settle.
#[tactic(auto, unfolding(crate::specs::Texts::round_lines))]
fn push_round(out: &mut String, conns: u16, round: u8) -> Result<(), AllocError>
    requires { 1 ≤ conns }
    ensures { OnOk result (string_bytes out.new ≡ string_bytes out.old ++ round_lines conns round) }
{
    let from = round as u32 * conns as u32;
    let to = from + conns as u32 - 1;
    write!(out, "frames {from} {to}\nsettle\n")
}

/// The class that is moved behind a round of data.
#[tactic(auto, unfolding(crate::specs::Texts::class_behind))]
fn class_behind(number: u32, round: u8) -> u8
    ensures is { result ≡ class_behind number round }
    ensures below { result < 128 }
{
    ((16 * round as u64 + number as u64) % 128) as u8
}

/// A class goes to the next of the four cores.
#[tactic(auto, unfolding(crate::specs::Texts::move_lines))]
fn push_move(out: &mut String, class: u8) -> Result<(), AllocError>
    requires { class < 128 }
    ensures { OnOk result (string_bytes out.new ≡ string_bytes out.old ++ move_lines class) }
{
    let core = (class + 1) % 4;
    write!(out, "tag {class}\nmove {class} {core}\n")
}

/// A round of data, and the move behind it.
fn push_data_round(out: &mut String, number: u32, conns: u16, round: u8) -> Result<(), AllocError>
    requires conns { 1 ≤ conns }
    requires round { round < 4 }
    ensures { OnOk result (string_bytes out.new ≡ string_bytes out.old ++ (round_lines conns (round + 2) ++ move_lines (class_behind number round))) }
{
    push_round(out, conns, round + 2)?;
    push_move(out, class_behind(number, round))
}

/// The script: each round, and behind each round of data a move.
#[tactic(auto, unfolding(crate::specs::Texts::script_text))]
pub fn script_text(alloc: Global, number: u32, conns: u16) -> Result<Bytes, NoMemory>
    requires { 1 ≤ conns }
    ensures { IfOk result (λ text. text ≡ script_text number conns) }
{
    let mut out = String::new(alloc);
    push_round(&mut out, conns, 0)?;
    push_round(&mut out, conns, 1)?;
    push_data_round(&mut out, number, conns, 0)?;
    push_data_round(&mut out, number, conns, 1)?;
    push_data_round(&mut out, number, conns, 2)?;
    push_data_round(&mut out, number, conns, 3)?;
    push_round(&mut out, conns, 6)?;
    Ok(Bytes::from_vec(out.into_bytes()))
}
