// The command that checks the files of a play.
ghost use Rattle.std.specs.Prelude.{◌≡◌, ◌≢◌, ◌≤◌, IfErr, IfOk, IsErrOf, IsOk, List, Ok, OnOk, Some, ℕ};
ghost use Rattle.std.specs.Io.KnownBytes.{IsAtEnd};
ghost use Rattle.ix_base.specs.declared.role.Kind.TheVariants.{Reading};
ghost use Rattle.ix_base.specs.Host.{Reads, Rose};
ghost use Rattle.ix_base.specs.Role.{IsRead};
ghost use Rattle.ix_top.specs.Check.{AllFilesRead, AreOfPlay, Checks, GivenFiles, IsDecided, IsDecidedOrNoMemory, IsFault, OnlyReads, TellsFiles, status_of};
ghost use Rattle.ix_top.specs.Top.{IsDoneOrNoMemory, IsStop, Refuses, WritesNothing, play_meaning};

use crate::command::PlayFiles;
use crate::inputs::{Inputs, read_inputs, stop};
use crate::reading::load;
use crate::status::Status;
use ix_base::{Host, Role};
use ix_check::Verdict;
use std::alloc::Global;

// What the five files of a check are.
#[derive(Drop)]
struct CheckFiles {
    inputs: Inputs,
    replies: Vec<u8>,
    trace: Vec<u8>,
}

/// Reads the five files, and says whether the trace and the replies are those of a play of the other three. It writes none.
pub fn check<H: Host>(alloc: Global, names: &PlayFiles<'_>, host: &mut H) -> Status
    ensures command { result ≢ Status.Usage }
    ensures no_write { result ≢ Status.WriteFault }
    ensures answers { (f : GivenFiles) → TellsFiles (H.state host.old) f → Checks result f }
    ensures read { IsDecided result → AllFilesRead (H.state host.new) }
    ensures reads { OnlyReads (H.state host.old) (H.state host.new) }
    ensures nothing { WritesNothing (H.state host.old) (H.state host.new) }
    ensures read_fault { result ≡ Status.ReadFault → Rose ((H.state host.old).faults Reading) ((H.state host.new).faults Reading) }
    ensures complete { (f : GivenFiles) → TellsFiles (H.state host.old) f → IsOk (play_meaning f.inputs)
        → ¬ Rose ((H.state host.old).faults Reading) ((H.state host.new).faults Reading) → IsDecidedOrNoMemory result }
    ensures accepts { (f : GivenFiles) → TellsFiles (H.state host.old) f → AreOfPlay f
        → ¬ Rose ((H.state host.old).faults Reading) ((H.state host.new).faults Reading) → IsDoneOrNoMemory result }
{
    match read_files(alloc, host, names) {
        Ok(files) => decide(alloc, &files),
        Err(status) => status,
    }
}

// The inputs, then the trace, then the replies, or the status that stops the reading.
fn read_files<H: Host>(
    alloc: Global,
    host: &mut H,
    names: &PlayFiles<'_>,
) -> Result<CheckFiles, Status>
    ensures end { OnOk result (AllFilesRead (H.state host.new)) }
    ensures ok { IfOk result (λ files. (f : GivenFiles) → TellsFiles (H.state host.old) f
        → (play_meaning f.inputs ≡ Ok files.inputs) × (files.replies.items ≡ f.replies) × (files.trace.items ≡ f.trace)) }
    ensures err { IfErr result (λ e. (f : GivenFiles) → TellsFiles (H.state host.old) f → Refuses e (play_meaning f.inputs)) }
    ensures stops { IfErr result IsStop }
    ensures failed { IsErrOf result Status.ReadFault → Rose ((H.state host.old).faults Reading) ((H.state host.new).faults Reading) }
    ensures reads { OnlyReads (H.state host.old) (H.state host.new) }
{
    let inputs = read_inputs(alloc, host, names.conf, names.script, names.capture)?;
    let trace = read_whole(alloc, host, Role::GivenTrace, names.trace)?;
    let replies = read_whole(alloc, host, Role::GivenReplies, names.replies)?;
    Ok(CheckFiles {
        inputs,
        replies,
        trace,
    })
}

// A file that may have any size.
fn read_whole<H: Host>(
    alloc: Global,
    host: &mut H,
    role: Role,
    name: &str,
) -> Result<Vec<u8>, Status>
    requires { IsRead role }
    ensures state { (bytes : List ℕ) × Reads role bytes (H.state host.old) (H.state host.new) }
    ensures end { OnOk result (IsAtEnd ((H.state host.new).left role)) }
    ensures ok { IfOk result (λ v. (all : List ℕ) → (H.state host.old).left role ≡ Some all → v.items ≡ all) }
    ensures stops { IfErr result IsFault }
    ensures failed { IsErrOf result Status.ReadFault → Rose ((H.state host.old).faults Reading) ((H.state host.new).faults Reading) }
{
    match load(alloc, host, role, name, usize::MAX) {
        Ok(bytes) => Ok(bytes),
        Err(error) => Err(stop(error)),
    }
}

// The verdict on these files, as a status.
fn decide(alloc: Global, files: &CheckFiles) -> Status
    ensures answers { (f : GivenFiles) → play_meaning f.inputs ≡ Ok files.now.inputs → files.now.replies.items ≡ f.replies → files.now.trace.items ≡ f.trace
        → Checks result f }
    ensures decided { IsDecidedOrNoMemory result }
{
    let replies = files.replies.as_slice();
    let trace = files.trace.as_slice();
    match files.inputs.check(alloc, replies, trace) {
        Ok(verdict) => status_of(verdict),
        Err(_) => Status::NoMemory,
    }
}

fn status_of(verdict: Verdict) -> Status
    ensures { result ≡ status_of verdict }
{
    match verdict {
        Verdict::Yes => Status::Done,
        Verdict::No(finding) => Status::Refused(finding),
    }
}
