// The top call.
ghost use Rattle.std.specs.Prelude.{◌≡◌, ◌≢◌, ◌↔◌, IsOk};
ghost use Rattle.ix_base.specs.declared.role.Kind.TheVariants.{Reading, Writing};
ghost use Rattle.ix_base.specs.Host.{Rose};
ghost use Rattle.ix_top.specs.Check.{AllFilesRead, AreOfPlay, Checks, GivenFiles, IsDecided, IsDecidedOrNoMemory, IsRefused, OnlyReads, TellsFiles};
ghost use Rattle.ix_top.specs.Top.{Answers, Tells, Given, AllRead, Played, PlayedFront, WritesNothing, KeepsOthers, play_meaning, IsDoneOrNoMemory};
ghost use Rattle.ix_top.specs.Words.{IsCheck, IsCommand, IsPlay};

use crate::checking::check;
use crate::command::{Command, command_of};
use crate::playing::play;
use crate::status::Status;
use ix_base::Host;
use ix_run::Gate;
use std::alloc::Global;
use std::sync::Wait;
use std::thread::Threads;

/// Does all that the program does. `words` are those after the program's name.
///
/// The inputs are read in the order configuration, capture, script, each with its meaning before the next.
///
/// A play makes both of its files before the first of the two roles that are written is prepared; the trace is begun when the replies are whole.
/// The card and each core of the play make their turns in threads of their own, as far as the gate lets them; the answers of the gate, as the
/// threads' schedule, decide only the free choices of a play.
///
/// A check reads a trace and then a file of replies behind the inputs, and says whether they are those of a play of these inputs, anybody's. It
/// writes nothing.
pub fn ix<R: Threads + Wait + Sync, H: Host, G: Gate + Sync>(
    rt: &R,
    alloc: Global,
    words: &[String],
    host: &mut H,
    gate: &G,
) -> Status
    ensures usage { (result ≡ Status.Usage) ↔ (¬ IsCommand words.now) }
    ensures answers { IsPlay words.now → (g : Given) → Tells (H.state host.old) g → Answers result (play_meaning g) }

    // The whole work was done and written.
    ensures read { result ≡ Status.Done → AllRead (H.state host.new) }
    ensures done { IsPlay words.now → result ≡ Status.Done → (g : Given) → Tells (H.state host.old) g → Played g (H.state host.old) (H.state host.new) }

    // What was written is a front of what the play writes, and the trace was begun only behind the whole replies.
    ensures front { result ≡ Status.WriteFault → (g : Given) → Tells (H.state host.old) g → PlayedFront g (H.state host.old) (H.state host.new) }
    ensures nothing { result ≢ Status.Done → result ≢ Status.WriteFault → WritesNothing (H.state host.old) (H.state host.new) }

    // Whatever comes, the roles that are not a play's stay as they were.
    ensures others { ¬ IsCheck words.now → KeepsOthers (H.state host.old) (H.state host.new) }

    // Without a fault the whole work is done where the inputs can be played.
    ensures complete { IsPlay words.now → (g : Given) → Tells (H.state host.old) g → IsOk (play_meaning g)
        → ¬ Rose ((H.state host.old).faults Reading) ((H.state host.new).faults Reading)
        → ¬ Rose ((H.state host.old).faults Writing) ((H.state host.new).faults Writing) → IsDoneOrNoMemory result }

    // A check accepts the files of a play, and refuses others with the first thing that is wrong. It reads all five, and leaves all else.
    ensures checks { IsCheck words.now → (f : GivenFiles) → TellsFiles (H.state host.old) f → Checks result f }
    ensures read_all { IsCheck words.now → IsDecided result → AllFilesRead (H.state host.new) }
    ensures only_reads { IsCheck words.now → OnlyReads (H.state host.old) (H.state host.new) }
    ensures refused { IsRefused result → IsCheck words.now }

    // Without a fault it decides where the inputs have a meaning; so what a play wrote is accepted.
    ensures decides { IsCheck words.now → (f : GivenFiles) → TellsFiles (H.state host.old) f → IsOk (play_meaning f.inputs)
        → ¬ Rose ((H.state host.old).faults Reading) ((H.state host.new).faults Reading) → IsDecidedOrNoMemory result }
    ensures accepts { IsCheck words.now → (f : GivenFiles) → TellsFiles (H.state host.old) f → AreOfPlay f
        → ¬ Rose ((H.state host.old).faults Reading) ((H.state host.new).faults Reading) → IsDoneOrNoMemory result }

    ensures read_fault { result ≡ Status.ReadFault → Rose ((H.state host.old).faults Reading) ((H.state host.new).faults Reading) }
    ensures write_fault { result ≡ Status.WriteFault → Rose ((H.state host.old).faults Writing) ((H.state host.new).faults Writing) }
{
    match command_of(words) {
        Some(Command::Play(files)) => play(rt, alloc, &files, host, gate),
        Some(Command::Check(files)) => check(alloc, &files, host),
        None => Status::Usage,
    }
}
