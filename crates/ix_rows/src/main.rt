//! Plays that were worked out outside this program, and wrong traces of them: of each, what the checker finds (docs/CHECK.md).
//!
//! The cases stand on the standard input, one a line:
//!
//! - the name of a play, whose files lie in a folder of that name;
//! - where another file of replies is meant than that of the play, a `/` and that file's name;
//! - where the trace is changed, `: ` and the changes, with `; ` between two of them: a text and what is put in the place of its first
//!   occurrence, with ` => ` between them and `~` for each line feed.
//!
//! A line that begins with `#` is a comment.
#![tactic(auto)]

mod answer;
mod case;
mod files;

use answer::{Fault, verdict_of};
use case::Case;
use ix_check::{Finding, Verdict};
use std::io;

fn main(rt: HostRuntime) -> io::Result<()> {
    for line in rt.lines(rt.alloc()) {
        let line = line?;
        tell(&rt, line.as_str())?;
    }
    Ok(())
}

// Prints a line, behind what is found where it is a case.
fn tell(rt: &HostRuntime, line: &str) -> io::Result<()> {
    if line.starts_with("#") {
        return println!(rt; "{line}");
    }
    match verdict_of(rt, &Case::of(line)) {
        Ok(Verdict::Yes) => println!(rt; "fits | {line}"),
        Ok(Verdict::No(Finding::Text { line: bad })) => println!(rt; "text {bad} | {line}"),
        Ok(Verdict::No(Finding::Point { number })) => println!(rt; "point {number} | {line}"),
        Err(fault) => println!(rt; "{} | {line}", unread(fault)),
    }
}

fn unread(fault: Fault) -> &'static str {
    match fault {
        Fault::NoMemory => "no memory",
        Fault::File => "no file",
        Fault::Conf => "no configuration",
        Fault::Capture => "no capture",
        Fault::Script => "no script",
        Fault::Trace => "no text",
        Fault::Edit => "no such text",
    }
}
