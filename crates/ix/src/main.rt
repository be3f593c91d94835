//! The program: the top call over files.
#![tactic(auto)]

use ix_base::FileHost;
use ix_run::Gate;
use ix_top::{Status, ix, status_text};
use std::env;
use std::process::ExitCode;

/// The exit status where the runtime doesn't give the program's words.
const NO_WORDS: u8 = 10;

// A gate that is open to every turn.
#[derive(Drop)]
struct OpenGate;

impl Gate for OpenGate {
    fn enter(&self, _actor: u32, _turn: u64) -> bool {
        true
    }
}

fn main(rt: HostRuntime) -> ExitCode {
    let Ok(words) = words(&rt) else {
        let _ = rt.eprintln("ix: no words");
        return ExitCode::from(NO_WORDS);
    };
    let mut host = FileHost::new(&rt);
    let status = ix(&rt, rt.alloc(), &words, &mut host, &OpenGate);
    tell(&rt, &status);
    ExitCode::from(status.number())
}

// The words after the program's name.
fn words(rt: &HostRuntime) -> std::io::Result<Vec<String>> {
    let mut words = Vec::new(rt.alloc());
    for word in env::args(rt)?.skip(1) {
        words.push(word)?;
    }
    Ok(words)
}

// Prints the text of a status other than `Done`, where there is memory for it.
fn tell(rt: &HostRuntime, status: &Status) {
    if *status == Status::Done {
        return;
    }
    if let Ok(text) = status_text(rt.alloc(), status)
        && let Ok(line) = std::str::from_utf8(text.as_slice())
    {
        let _ = rt.eprintln(line);
    }
}
