// What may be wrong with a script.
ghost use Rattle.std.specs.Prelude.{◌≡◌};
ghost use Rattle.ix_wire.specs.Kind.{kind_text};

use std::fmt;
use thiserror::Error;

/// Why a line is refused, in the order in which the causes are tested.
#[derive(Clone, Copy, Debug, PartialEq, Eq)]
pub enum ScriptKind {
    /// The line, or what it gives, is beyond a limit.
    TooMany,
    /// The line has more than 128 bytes.
    TooLong,
    /// The line has an unknown word, a byte that may not stand there, or another number of words.
    Word,
    /// A number is malformed or beyond its range.
    Number,
    /// The capture has no such record.
    NoRecord,
    /// The time lies before the last one.
    Back,
    /// There is no such core, or it is not live.
    NoCore,
    /// The core to be added is live.
    Live,
    /// The core to be revoked is the only live one.
    LastCore,
    /// A flow group is tagged that may not be.
    AlreadyTagged,
    /// A flow group is not tagged that has to be.
    NotTagged,
    /// The flow group is on that core.
    SameCore,
    /// A tag has no move.
    LeftTagged,
    /// There is no such frame yet.
    NotSent,
}

impl ScriptKind {
    /// The kind as it is written, as `left-tagged`.
    pub fn text(&self) -> &'static str
        ensures { result.now ≡ kind_text self.now }
    {
        match self {
            ScriptKind::TooMany => "too-many",
            ScriptKind::TooLong => "too-long",
            ScriptKind::Word => "word",
            ScriptKind::Number => "number",
            ScriptKind::NoRecord => "no-record",
            ScriptKind::Back => "back",
            ScriptKind::NoCore => "no-core",
            ScriptKind::Live => "live",
            ScriptKind::LastCore => "last-core",
            ScriptKind::AlreadyTagged => "already-tagged",
            ScriptKind::NotTagged => "not-tagged",
            ScriptKind::SameCore => "same-core",
            ScriptKind::LeftTagged => "left-tagged",
            ScriptKind::NotSent => "not-sent",
        }
    }
}

impl fmt::Display for ScriptKind {
    fn fmt<W: fmt::Write>(&self, f: &mut fmt::Formatter<W>) -> fmt::Result {
        f.write_str(self.text())
    }
}

/// The first thing that is wrong with a script, or that memory ran out.
#[derive(Clone, Copy, Debug, PartialEq, Eq, Error)]
pub enum ScriptFault {
    /// A line is refused; lines are counted from 1.
    #[error("line {line} of the script: {kind}")]
    At { line: u32, kind: ScriptKind },
    /// Memory ran out.
    #[error("out of memory")]
    NoMemory,
}

/// Why a line was not carried out.
#[derive(Clone, Copy, Debug, PartialEq, Eq)]
pub enum Refused {
    /// The line has a fault of this kind.
    Kind(ScriptKind),
    /// Memory ran out.
    NoMemory,
}
