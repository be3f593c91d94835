// What a line says.
ghost use Rattle.std.specs.Prelude.{◌≡◌, ◌<◌, ◌≤◌, [], ◌∷◌, IfOk};
ghost use Rattle.ix_wire.specs.Text.{words_of};
ghost use Rattle.ix_wire.specs.Command.{IsCommand, command_of, number_named, place_named, places_of, range_named, version_named, width_of, words_after};

use crate::fault::ScriptKind;
use crate::text::number_in;
use ix_base::FLOW_GROUPS;

/// How many classes of flow groups there are: the groups of a class stand this far from one another.
pub const CLASSES: u16 = 128;

/// What a number of a `tag` or a `move` line names: in version 1 a class of four flow groups, in version 2 one flow group.
#[derive(Clone, Copy, Debug, PartialEq, Eq)]
pub enum Version {
    One,
    Two,
}

impl Version {
    /// The number of flow groups that a number names.
    pub fn width(self) -> u16
        ensures { result ≡ width_of self }
    {
        match self {
            Version::One => 4,
            Version::Two => 1,
        }
    }

    /// How many numbers there are.
    pub fn places(self) -> usize
        ensures { result ≡ places_of self }
    {
        match self {
            Version::One => CLASSES as usize,
            Version::Two => FLOW_GROUPS,
        }
    }
}

/// A line that says something. A place is what a number names.
#[derive(Clone, Copy, Debug, PartialEq, Eq)]
pub enum Command {
    Version(Version),
    Frames { from: u32, to: u32 },
    Each { from: u32, to: u32 },
    Time { t: u32 },
    Tag { place: u16 },
    Move { place: u16, to: u32 },
    Settle,
    Add { core: u32 },
    Revoke { core: u32 },
}

/// The first word, and what stands behind the blank after it.
#[tactic(auto, using(crate::proofs::WordLaws::word_steps))]
fn split_word(bytes: &[u8]) -> (&[u8], Option<&[u8]>)
    ensures { words_of bytes.now ≡ result.0.now ∷ words_after result.1 }
{
    for (i, byte) in bytes.iter().enumerate() {
        if *byte == b' ' {
            return (&bytes[..i], Some(&bytes[i + 1..]));
        }
    }
    (bytes, None)
}

fn place_named(version: Version, word: &[u8]) -> Result<u16, ScriptKind>
    ensures place { result ≡ place_named version word.now }
    ensures within { IfOk result (λ place. place < places_of version) }
{
    match number_in(word) {
        Some(place) if (place as usize) < version.places() => Ok(place as u16),
        _ => Err(ScriptKind::Number),
    }
}

fn number_named(word: &[u8]) -> Result<u32, ScriptKind>
    ensures { result ≡ number_named word.now }
{
    number_in(word).ok_or(ScriptKind::Number)
}

fn version_named(word: &[u8]) -> Result<Version, ScriptKind>
    ensures { result ≡ version_named word.now }
{
    let number = number_named(word)?;
    if number == 1 {
        Ok(Version::One)
    } else if number == 2 {
        Ok(Version::Two)
    } else {
        Err(ScriptKind::Number)
    }
}

fn range_named(from: &[u8], to: &[u8]) -> Result<(u32, u32), ScriptKind>
    ensures range { result ≡ range_named from.now to.now }
    ensures order { IfOk result (λ range. range.0 ≤ range.1) }
{
    match (number_in(from), number_in(to)) {
        (Some(from), Some(to)) if from <= to => Ok((from, to)),
        _ => Err(ScriptKind::Number),
    }
}

#[tactic(auto, unfolding(crate::specs::Command::command_of))]
fn of_one(begun: bool, version: Version, verb: &[u8]) -> Result<Command, ScriptKind>
    ensures command { result ≡ command_of begun version (verb.now ∷ []) }
    ensures range { IfOk result (IsCommand version) }
{
    if verb == b"settle".as_slice() {
        Ok(Command::Settle)
    } else {
        Err(ScriptKind::Word)
    }
}

#[tactic(auto, unfolding(crate::specs::Command::command_of))]
fn of_two(begun: bool, version: Version, verb: &[u8], a: &[u8]) -> Result<Command, ScriptKind>
    ensures command { result ≡ command_of begun version (verb.now ∷ a.now ∷ []) }
    ensures range { IfOk result (IsCommand version) }
{
    if verb == b"time".as_slice() {
        let t = number_named(a)?;
        Ok(Command::Time { t })
    } else if verb == b"tag".as_slice() {
        let place = place_named(version, a)?;
        Ok(Command::Tag { place })
    } else if verb == b"add".as_slice() {
        let core = number_named(a)?;
        Ok(Command::Add { core })
    } else if verb == b"revoke".as_slice() {
        let core = number_named(a)?;
        Ok(Command::Revoke { core })
    } else if verb == b"version".as_slice() && !begun {
        let version = version_named(a)?;
        Ok(Command::Version(version))
    } else {
        Err(ScriptKind::Word)
    }
}

#[tactic(auto, unfolding(crate::specs::Command::command_of))]
fn of_three(
    begun: bool,
    version: Version,
    verb: &[u8],
    a: &[u8],
    b: &[u8],
) -> Result<Command, ScriptKind>
    ensures command { result ≡ command_of begun version (verb.now ∷ a.now ∷ b.now ∷ []) }
    ensures range { IfOk result (IsCommand version) }
{
    if verb == b"frames".as_slice() {
        let (from, to) = range_named(a, b)?;
        Ok(Command::Frames { from, to })
    } else if verb == b"each".as_slice() {
        let (from, to) = range_named(a, b)?;
        Ok(Command::Each { from, to })
    } else if verb == b"move".as_slice() {
        let place = place_named(version, a)?;
        let to = number_named(b)?;
        Ok(Command::Move { place, to })
    } else {
        Err(ScriptKind::Word)
    }
}

/// The command of a line in a script of this version; `begun` says whether a line before it says something, so that none of `version` may
/// come any more.
pub fn command_of(begun: bool, version: Version, line: &[u8]) -> Result<Command, ScriptKind>
    ensures command { result ≡ command_of begun version (words_of line.now) }
    ensures range { IfOk result (IsCommand version) }
{
    let (verb, rest) = split_word(line);
    let Some(rest) = rest else {
        return of_one(begun, version, verb);
    };
    let (a, rest) = split_word(rest);
    let Some(rest) = rest else {
        return of_two(begun, version, verb, a);
    };
    let (b, rest) = split_word(rest);
    match rest {
        Some(_) => Err(ScriptKind::Word),
        None => of_three(begun, version, verb, a, b),
    }
}
