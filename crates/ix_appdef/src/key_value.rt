// What each application answers.
ghost use Rattle.std.specs.Prelude.{◌≡◌, ℕ, List as Sequence, [], ◌∷◌, if◌then◌else◌, IfOk, OnOk};
ghost use Rattle.ix_appdef.specs.KeyValue.{answers_to};

use crate::request::request_of;
use crate::store::{Entry, carry_out};
use ix_base::{Bytes, List, NoMemory};
use std::alloc::Global;

/// The answer of an echo: what was told.
pub fn echo_answer(alloc: Global, told: &[u8]) -> Result<Bytes, NoMemory>
    ensures { IfOk result (λ a. a ≡ told.now) }
{
    Bytes::from_slice(alloc, told)
}

/// A stream of lines under way: the store, the bytes since the last line feed, and all answers.
#[derive(Debug, Drop)]
pub struct Session {
    pub store: List<Entry>,
    pub line: Bytes,
    pub answer: Bytes,
}

impl Session {
    ghost use Rattle.ix_appdef.specs.KeyValue.{answers_with};

    /// Takes one more byte. What comes behind it is answered as if it had stood there.
    #[tactic(auto, using(crate::proofs::AnswerLaws::for_bytes))]
    pub fn take(&mut self, alloc: Global, b: u8) -> Result<(), NoMemory>
        ensures { (rest : Sequence ℕ) → OnOk result (answers_with self.new rest ≡ answers_with self.old (b ∷ rest)) }
    {
        if b == b'\n' {
            let request = request_of(alloc, self.line.as_slice())?;
            carry_out(request, &mut self.store, &mut self.answer)?;
            self.line = Bytes::new(alloc);
            return Ok(());
        }
        self.line.push(b)?;
        Ok(())
    }
}

/// The answers of a key-value store to the complete lines of what was told, from an empty store. Each ends with a line feed.
#[tactic(auto, using(crate::proofs::AnswerLaws::for_lines))]
pub fn kv_answer(alloc: Global, told: &[u8]) -> Result<Bytes, NoMemory>
    ensures { IfOk result (λ a. a ≡ answers_to told.now) }
{
    let mut session = Session {
        store: List::new(alloc),
        line: Bytes::new(alloc),
        answer: Bytes::new(alloc),
    };
    for b in told {
        session.take(alloc, *b)?;
    }
    let Session { answer, .. } = session;
    Ok(answer)
}

/// The answer of one that pushes a text: the text, once its connection stands.
pub fn push_answer(alloc: Global, text: &[u8], up: bool) -> Result<Bytes, NoMemory>
    ensures { IfOk result (λ a. a ≡ (if up then text.now else [])) }
{
    if up {
        return Bytes::from_slice(alloc, text);
    }
    Ok(Bytes::new(alloc))
}
