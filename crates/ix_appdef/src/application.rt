// An application by its answer.
ghost use Rattle.std.specs.Prelude.{◌≡◌, IfOk};

use crate::key_value::{echo_answer, kv_answer, push_answer};
use ix_base::{Bytes, NoMemory};
use std::alloc::Global;

/// An application.
#[derive(Debug, Drop)]
pub enum Application {
    /// It answers the bytes that it is told.
    Echo,
    /// A key-value store of each connection, by lines.
    Kv,
    /// It writes a text to each peer that it connects to, and answers nothing.
    Push { text: Bytes },
}

impl Application {
    ghost use Rattle.ix_appdef.specs.Answers.{answer_of};

    /// All that the application answers on a connection that was told these bytes, and told to be up or not.
    pub fn answer(&self, alloc: Global, up: bool, told: &[u8]) -> Result<Bytes, NoMemory>
        ensures { IfOk result (λ a. a ≡ answer_of self.now up told.now) }
    {
        match self {
            Application::Echo => echo_answer(alloc, told),
            Application::Kv => kv_answer(alloc, told),
            Application::Push { text } => push_answer(alloc, text.as_slice(), up),
        }
    }
}
