// An application.

use crate::event::AppEvent;
use crate::out::Out;
use ix_base::NoMemory;
use std::alloc::Global;

/// An application: what it keeps of each connection, and what it does with what it is told.
///
/// It means its answer, a function of whether its connection was told to be up and of the bytes that were told, and whether its record of a
/// connection stands for these two. One that is ruled answers exactly so, whatever the parts in which the bytes came. It hands the buffer
/// of each told part on at once, exactly once, and no other buffer: it sends all parts whole, or releases them all.
pub trait App {
    ghost use Rattle.std.specs.Prelude.{◌≡◌, ℕ, Bool, false, List, [], IfOk, OnOk};
    ghost use Rattle.ix_appdef.specs.Answers.{Grows};
    ghost use Rattle.ix_app.specs.Told.{up_after, told_after};
    ghost use Rattle.ix_app.specs.Handing.{Answered};

    /// What it keeps of a connection.
    type Conn: Drop;

    /// Whether it is ruled.
    ghost ruled: { Self → Type 0 };

    /// All that it answers on a connection.
    ghost answer: { Self → Bool → List ℕ → List ℕ };

    /// Whether it sends the told parts on whole; else it releases them.
    ghost forwards: { Self → Bool };

    /// `stands app conn up told`: this is kept of a connection that was told so, and told these bytes.
    ghost stands: { Self → Self.Conn → Bool → List ℕ → Type 0 };

    /// What it keeps of a new connection.
    fn begin(&self, alloc: Global) -> Result<Self::Conn, NoMemory>
        ensures { ruled self.now → IfOk result (λ conn. stands self.now conn false []) };

    /// Takes an event, and hands on what it writes, what it is done with, and its wish to close. After want of memory what it does is left
    /// open.
    fn event(
        &self,
        alloc: Global,
        conn: &mut Self::Conn,
        event: AppEvent,
        out: &mut Out,
    ) -> Result<(), NoMemory>
        ensures stands { (up : Bool) (told : List ℕ) → ruled self.now → stands self.now conn.old up told
            → OnOk result (stands self.now conn.new (up_after event up) (told_after event told)) }
        ensures answered { (up : Bool) (told : List ℕ) → ruled self.now → stands self.now conn.old up told
            → OnOk result (Answered (forwards self.now) event (answer self.now up told) (answer self.now (up_after event up) (told_after event told)) out.old out.new) };

    /// What is told only adds to the answer.
    ghost grows: { (app : Self) → ruled app → Grows (answer app) };

    /// Nothing is answered before anything is told.
    ghost first: { (app : Self) → ruled app → answer app false [] ≡ [] };
}
