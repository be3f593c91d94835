// A host: the bytes that a program reads and writes, by role.
ghost use Rattle.std.specs.Prelude.{◌≡◌, ◌<◌, ◌≤◌, length, IsTrue, IfOk, OnOk, OnErr};
ghost use Rattle.std.specs.Io.KnownBytes.{IsAtEnd};
ghost use Rattle.ix_base.specs.declared.role.Kind.TheVariants.{Reading, Writing};
ghost use Rattle.ix_base.specs.Role.{kind_of, IsRead, IsWritten};
ghost use Rattle.ix_base.specs.Host.{State, Rose, Attaches, Reads, Writes, front};

use crate::{Failed, Role};

/// Files by their roles. Contracts see one state: the bytes left of each role that is read and the bytes written of each role that is
/// written, both where the host tells them, which roles are attached, and two counts of faults, which never fall.
///
/// A call fails only where the count of its role's kind rose in that call; a count that stands at its type's end is taken as risen. A call
/// that is Ok leaves both counts as they were. A call that fails moves no byte, and no call touches another role's bytes.
pub trait Host {
    ghost state: { Self → State };

    /// Prepares a role, which no call undoes.
    fn attach(&mut self, role: Role, name: &str) -> Result<(), Failed>
        ensures state { Attaches role (state self.old) (state self.new) }
        ensures attached { OnOk result (IsTrue ((state self.new).is_attached role)) }
        ensures uncounted { OnOk result ((state self.new).faults ≡ (state self.old).faults) }
        ensures failed { OnErr result (Rose ((state self.old).faults (kind_of role)) ((state self.new).faults (kind_of role))) };

    /// Reads the next bytes of a role, none only at the end.
    fn read(&mut self, role: Role, buf: &mut [u8]) -> Result<usize, Failed>
        requires kind { IsRead role }
        requires attached { IsTrue ((state self.old).is_attached role) }
        requires room { 0 < length buf.old }
        ensures bound { IfOk result (λ n. n ≤ length buf.new) }
        ensures state { Reads role (front result buf.new) (state self.old) (state self.new) }
        ensures uncounted { OnOk result ((state self.new).faults ≡ (state self.old).faults) }
        ensures end { IfOk result (λ n. n ≡ 0 → IsAtEnd ((state self.new).left role)) }
        ensures failed { OnErr result (Rose ((state self.old).faults Reading) ((state self.new).faults Reading)) };

    /// Appends the first of the bytes to a role, one at least.
    fn write(&mut self, role: Role, bytes: &[u8]) -> Result<usize, Failed>
        requires kind { IsWritten role }
        requires attached { IsTrue ((state self.old).is_attached role) }
        requires some { 0 < length bytes.now }
        ensures bound { IfOk result (λ n. (0 < n) × (n ≤ length bytes.now)) }
        ensures state { Writes role (front result bytes.now) (state self.old) (state self.new) }
        ensures uncounted { OnOk result ((state self.new).faults ≡ (state self.old).faults) }
        ensures failed { OnErr result (Rose ((state self.old).faults Writing) ((state self.new).faults Writing)) };
}
