// Two counts of faults, which stand still at their ends.

use crate::{Failed, Role};

/// How many calls failed on roles that are read, and on roles that are written.
#[derive(Drop)]
pub struct Faults {
    pub reading: u64,
    pub writing: u64,
}

impl Faults {
    ghost use Rattle.ix_base.specs.Role.{kind_of};
    ghost use Rattle.ix_base.specs.Faults.{fault_count, Raised};
    ghost use Rattle.std.specs.Prelude.{◌≡◌};

    pub fn new() -> Faults
        ensures { result ≡ record { reading = 0; writing = 0 } }
    {
        Faults {
            reading: 0,
            writing: 0,
        }
    }

    /// Counts a fault of this role.
    pub fn raise(&mut self, role: Role) -> Failed
        ensures { Raised (kind_of role) (fault_count self.old) (fault_count self.new) }
    {
        match role {
            Role::Conf
            | Role::Capture
            | Role::Script
            | Role::GivenTrace
            | Role::GivenReplies
            | Role::Other => {
                self.reading = self.reading.saturating_add(1);
            }
            Role::Replies | Role::Trace | Role::Played => {
                self.writing = self.writing.saturating_add(1);
            }
        }
        Failed
    }
}
