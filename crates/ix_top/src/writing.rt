// Writes bytes to a role until all are written.
ghost use Rattle.std.specs.Prelude.{◌≡◌, ◌≤◌, ◌<◌, ◌++◌, length, take, IsTrue, IfOk, OnOk, OnErr, List, ℕ};
ghost use Rattle.ix_base.specs.Role.{IsWritten};
ghost use Rattle.ix_base.specs.Host.{Rose, Writes};
ghost use Rattle.ix_base.specs.declared.role.Kind.TheVariants.{Writing};

use ix_base::{Failed, Host, Role};

/// Prepares a role, and writes all of the bytes, or a front of them where the host fails.
pub fn store<H: Host>(host: &mut H, role: Role, name: &str, bytes: &[u8]) -> Result<(), Failed>
    requires { IsWritten role }
    ensures ok { OnOk result (Writes role bytes.now (H.state host.old) (H.state host.new)) }
    ensures err { OnErr result ((n : ℕ) × Writes role (take n bytes.now) (H.state host.old) (H.state host.new)) }
    ensures failed { OnErr result (Rose ((H.state host.old).faults Writing) ((H.state host.new).faults Writing)) }
{
    match host.attach(role, name) {
        Ok(()) => write_role(host, role, bytes),
        Err(_) => Err(Failed),
    }
}

/// Writes all of the bytes, or a front of them where the host fails.
pub fn write_role<H: Host>(host: &mut H, role: Role, bytes: &[u8]) -> Result<(), Failed>
    requires kind { IsWritten role }
    requires attached { IsTrue ((H.state host.old).is_attached role) }
    ensures ok { OnOk result (Writes role bytes.now (H.state host.old) (H.state host.new)) }
    ensures err { OnErr result ((n : ℕ) × Writes role (take n bytes.now) (H.state host.old) (H.state host.new)) }
    ensures failed { OnErr result (Rose ((H.state host.old).faults Writing) ((H.state host.new).faults Writing)) }
{
    let mut done = 0;
    while done < bytes.len() {
        done += host.write(role, &bytes[done..])?;
    }
    Ok(())
}
