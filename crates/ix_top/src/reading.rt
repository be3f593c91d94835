// Reads a role in chunks.
ghost use Rattle.std.specs.Prelude.{◌≡◌, ◌≤◌, ◌<◌, ◌++◌, length, vec_len, IsTrue, IfOk, IfErr, IsErrOf, List, ℕ};
ghost use Rattle.std.specs.Io.KnownBytes.{IsAtEnd};
ghost use Rattle.ix_base.specs.Role.{IsRead};
ghost use Rattle.ix_base.specs.Host.{Rose, Reads};
ghost use Rattle.ix_base.specs.declared.role.Kind.TheVariants.{Reading};

use ix_base::{Host, Role};
use std::alloc::{AllocError, Global};

/// Why a role wasn't read to its end.
#[derive(Clone, Copy, Debug, PartialEq, Eq)]
pub enum ReadError {
    Memory,
    Failed,
}

/// How many bytes are asked for at a time.
const CHUNK: usize = 65_536;

/// Prepares a role, and reads it until it ends, or until more than the limit was read.
pub fn load<H: Host>(
    alloc: Global,
    host: &mut H,
    role: Role,
    name: &str,
    limit: usize,
) -> Result<Vec<u8>, ReadError>
    requires { IsRead role }
    ensures bytes { IfOk result (λ v. Reads role v.items (H.state host.old) (H.state host.new)) }
    ensures end { IfOk result (λ v. length v.items ≤ limit → IsAtEnd ((H.state host.new).left role)) }
    ensures err { IfErr result (λ _. (bytes : List ℕ) × Reads role bytes (H.state host.old) (H.state host.new)) }
    ensures failed { IsErrOf result ReadError.Failed → Rose ((H.state host.old).faults Reading) ((H.state host.new).faults Reading) }
{
    match host.attach(role, name) {
        Ok(()) => read_role(alloc, host, role, limit),
        Err(_) => Err(ReadError::Failed),
    }
}

/// Reads a role until it ends, or until more than the limit was read.
pub fn read_role<H: Host>(
    alloc: Global,
    host: &mut H,
    role: Role,
    limit: usize,
) -> Result<Vec<u8>, ReadError>
    requires kind { IsRead role }
    requires attached { IsTrue ((H.state host.old).is_attached role) }

    // The bytes are the next ones, and all of them unless they are more than the limit.
    ensures bytes { IfOk result (λ v. Reads role v.items (H.state host.old) (H.state host.new)) }
    ensures end { IfOk result (λ v. length v.items ≤ limit → IsAtEnd ((H.state host.new).left role)) }

    ensures err { IfErr result (λ _. (bytes : List ℕ) × Reads role bytes (H.state host.old) (H.state host.new)) }
    ensures failed { IsErrOf result ReadError.Failed → Rose ((H.state host.old).faults Reading) ((H.state host.new).faults Reading) }
{
    let mut bytes = Vec::new(alloc);
    let Ok(mut chunk) = zeros(alloc, CHUNK) else {
        return Err(ReadError::Memory);
    };
    while bytes.len() <= limit {
        if read_chunk(host, role, &mut chunk, &mut bytes)? == 0 {
            break;
        }
    }
    Ok(bytes)
}

// A chunk of this length, which a proof doesn't write out.
fn zeros(alloc: Global, len: usize) -> Result<Vec<u8>, AllocError>
    ensures { IfOk result (λ v. vec_len v ≡ len) }
{
    vec![in alloc; 0u8; len]
}

// Adds the next chunk of a role, and says how long it is.
fn read_chunk<H: Host>(
    host: &mut H,
    role: Role,
    chunk: &mut [u8],
    bytes: &mut Vec<u8>,
) -> Result<usize, ReadError>
    requires kind { IsRead role }
    requires attached { IsTrue ((H.state host.old).is_attached role) }
    requires room { 0 < length chunk.old }
    ensures ok { IfOk result (λ n. (more : List ℕ) × (length more ≡ n)
        × (bytes.new.items ≡ bytes.old.items ++ more) × Reads role more (H.state host.old) (H.state host.new)) }
    ensures end { IfOk result (λ n. n ≡ 0 → IsAtEnd ((H.state host.new).left role)) }
    ensures err { IfErr result (λ _. (more : List ℕ) × Reads role more (H.state host.old) (H.state host.new)) }
    ensures failed { IsErrOf result ReadError.Failed → Rose ((H.state host.old).faults Reading) ((H.state host.new).faults Reading) }
{
    match host.read(role, chunk) {
        Ok(count) => {
            if bytes.extend_from_slice(&chunk[..count]).is_err() {
                return Err(ReadError::Memory);
            }
            Ok(count)
        }
        Err(_) => Err(ReadError::Failed),
    }
}
