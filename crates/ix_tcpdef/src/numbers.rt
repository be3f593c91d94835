// Positions and ticks.
ghost use Rattle.std.specs.Prelude.{◌≡◌, ◌+◌, IfOk};
ghost use Rattle.ix_tcpdef.specs.Ticks.{later as later_of};

use ix_base::NoMemory;

/// No position passes this one; where one would, a step answers that memory is gone, as it then is.
pub const LAST_POSITION: u64 = 0x8000_0000_0000_0000;

/// The position that is so many further on.
pub fn further(position: u64, by: u64) -> Result<u64, NoMemory>
    ensures { IfOk result (λ p. p ≡ position + by) }
{
    match position.checked_add(by) {
        Some(p) if p <= LAST_POSITION => Ok(p),
        _ => Err(NoMemory),
    }
}

/// The tick that is so many ticks after now, or the last one.
pub fn later(now: u64, ticks: u32) -> u64
    ensures { result ≡ later_of now ticks }
{
    now.saturating_add(u64::from(ticks))
}
