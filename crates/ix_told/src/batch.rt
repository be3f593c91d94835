// The frames of one cycle.
ghost use Rattle.std.specs.Prelude.{◌<◌, ◌≤◌, All, length};

use ix_base::{CoreId, List};
use ix_groupdef::Taken;

/// Frames that a core steps in one cycle: at least one, each of at most 2,048 bytes.
#[derive(Drop)]
pub struct FrameBatch {
    /// The core.
    pub core: CoreId,
    /// The frames, in wire order.
    pub frames: List<Taken>,
    pub ghost some: { 0 < length frames },
    pub ghost short: { All (λ taken. length taken.frame ≤ 2048) frames },
}
