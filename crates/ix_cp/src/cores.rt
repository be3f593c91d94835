// The cores of a play, and which of them are live.

/// Which cores take flow groups. Core i is live where `live[i]` is true; no core from `count` on is.
#[derive(Clone, Copy, Debug, PartialEq, Eq)]
pub struct Cores {
    /// For each of the eight numbers of cores whether the core is live.
    pub live: [bool; 8],
    /// The number of cores, from 1 to 8.
    pub count: u8,
}
