// Want of memory, with and without what was given.

use std::alloc::{AllocError, AllocFailed};

/// Memory ran out.
#[derive(Clone, Copy, Debug, PartialEq, Eq)]
pub struct NoMemory;

/// Memory ran out, and what was given comes back.
#[derive(Debug, Drop)]
pub struct Back<T> {
    pub item: T,
}

impl From<AllocError> for NoMemory {
    fn from(_: AllocError) -> Self {
        NoMemory
    }
}

impl<T: Drop> From<AllocFailed<T>> for NoMemory {
    fn from(_: AllocFailed<T>) -> Self {
        NoMemory
    }
}

impl<T: Drop> From<Back<T>> for NoMemory {
    fn from(_: Back<T>) -> Self {
        NoMemory
    }
}
