//! The two plainest answers: there is no memory, or too few bytes.

use std::alloc::{AllocError, AllocFailed};
use thiserror::Error;

/// Memory ran out. The arguments and the object are as before, but for reserved room.
#[derive(Clone, Copy, Debug, PartialEq, Eq, Error)]
#[error("no memory")]
pub struct NoMemory;

/// Fewer bytes are left than were asked for, and nothing was read.
#[derive(Clone, Copy, Debug, PartialEq, Eq, Error)]
#[error("too few bytes")]
pub struct Short;

impl From<AllocError> for NoMemory {
    fn from(_e: AllocError) -> NoMemory {
        NoMemory
    }
}

impl<T: Drop> From<AllocFailed<T>> for NoMemory {
    fn from(_e: AllocFailed<T>) -> NoMemory {
        NoMemory
    }
}
