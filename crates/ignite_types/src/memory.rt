//! Want of memory.

ghost use Rattle.ignite_types.specs.declared.memory.NoMemory.{NoMemory};

use std::alloc::{AllocError, AllocFailed};
use thiserror::Error;

/// Want of memory: the one answer that a call may give at any time.
#[derive(Clone, Copy, Debug, PartialEq, Eq, Error)]
#[error("no memory is left")]
pub struct NoMemory;

/// What a call answers that takes memory and has no other cause to fail.
pub type Mem<T> = Result<T, NoMemory>;

impl From<AllocError> for NoMemory {
    fn from(_: AllocError) -> NoMemory {
        NoMemory
    }
}

impl<T: Drop> From<AllocFailed<T>> for NoMemory {
    fn from(_: AllocFailed<T>) -> NoMemory {
        NoMemory
    }
}
