//! What an exact copy is, and those of lists and options.

ghost use Rattle.std.specs.Prelude.{◌≡◌, IfOk};

use ignite_types::{List, Mem};
use std::alloc::Global;

/// A value that can be copied exactly where there is memory for it.
pub trait Duplicate: Drop {
    /// A copy that equals this value.
    fn copy(&self, alloc: Global) -> Mem<Self>
        ensures { IfOk result (λ copy. copy ≡ self.now) };
}

impl<T: Duplicate> Duplicate for List<T> {
    fn copy(&self, alloc: Global) -> Mem<List<T>> {
        let mut copy = List::with_capacity(alloc, self.len())?;
        for item in self.as_slice() {
            copy.push(item.copy(alloc)?)?;
        }
        Ok(copy)
    }
}

impl<T: Duplicate> Duplicate for Option<T> {
    fn copy(&self, alloc: Global) -> Mem<Option<T>> {
        match self {
            Some(value) => Ok(Some(value.copy(alloc)?)),
            None => Ok(None),
        }
    }
}
