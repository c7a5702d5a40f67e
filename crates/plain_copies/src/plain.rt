//! Copies of what tables hold as it is; they take no memory.

use crate::duplicate::Duplicate;
use ignite_types::{Mem, Value};
use node_state::Read;
use part_model::Range;
use std::alloc::Global;

impl Duplicate for bool {
    fn copy(&self, _alloc: Global) -> Mem<bool> {
        Ok(*self)
    }
}

impl Duplicate for Value {
    fn copy(&self, _alloc: Global) -> Mem<Value> {
        Ok(*self)
    }
}

impl Duplicate for Read {
    fn copy(&self, _alloc: Global) -> Mem<Read> {
        Ok(*self)
    }
}

impl Duplicate for Range {
    fn copy(&self, _alloc: Global) -> Mem<Range> {
        Ok(*self)
    }
}
