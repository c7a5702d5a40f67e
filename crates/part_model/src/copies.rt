//! Entries of a partition's copy.

use ignite_types::{CacheVersion, Value};

/// An entry of a copy: a value, or the tombstone of a removal, with its version.
#[derive(Clone, Copy, Debug, PartialEq, Eq)]
pub struct Entry {
    pub value: Option<Value>,
    pub ver: CacheVersion,
}
