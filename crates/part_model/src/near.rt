//! Entries of a near cache.

use ignite_types::{CacheVersion, Key, Value};

/// A recently used entry of a partition that the node holds no copy of.
#[derive(Clone, Copy, Debug, PartialEq, Eq)]
pub struct NearEntry {
    pub key: Key,
    pub value: Value,
    pub ver: CacheVersion,
}
