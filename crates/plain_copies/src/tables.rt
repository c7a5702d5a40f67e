//! Copies of tables.

use crate::duplicate::Duplicate;
use ignite_types::Mem;
use ordered_table::Table;
use std::alloc::Global;

impl<K: Ord + Copy, V: Duplicate> Duplicate for Table<K, V> {
    /// The entries come in the order of their keys, so each is added at once.
    fn copy(&self, alloc: Global) -> Mem<Table<K, V>> {
        let mut copy = Table::new(alloc);
        for (key, value) in self.as_slice() {
            copy.set(*key, value.copy(alloc)?)?;
        }
        Ok(copy)
    }
}
