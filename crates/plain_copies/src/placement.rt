//! Copies of maps of partitions.

use crate::duplicate::Duplicate;
use ignite_types::{List, Mem, PartMap, Row};
use std::alloc::Global;

impl Duplicate for Row {
    fn copy(&self, alloc: Global) -> Mem<Row> {
        Ok(Row {
            owners: List::from_slice(alloc, self.owners.as_slice())?,
            movers: List::from_slice(alloc, self.movers.as_slice())?,
        })
    }
}

impl Duplicate for PartMap {
    fn copy(&self, alloc: Global) -> Mem<PartMap> {
        Ok(PartMap {
            top: self.top,
            parts: List::from_slice(alloc, self.parts.as_slice())?,
            rows: self.rows.copy(alloc)?,
        })
    }
}
