//! Copies of shares.

use crate::duplicate::Duplicate;
use ignite_types::{List, Mem};
use node_state::{BackupShare, OwnShare};
use std::alloc::Global;

impl Duplicate for OwnShare {
    fn copy(&self, alloc: Global) -> Mem<OwnShare> {
        Ok(OwnShare {
            top: self.top,
            shares: List::from_slice(alloc, self.shares.as_slice())?,
            writes: List::from_slice(alloc, self.writes.as_slice())?,
            state: self.state,
            awaited: self.awaited.copy(alloc)?,
            near: self.near.copy(alloc)?,
            askers: self.askers.copy(alloc)?,
        })
    }
}

impl Duplicate for BackupShare {
    fn copy(&self, alloc: Global) -> Mem<BackupShare> {
        Ok(BackupShare {
            top: self.top,
            shares: List::from_slice(alloc, self.shares.as_slice())?,
            writes: List::from_slice(alloc, self.writes.as_slice())?,
            state: self.state,
        })
    }
}
