//! Copies of transactions at their starter.

use crate::duplicate::Duplicate;
use ignite_types::{List, Mem};
use node_state::{Search, TxEntry};
use std::alloc::Global;

impl Duplicate for Search {
    fn copy(&self, alloc: Global) -> Mem<Search> {
        Ok(Search {
            round: self.round,
            members: List::from_slice(alloc, self.members.as_slice())?,
            awaited: self.awaited.copy(alloc)?,
            known: self.known.copy(alloc)?,
            edges: List::from_slice(alloc, self.edges.as_slice())?,
        })
    }
}

impl Duplicate for TxEntry {
    fn copy(&self, alloc: Global) -> Mem<TxEntry> {
        Ok(TxEntry {
            mode: self.mode,
            deadline: self.deadline,
            top: self.top,
            state: self.state,
            keys: self.keys.copy(alloc)?,
            reads: self.reads.copy(alloc)?,
            writes: self.writes.copy(alloc)?,
            asked: self.asked.copy(alloc)?,
            shares: List::from_slice(alloc, self.shares.as_slice())?,
            awaited: self.awaited.copy(alloc)?,
            backups: self.backups.copy(alloc)?,
            getting: self.getting,
            search: self.search.copy(alloc)?,
            fault: self.fault,
            outcome: self.outcome,
        })
    }
}
