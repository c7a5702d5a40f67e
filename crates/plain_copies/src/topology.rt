//! Copies of what a node keeps of an exchange and of a recovery.

use crate::duplicate::Duplicate;
use ignite_types::{List, Mem};
use node_state::{Exchange, Report, Round};
use std::alloc::Global;

impl Duplicate for Exchange {
    fn copy(&self, alloc: Global) -> Mem<Exchange> {
        Ok(Exchange {
            top: self.top,
            installed: self.installed.copy(alloc)?,
        })
    }
}

impl Duplicate for Report {
    fn copy(&self, alloc: Global) -> Mem<Report> {
        Ok(Report {
            round: self.round,
            from: self.from,
            list: self.list.copy(alloc)?,
        })
    }
}

impl Duplicate for Round {
    fn copy(&self, alloc: Global) -> Mem<Round> {
        Ok(Round {
            place: self.place,
            members: List::from_slice(alloc, self.members.as_slice())?,
            acted: self.acted,
            finishes: self.finishes.copy(alloc)?,
            backups: self.backups.copy(alloc)?,
        })
    }
}
