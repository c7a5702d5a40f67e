//! Copies of what a run is given.

use crate::duplicate::Duplicate;
use ignite_types::{Cache, List, Mem, Scenario, Session};
use std::alloc::Global;

impl Duplicate for Cache {
    fn copy(&self, alloc: Global) -> Mem<Cache> {
        Ok(Cache {
            name: List::from_slice(alloc, self.name.as_slice())?,
            parts: self.parts,
            backups: self.backups,
            near: self.near,
            first: self.first,
            data: self.data,
        })
    }
}

impl Duplicate for Session {
    fn copy(&self, alloc: Global) -> Mem<Session> {
        Ok(Session {
            name: List::from_slice(alloc, self.name.as_slice())?,
            node: self.node,
            commands: List::from_slice(alloc, self.commands.as_slice())?,
        })
    }
}

impl Duplicate for Scenario {
    fn copy(&self, alloc: Global) -> Mem<Scenario> {
        Ok(Scenario {
            format: self.format,
            caches: self.caches.copy(alloc)?,
            nodes: List::from_slice(alloc, self.nodes.as_slice())?,
            plan: List::from_slice(alloc, self.plan.as_slice())?,
            sessions: self.sessions.copy(alloc)?,
        })
    }
}
