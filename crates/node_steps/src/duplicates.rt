//! Copies of a node, for those that try an act on one.

ghost use Rattle.std.specs.Prelude.{◌≡◌, IfOk};

use crate::node::{Node, NodeParts};
use ignite_types::{List, Mem};
use plain_copies::Duplicate;
use std::alloc::Global;

impl Duplicate for NodeParts {
    fn copy(&self, alloc: Global) -> Mem<NodeParts> {
        Ok(NodeParts {
            me: self.me,
            acts: self.acts,
            now: self.now,
            caches: self.caches.copy(alloc)?,
            read: self.read,
            seen: self.seen,
            members: List::from_slice(alloc, self.members.as_slice())?,
            running: self.running.copy(alloc)?,
            left: self.left.copy(alloc)?,
            installed: self.installed.copy(alloc)?,
            opened: self.opened,
            session_states: self.session_states.copy(alloc)?,
            txs: self.txs.copy(alloc)?,
            order: self.order,
            shares: self.shares.copy(alloc)?,
            backups: self.backups.copy(alloc)?,
            single_sent: self.single_sent,
            singles: self.singles.copy(alloc)?,
            exchange: self.exchange.copy(alloc)?,
            complete: self.complete.copy(alloc)?,
            claims: self.claims.copy(alloc)?,
            round: self.round.copy(alloc)?,
            reports: self.reports.copy(alloc)?,
            verdicts: self.verdicts.copy(alloc)?,
            outbox: self.outbox.copy(alloc)?,
            noted: self.noted.copy(alloc)?,
        })
    }
}

impl Node {
    /// The same node once more.
    pub fn copy(&self) -> Mem<Node>
        ensures { IfOk result (λ copy. copy ≡ self.now) }
    {
        let alloc = self.alloc;
        Ok(Node {
            alloc,
            stores: self.stores.copy()?,
            queues: self.queues.copy()?,
            readers: self.readers.copy()?,
            near: self.near.copy()?,
            state: self.state.copy(alloc)?,
        })
    }
}
