//! Copies of records and of whole runs.

use crate::duplicate::Duplicate;
use ignite_types::{Effect, Group, Journal, List, Mem, Rec};
use std::alloc::Global;

impl Duplicate for Rec {
    fn copy(&self, alloc: Global) -> Mem<Rec> {
        Ok(match *self {
            Rec::Call { session, command } => Rec::Call { session, command },
            Rec::Answer { session, answer } => Rec::Answer { session, answer },
            Rec::Sent { to, ref message } => Rec::Sent {
                to,
                message: message.copy(alloc)?,
            },
            Rec::Deliver { from, ref message } => Rec::Deliver {
                from,
                message: message.copy(alloc)?,
            },
            Rec::See { place } => Rec::See { place },
            Rec::Start { tx, top } => Rec::Start { tx, top },
            Rec::Grant { tx, top, key } => Rec::Grant { tx, top, key },
            Rec::Queue { tx, key, holder } => Rec::Queue { tx, key, holder },
            Rec::Drop { tx, key } => Rec::Drop { tx, key },
            Rec::Decide { tx, commit } => Rec::Decide { tx, commit },
            Rec::Apply {
                tx,
                top,
                primary,
                key,
                new,
                ver,
            } => Rec::Apply {
                tx,
                top,
                primary,
                key,
                new,
                ver,
            },
            Rec::Install { ref map } => Rec::Install {
                map: map.copy(alloc)?,
            },
            Rec::Opened { top } => Rec::Opened { top },
            Rec::Lost { node } => Rec::Lost { node },
            Rec::Tick { to } => Rec::Tick { to },
            Rec::Waits {
                tx,
                round,
                ref waits,
            } => Rec::Waits {
                tx,
                round,
                waits: List::from_slice(alloc, waits.as_slice())?,
            },
            Rec::Expire { tx } => Rec::Expire { tx },
            Rec::Searched { tx, ref edges } => Rec::Searched {
                tx,
                edges: List::from_slice(alloc, edges.as_slice())?,
            },
            Rec::Fault { tx, fault } => Rec::Fault { tx, fault },
            Rec::Planned { place, refused } => Rec::Planned { place, refused },
            Rec::Memory => Rec::Memory,
        })
    }
}

impl Duplicate for Effect {
    fn copy(&self, alloc: Global) -> Mem<Effect> {
        Ok(Effect {
            outs: self.outs.copy(alloc)?,
            recs: self.recs.copy(alloc)?,
        })
    }
}

impl Duplicate for Group {
    fn copy(&self, alloc: Global) -> Mem<Group> {
        Ok(Group {
            event: self.event,
            recs: self.recs.copy(alloc)?,
        })
    }
}

impl Duplicate for Journal {
    fn copy(&self, alloc: Global) -> Mem<Journal> {
        Ok(Journal {
            scenario: self.scenario.copy(alloc)?,
            groups: self.groups.copy(alloc)?,
            end: self.end,
        })
    }
}
