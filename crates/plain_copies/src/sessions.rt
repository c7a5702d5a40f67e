//! Copies of sessions.

use crate::duplicate::Duplicate;
use ignite_types::{List, Mem};
use node_state::SessionState;
use part_model::Progress;
use std::alloc::Global;

impl Duplicate for Progress {
    fn copy(&self, alloc: Global) -> Mem<Progress> {
        Ok(Progress {
            place: self.place,
            phase: self.phase,
            ranges: self.ranges.copy(alloc)?,
        })
    }
}

impl Duplicate for SessionState {
    fn copy(&self, alloc: Global) -> Mem<SessionState> {
        Ok(SessionState {
            script: List::from_slice(alloc, self.script.as_slice())?,
            progress: self.progress.copy(alloc)?,
            pending: self.pending,
            wake: self.wake,
            ready: self.ready,
            block: self.block,
            skipping: self.skipping,
            tx: self.tx,
            started: self.started,
        })
    }
}
