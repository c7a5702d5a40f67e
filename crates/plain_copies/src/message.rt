//! Copies of messages and of what they carry.

use crate::duplicate::Duplicate;
use ignite_types::{HeldShare, List, Mem, Message, Orphan, Out, Single, Waiters};
use std::alloc::Global;

impl Duplicate for Waiters {
    fn copy(&self, alloc: Global) -> Mem<Waiters> {
        Ok(Waiters {
            key: self.key,
            txs: List::from_slice(alloc, self.txs.as_slice())?,
        })
    }
}

impl Duplicate for Orphan {
    fn copy(&self, alloc: Global) -> Mem<Orphan> {
        Ok(Orphan {
            tx: self.tx,
            shares: List::from_slice(alloc, self.shares.as_slice())?,
            held: List::from_slice(alloc, self.held.as_slice())?,
            locks: self.locks,
        })
    }
}

impl Duplicate for HeldShare {
    fn copy(&self, alloc: Global) -> Mem<HeldShare> {
        Ok(HeldShare {
            tx: self.tx,
            shares: List::from_slice(alloc, self.shares.as_slice())?,
            share: self.share,
            state: self.state,
        })
    }
}

impl Duplicate for Single {
    fn copy(&self, alloc: Global) -> Mem<Single> {
        Ok(Single {
            from: self.from,
            top: self.top,
            map: self.map.copy(alloc)?,
            complete: List::from_slice(alloc, self.complete.as_slice())?,
        })
    }
}

impl Duplicate for Message {
    fn copy(&self, alloc: Global) -> Mem<Message> {
        Ok(match *self {
            Message::Lock { tx, top, key } => Message::Lock { tx, top, key },
            Message::LockOk { tx, key, found } => Message::LockOk { tx, key, found },
            Message::Get { tx, key, near } => Message::Get { tx, key, near },
            Message::GetOk { tx, key, found } => Message::GetOk { tx, key, found },
            Message::Prepare {
                tx,
                top,
                mode,
                ref shares,
                ref wanted,
                ref writes,
            } => Message::Prepare {
                tx,
                top,
                mode,
                shares: List::from_slice(alloc, shares.as_slice())?,
                wanted: List::from_slice(alloc, wanted.as_slice())?,
                writes: List::from_slice(alloc, writes.as_slice())?,
            },
            Message::Prepared { tx } => Message::Prepared { tx },
            Message::PrepareFail { tx, fail } => Message::PrepareFail { tx, fail },
            Message::BackupPrepare {
                tx,
                top,
                ref shares,
                primary,
                ref writes,
            } => Message::BackupPrepare {
                tx,
                top,
                shares: List::from_slice(alloc, shares.as_slice())?,
                primary,
                writes: List::from_slice(alloc, writes.as_slice())?,
            },
            Message::BackupPrepared { tx } => Message::BackupPrepared { tx },
            Message::Finish { tx, commit } => Message::Finish { tx, commit },
            Message::Finished { tx } => Message::Finished { tx },
            Message::BackupFinish {
                tx,
                primary,
                commit,
            } => Message::BackupFinish {
                tx,
                primary,
                commit,
            },
            Message::BackupFinished { tx, primary } => Message::BackupFinished { tx, primary },
            Message::NearUpdate { tx, key, new, ver } => Message::NearUpdate { tx, key, new, ver },
            Message::NearDone { tx, key } => Message::NearDone { tx, key },
            Message::Edges { tx, round, ref of } => Message::Edges {
                tx,
                round,
                of: List::from_slice(alloc, of.as_slice())?,
            },
            Message::EdgesOk {
                tx,
                round,
                act,
                ref waits,
            } => Message::EdgesOk {
                tx,
                round,
                act,
                waits: List::from_slice(alloc, waits.as_slice())?,
            },
            Message::Single {
                top,
                ref map,
                ref complete,
            } => Message::Single {
                top,
                map: map.copy(alloc)?,
                complete: List::from_slice(alloc, complete.as_slice())?,
            },
            Message::Full { ref map } => Message::Full {
                map: map.copy(alloc)?,
            },
            Message::Installed { top } => Message::Installed { top },
            Message::Opens { top } => Message::Opens { top },
            Message::Demand { top, part, after } => Message::Demand { top, part, after },
            Message::Supply {
                top,
                part,
                ref entries,
                last,
            } => Message::Supply {
                top,
                part,
                entries: List::from_slice(alloc, entries.as_slice())?,
                last,
            },
            Message::Complete { top } => Message::Complete { top },
            Message::Orphans { round, ref list } => Message::Orphans {
                round,
                list: list.copy(alloc)?,
            },
        })
    }
}

impl Duplicate for Out {
    fn copy(&self, alloc: Global) -> Mem<Out> {
        Ok(Out {
            to: self.to,
            msg: self.msg.copy(alloc)?,
        })
    }
}
