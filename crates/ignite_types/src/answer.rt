//! What a session is answered, and the faults that roll a transaction back.

use crate::names::{CacheVersion, NodeId, TxId};
use crate::text::{Key, Value};

/// Why an optimistic prepare failed at a primary.
#[derive(Clone, Copy, Debug, PartialEq, Eq)]
pub enum Fail {
    /// The entry's version is no longer the one that was read.
    Changed {
        key: Key,
        had: CacheVersion,
        has: CacheVersion,
    },
    /// Another transaction holds the key.
    Candidate {
        key: Key,
        holder: TxId,
    },
}

/// Why a transaction was rolled back without being asked to.
#[derive(Clone, Copy, Debug, PartialEq, Eq)]
pub enum Fault {
    Check(Fail),
    Timeout,
    Deadlock,
    /// The search for a deadlock was cut by the loss of this node.
    Cut(NodeId),
    /// The primary of one of its keys was lost.
    NodeLost(NodeId),
}

/// The answer to a plain command. `NoCache` names the cache by its number.
#[derive(Clone, Copy, Debug, PartialEq, Eq)]
pub enum Answer {
    Done,
    Found(Value),
    Absent,
    Committed,
    RolledBack,
    Failed(Fault),
    TooManyKeys,
    NotNumber,
    Overflow,
    NoTransaction,
    TransactionOpen,
    Skipped,
    NoCache(u32),
}
