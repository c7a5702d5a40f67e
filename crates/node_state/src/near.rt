//! What a starter keeps of its transactions.

use ignite_types::{
    Answer, CacheVersion, Edge, Fault, Key, List, Mode, NodeId, Share, TopVer, TxId, Value,
};
use ordered_set::Set;
use ordered_table::Table;

/// How far a transaction has come at its starter.
#[derive(Clone, Copy, Debug, PartialEq, Eq)]
pub enum TxState {
    /// Its topology version is not fixed yet.
    Idle,
    Active,
    /// It waits for a lock.
    Waiting,
    /// It waits for a lock, and the waits of all members are asked for.
    Searching,
    Preparing,
    Committing,
    RollingBack,
    /// It has ended by a fault that is not told yet.
    Ended,
}

/// What was read at a key, with its version.
#[derive(Clone, Copy, Debug, PartialEq, Eq)]
pub struct Read {
    pub found: Option<Value>,
    pub ver: CacheVersion,
}

/// A Get whose answer is awaited, and whether the near cache is to keep what it finds.
#[derive(Clone, Copy, Debug, PartialEq, Eq)]
pub struct Getting {
    pub key: Key,
    pub near: bool,
}

/// A search for a deadlock.
#[derive(Debug, Drop)]
pub struct Search {
    /// The number of the round in work, from 1.
    pub round: u32,
    /// The members that are asked: those of the version last seen when the search began.
    pub members: List<NodeId>,
    /// The nodes whose answer of this round has not come yet.
    pub awaited: Set<NodeId>,
    /// The transactions that this round asks for.
    pub known: Set<TxId>,
    /// The waits gathered so far, in the order in which they came.
    pub edges: List<Edge>,
}

/// A transaction at its starter.
#[derive(Debug, Drop)]
pub struct TxEntry {
    pub mode: Mode,
    /// The moment from which on it may expire.
    pub deadline: Option<u64>,
    /// Its topology version, once it is fixed.
    pub top: Option<TopVer>,
    pub state: TxState,
    /// The keys that it touched.
    pub keys: Set<Key>,
    pub reads: Table<Key, Read>,
    /// The last write of each key; nothing for a removal.
    pub writes: Table<Key, Option<Value>>,
    /// The primaries that were sent a Lock or a Prepare.
    pub asked: Set<NodeId>,
    /// All its shares, once Prepare was sent.
    pub shares: List<Share>,
    /// The primaries whose answer of the phase in work has not come yet.
    pub awaited: Set<NodeId>,
    /// The shares of lost primaries whose holders have not confirmed the decision yet.
    pub backups: Set<Share>,
    pub getting: Option<Getting>,
    pub search: Option<Search>,
    pub fault: Option<Fault>,
    /// What a bare access is answered once its transaction has ended.
    pub outcome: Option<Answer>,
}
