//! Messages between nodes, and what they carry.

use crate::answer::Fail;
use crate::list::List;
use crate::names::{CacheVersion, NodeId, TopVer, TxId};
use crate::placement::{PartMap, Share, ShareState};
use crate::scenario::Mode;
use crate::text::{Key, Value};

/// What a store has at a key: a value with its version, or nothing.
pub type Found = Option<(Value, CacheVersion)>;

/// An entry with its version; without a value it is the tombstone of a removal.
#[derive(Clone, Copy, Debug, PartialEq, Eq)]
pub struct Stored {
    pub key: Key,
    pub value: Option<Value>,
    pub ver: CacheVersion,
}

/// A key that a transaction touched, with the version that came with its read, if one did.
#[derive(Clone, Copy, Debug, PartialEq, Eq)]
pub struct Wanted {
    pub key: Key,
    pub had: Option<CacheVersion>,
}

/// At `key`, `waiter` waits for `holder`.
#[derive(Clone, Copy, Debug, PartialEq, Eq)]
pub struct Wait {
    pub key: Key,
    pub waiter: TxId,
    pub holder: TxId,
}

/// A wait, with the node and its act at which it stood.
#[derive(Clone, Copy, Debug, PartialEq, Eq)]
pub struct Edge {
    pub node: NodeId,
    pub act: u64,
    pub wait: Wait,
}

/// A key's queue: the first transaction owns the key, the others wait.
#[derive(Debug, PartialEq, Drop)]
pub struct Waiters {
    pub key: Key,
    pub txs: List<TxId>,
}

/// What a node holds of a transaction whose starter was lost.
#[derive(Debug, PartialEq, Drop)]
pub struct Orphan {
    pub tx: TxId,
    pub shares: List<Share>,
    pub held: List<(Share, ShareState)>,
    /// Whether a lock or a waiting place of it is here.
    pub locks: bool,
}

/// A share that a node keeps, with all shares of its transaction.
#[derive(Debug, PartialEq, Drop)]
pub struct HeldShare {
    pub tx: TxId,
    pub shares: List<Share>,
    pub share: Share,
    pub state: ShareState,
}

/// A node's word to the coordinator: its installed map and the partitions that it has filled under it.
#[derive(Debug, PartialEq, Drop)]
pub struct Single {
    pub from: NodeId,
    pub top: TopVer,
    pub map: Option<PartMap>,
    pub complete: List<u32>,
}

/// A message from one node to another, or to itself.
#[derive(Debug, PartialEq, Drop)]
pub enum Message {
    Lock {
        tx: TxId,
        top: TopVer,
        key: Key,
    },
    LockOk {
        tx: TxId,
        key: Key,
        found: Found,
    },
    Get {
        tx: TxId,
        key: Key,
        near: bool,
    },
    GetOk {
        tx: TxId,
        key: Key,
        found: Found,
    },
    Prepare {
        tx: TxId,
        top: TopVer,
        mode: Mode,
        shares: List<Share>,
        wanted: List<Wanted>,
        writes: List<(Key, Option<Value>)>,
    },
    Prepared {
        tx: TxId,
    },
    PrepareFail {
        tx: TxId,
        fail: Fail,
    },
    BackupPrepare {
        tx: TxId,
        top: TopVer,
        shares: List<Share>,
        primary: NodeId,
        writes: List<Stored>,
    },
    BackupPrepared {
        tx: TxId,
    },
    Finish {
        tx: TxId,
        commit: bool,
    },
    Finished {
        tx: TxId,
    },
    BackupFinish {
        tx: TxId,
        primary: NodeId,
        commit: bool,
    },
    BackupFinished {
        tx: TxId,
        primary: NodeId,
    },
    NearUpdate {
        tx: TxId,
        key: Key,
        new: Option<Value>,
        ver: CacheVersion,
    },
    NearDone {
        tx: TxId,
        key: Key,
    },
    Edges {
        tx: TxId,
        round: u32,
        of: List<TxId>,
    },
    EdgesOk {
        tx: TxId,
        round: u32,
        act: u64,
        waits: List<Wait>,
    },
    Single {
        top: TopVer,
        map: Option<PartMap>,
        complete: List<u32>,
    },
    Full {
        map: PartMap,
    },
    Installed {
        top: TopVer,
    },
    Opens {
        top: TopVer,
    },
    Demand {
        top: TopVer,
        part: u32,
        after: Option<Key>,
    },
    Supply {
        top: TopVer,
        part: u32,
        entries: List<Stored>,
        last: bool,
    },
    Complete {
        top: TopVer,
    },
    Orphans {
        round: u64,
        list: List<Orphan>,
    },
}

/// A message and its addressee.
#[derive(Debug, PartialEq, Drop)]
pub struct Out {
    pub to: NodeId,
    pub msg: Message,
}
