//! What a node keeps of transactions as a primary, and as a backup or mover of other primaries.

use ignite_types::{Key, List, NodeId, Share, ShareState, Stored, TopVer, TxId};
use ordered_set::Set;
use ordered_table::Table;
use part_model::Entry;

/// One partition's copy.
pub type Store = Table<Key, Entry>;

/// A reader's confirmation of an update that is awaited.
#[derive(Clone, Copy, Debug, PartialEq, Eq, PartialOrd, Ord)]
pub struct NearWait {
    pub key: Key,
    pub node: NodeId,
}

/// A primary's own share of a transaction.
#[derive(Debug, Drop)]
pub struct OwnShare {
    pub top: TopVer,
    /// All shares of the transaction.
    pub shares: List<Share>,
    /// The writes of this primary's keys, with the versions that it drew.
    pub writes: List<Stored>,
    pub state: ShareState,
    /// The holders whose answer has not come yet.
    pub awaited: Set<NodeId>,
    /// The readers whose answer has not come yet.
    pub near: Set<NearWait>,
    /// The nodes that asked for the finish that is in work; none while no finish is in work.
    pub askers: Set<NodeId>,
}

/// Names a share that is held for another primary.
#[derive(Clone, Copy, Debug, PartialEq, Eq, PartialOrd, Ord)]
pub struct BackupName {
    pub tx: TxId,
    pub primary: NodeId,
}

/// A share that is held for another primary.
#[derive(Debug, Drop)]
pub struct BackupShare {
    pub top: TopVer,
    /// All shares of the transaction.
    pub shares: List<Share>,
    /// The writes of the partitions that this node holds.
    pub writes: List<Stored>,
    pub state: ShareState,
}
