//! What a node keeps of the exchange, of filling, and of recovery.

use ignite_types::{List, Member, NodeId, Orphan, TopVer, TxId};
use ordered_set::Set;

/// The exchange that this node coordinates: the members that have installed its map.
#[derive(Debug, Drop)]
pub struct Exchange {
    pub top: TopVer,
    pub installed: Set<NodeId>,
}

/// A mover's word that its copies are filled under this version's map.
#[derive(Clone, Copy, Debug, PartialEq, Eq, PartialOrd, Ord)]
pub struct Claim {
    pub top: TopVer,
    pub node: NodeId,
}

/// A list of orphans: the round it was made for, and the node that made it.
#[derive(Debug, Drop)]
pub struct Report {
    pub round: u64,
    pub from: NodeId,
    pub list: List<Orphan>,
}

/// A Finished that the recoverer awaits.
#[derive(Clone, Copy, Debug, PartialEq, Eq, PartialOrd, Ord)]
pub struct FinishWait {
    pub tx: TxId,
    pub node: NodeId,
}

/// A BackupFinished that the recoverer awaits.
#[derive(Clone, Copy, Debug, PartialEq, Eq, PartialOrd, Ord)]
pub struct BackupWait {
    pub tx: TxId,
    pub primary: NodeId,
    pub holder: NodeId,
}

/// The round of recovery that the last loss seen has begun.
#[derive(Debug, Drop)]
pub struct Round {
    /// The place of the loss in the list of topology events.
    pub place: u64,
    /// The members after it, by age: the first is the recoverer.
    pub members: List<Member>,
    /// Whether the recoverer has given its verdicts.
    pub acted: bool,
    pub finishes: Set<FinishWait>,
    pub backups: Set<BackupWait>,
}
