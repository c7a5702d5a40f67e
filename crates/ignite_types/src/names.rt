//! The names of nodes, transactions and versions. Each is compared field by field, the first field first.

/// A node's number, 1 to 99.
#[derive(Clone, Copy, Debug, PartialEq, Eq, PartialOrd, Ord, Hash)]
pub struct NodeId(pub u32);

/// A topology version. A join or a loss raises `major`, the late switch of owners and a cache's start or stop `minor`.
#[derive(Clone, Copy, Debug, PartialEq, Eq, PartialOrd, Ord, Hash)]
pub struct TopVer {
    pub major: u64,
    pub minor: u64,
}

/// An entry's version: the topology version of the transaction that wrote it, and the number that its primary drew.
/// An absent entry has version 0.0, order 0, node 0.
#[derive(Clone, Copy, Debug, PartialEq, Eq, PartialOrd, Ord)]
pub struct CacheVersion {
    pub top: TopVer,
    pub order: u64,
    pub node: NodeId,
}

/// A transaction's name: the node on which it was started, its session and its number there, both from 1.
#[derive(Clone, Copy, Debug, PartialEq, Eq, PartialOrd, Ord, Hash)]
pub struct TxId {
    pub node: NodeId,
    pub session: u32,
    pub number: u64,
}
