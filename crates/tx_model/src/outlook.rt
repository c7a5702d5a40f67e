//! What a world shows of its sessions, beside its journal.

use ignite_types::{List, NodeId, TopVer, TopoEvent, TxId, Wait};

/// How a session stands in a world.
#[derive(Clone, Copy, Debug, PartialEq, Eq)]
pub enum Standing {
    /// At the end of its script, with no block open.
    Ended,
    /// Lost with this node before its end.
    Lost(NodeId),
    /// Its transaction waits in the queue of a key at this node.
    Queued(NodeId, Wait),
    /// Its transaction waits for this version to open, which the named one of an older version holds up.
    Unopened(TopVer, TxId),
    /// It waits for the messages of a held link, from one node to another.
    Held(NodeId, NodeId),
    /// It goes on, or what it waits for has no name.
    Busy,
}

/// What a world shows: how each session stands, in their order, and the topology events.
#[derive(Debug, PartialEq, Drop)]
pub struct Outlook {
    pub standings: List<Standing>,
    pub events: List<TopoEvent>,
}
