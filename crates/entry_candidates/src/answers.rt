//! What the queues answer.

use ignite_types::{Key, NoMemory, TxId};

/// What a place at the end of a key's queue is.
#[derive(Clone, Copy, Debug, PartialEq, Eq)]
pub enum Placed {
    /// The key is owned now.
    Owner,
    /// This owner is waited for.
    Waits(TxId),
}

/// Why not all keys could be owned.
#[derive(Clone, Copy, Debug, PartialEq, Eq)]
pub enum OwnFault {
    /// Another transaction owns this key.
    Blocked(Key, TxId),
    NoMemory,
}

impl From<NoMemory> for OwnFault {
    fn from(_: NoMemory) -> OwnFault {
        OwnFault::NoMemory
    }
}
