//! What a node keeps of a session.

use ignite_types::{Answer, Command, Item, List, TxId};
use part_model::Progress;

/// A session and how far it has come in its script.
#[derive(Debug, Drop)]
pub struct SessionState {
    pub script: List<Item>,
    pub progress: Progress,
    /// The command that was given and is not answered yet.
    pub pending: Option<Command>,
    /// The moment at which its sleep ends, while it sleeps.
    pub wake: Option<u64>,
    /// Its answer, once it is ready to be handed out.
    pub ready: Option<Answer>,
    /// Whether a block is open: one whose fault was told is open no more.
    pub block: bool,
    /// Whether the block's fault was told, and its further accesses are skipped.
    pub skipping: bool,
    /// The session's transaction, of a block or of one bare access.
    pub tx: Option<TxId>,
    /// How many transactions the session has started.
    pub started: u64,
}
