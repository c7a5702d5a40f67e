//! A history as it was read.

use crate::text::LongText;
use ignite_types::{List, TopVer};

/// A key, and a value or none.
pub type Change = (LongText, Option<LongText>);

/// A committed transaction: its name, its topology version, what it read first and wrote last at each key. None is a value
/// that was absent or was removed.
#[derive(Debug, Drop)]
pub struct HistoryEntry {
    pub reads: List<Change>,
    pub top: TopVer,
    pub tx: LongText,
    pub writes: List<Change>,
}

/// The transactions in the order of their commit decisions, and the map that is to be there after them.
#[derive(Debug, Drop)]
pub struct History {
    pub entries: List<HistoryEntry>,
    pub map: List<Change>,
}
