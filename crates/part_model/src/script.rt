//! How far a session has come in its script.

use ignite_types::{Answer, Key, Value};
use ordered_table::Table;

/// How far the item at hand has come. A plain item is one command; a data command is a block of several.
#[derive(Clone, Copy, Debug, PartialEq, Eq)]
pub enum Phase {
    /// None of its commands was answered yet.
    Fresh,
    /// The block of an `offer` has begun: a number is to be drawn for the item.
    OfferBegun,
    /// The item has this number and is to be put.
    OfferNumbered(u64),
    /// The item was put: the block is to be committed.
    OfferPut,
    /// The block of a `poll` has begun: the number of the last item taken is to be read.
    PollBegun,
    /// This is the number of the last item taken: the item after it is to be read.
    PollHead(u64),
    /// There is no item: the block is to be committed.
    PollEmpty,
    /// This item stands after that number, which is to be counted up.
    PollFound(u64, Value),
    /// The number was counted up: the item is to be removed.
    PollCounted(u64, Value),
    /// The item was removed: the block is to be committed.
    PollTaken(Value),
    /// A command of the block had this answer, which its data command is answered too: the block is to be rolled back.
    Undone(Answer),
}

/// Numbers of a sequence that a session has left, both ends included.
#[derive(Clone, Copy, Debug, PartialEq, Eq)]
pub struct Range {
    pub next: i64,
    pub last: i64,
}

/// How far a session has come: the place of the item at hand, from 0, how far that item has come, and for each sequence
/// the numbers that are left.
#[derive(Debug, Drop)]
pub struct Progress {
    pub place: u64,
    pub phase: Phase,
    pub ranges: Table<Key, Range>,
}

/// What an item of a script is answered: what its plain command was, or that a queue is empty.
#[derive(Clone, Copy, Debug, PartialEq, Eq)]
pub enum Told {
    Plain(Answer),
    Empty,
}
