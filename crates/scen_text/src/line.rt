//! What a line of a scenario means, by its words alone.

use crate::words::Name;
use ignite_types::{Command, Key, Member, NodeId, Step, Value};

/// What a line of format 1 sets of its one cache.
#[derive(Clone, Copy)]
pub enum Setting {
    Parts,
    Backups,
    Near,
}

/// A cache as a line or a start step names it; the name is lacking where it is too long.
#[derive(Clone, Copy)]
pub struct CacheWords {
    pub name: Option<Name>,
    pub parts: u32,
    pub backups: u32,
    pub near: u32,
}

/// A key as a command names it: its cache's name, and the key in cache 0; what is too long is lacking.
#[derive(Clone, Copy)]
pub struct KeyWords {
    pub cache: Option<Name>,
    pub key: Option<Key>,
}

/// What a command does with its key; a value that is too long is lacking.
#[derive(Clone, Copy)]
pub enum Verb {
    Get,
    Put(Option<Value>),
    Remove,
    Add(i64),
    Incr(i64),
    Next,
    Offer(Option<Value>),
    Poll,
}

/// What a line means. Its numbers are not looked at yet.
#[derive(Clone, Copy)]
pub enum Line {
    /// Nothing: no word, or a remark.
    Blank,
    /// `scenario 1` or `scenario 2`
    Head(u32),
    /// `parts N`, `backups N` or `near N`
    Setting(Setting, u32),
    /// `cache NAME P B R`, or `data NAME P B R`, which is marked
    Cache(bool, CacheWords),
    /// `server N` or `client N`
    Member(Member),
    /// `plan M join N server` or `plan M join N client`
    Join(u32, Member),
    /// `plan M lose N`, `plan M hold N N` or `plan M release N N`
    Links(u32, Step),
    /// `plan M start NAME P B R`
    Start(u32, CacheWords),
    /// `plan M stop NAME`
    Stop(u32, Option<Name>),
    /// `session NAME N`
    Session(Option<Name>, NodeId),
    /// A command without a key.
    Bare(Command),
    /// A command with a key.
    Keyed(Verb, KeyWords),
    /// `end`
    End,
}
