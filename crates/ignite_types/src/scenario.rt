//! What a run is given: caches, nodes, a plan of joins and losses, and the scripts of the sessions.

use crate::list::List;
use crate::names::NodeId;
use crate::text::{Key, Value};

/// How a transaction locks: at each first access, or at its prepare with a check of versions.
#[derive(Clone, Copy, Debug, PartialEq, Eq)]
pub enum Mode {
    Pessimistic,
    Optimistic,
}

/// A plain command of a session. `Close` is never written: it ends an open transaction at the script's end.
#[derive(Clone, Copy, Debug, PartialEq, Eq)]
pub enum Command {
    /// Begins a transaction; the number is its timeout in moments, 0 for none.
    Begin(Mode, u64),
    Get(Key),
    Put(Key, Value),
    Remove(Key),
    Add(Key, i64),
    Commit,
    Rollback,
    /// Sleeps for this many moments.
    Sleep(u64),
    Close,
}

/// An item of a session's script: a plain command, or a data command on an object.
#[derive(Clone, Copy, Debug, PartialEq, Eq)]
pub enum Item {
    Plain(Command),
    Incr(Key, i64),
    Next(Key),
    Offer(Key, Value),
    Poll(Key),
}

/// A node and whether it is a server; the others are clients, which hold no copies.
#[derive(Clone, Copy, Debug, PartialEq, Eq)]
pub struct Member {
    pub node: NodeId,
    pub server: bool,
}

/// A step of the plan. `Hold` and `Release` name a link's sender and addressee, `Start` and `Stop` a cache's number.
#[derive(Clone, Copy, Debug, PartialEq, Eq)]
pub enum Step {
    Join(Member),
    Lose(NodeId),
    Hold(NodeId, NodeId),
    Release(NodeId, NodeId),
    Start(u32),
    Stop(u32),
}

/// A step and the moment from which on it is done.
#[derive(Clone, Copy, Debug, PartialEq, Eq)]
pub struct PlanStep {
    pub moment: u64,
    pub step: Step,
}

/// A session: its name, the node it is on, and its script.
#[derive(Debug, PartialEq, Drop)]
pub struct Session {
    pub name: List<u8>,
    pub node: NodeId,
    pub commands: List<Item>,
}

/// A cache: its number of partitions, backups and near entries, whether it runs from the start (`first`), and whether
/// its keys are those of data objects (`data`).
#[derive(Debug, PartialEq, Drop)]
pub struct Cache {
    pub name: List<u8>,
    pub parts: u32,
    pub backups: u32,
    pub near: u32,
    pub first: bool,
    pub data: bool,
}

/// A scenario. Caches are numbered from 0 in the order of this list, sessions from 1.
#[derive(Debug, PartialEq, Drop)]
pub struct Scenario {
    /// 1 or 2; a scenario of format 1 has the one cache `default`.
    pub format: u32,
    pub caches: List<Cache>,
    pub nodes: List<Member>,
    pub plan: List<PlanStep>,
    pub sessions: List<Session>,
}
