//! The run: a list of events, each with the records that it noted.

use crate::answer::{Answer, Fault};
use crate::list::List;
use crate::message::{Edge, Message, Out, Wait};
use crate::names::{CacheVersion, NodeId, TopVer, TxId};
use crate::placement::PartMap;
use crate::scenario::{Command, Member, Scenario};
use crate::text::{Key, Value};

/// A change of the topology, in the one list that every node reads at its own pace.
#[derive(Clone, Copy, Debug, PartialEq, Eq)]
pub enum TopoEvent {
    Join(Member),
    Left(NodeId),
    Minor,
    /// A cache, by its number, runs from this version on.
    Start(u32),
    /// A cache runs no more from this version on.
    Stop(u32),
}

/// Why a loss is refused: the node is no member, or this partition would be left without an owner.
#[derive(Clone, Copy, Debug, PartialEq, Eq)]
pub enum NoLoss {
    NotIn,
    LeavesPartition(u32),
}

/// An event of the machine: one atomic step of a run.
#[derive(Clone, Copy, Debug, PartialEq, Eq)]
pub enum Event {
    /// The ready answer of a session is given.
    Answer(u32),
    /// The first node takes the oldest message that the second one sent to it.
    Act(NodeId, NodeId),
    /// The oldest message of the node's outbox goes to its addressee's inbox.
    Send(NodeId),
    /// The node reads the next topology event.
    See(NodeId),
    /// The transaction's deadline was reached.
    Expire(TxId),
    /// The node begins the late switch of owners.
    Minor(NodeId),
    /// A session gives its next command.
    Call(u32),
    /// The next plan step is done or refused.
    Plan,
    /// The clock goes on.
    Tick,
    /// The node found no memory, and the run ends.
    Memory(NodeId),
}

/// A record, noted by the node that acts or by the directory.
#[derive(Debug, PartialEq, Drop)]
pub enum Rec {
    Call {
        session: u32,
        command: Command,
    },
    Answer {
        session: u32,
        answer: Answer,
    },
    Sent {
        to: NodeId,
        message: Message,
    },
    Deliver {
        from: NodeId,
        message: Message,
    },
    /// The place of a topology event, from 0.
    See {
        place: usize,
    },
    Start {
        tx: TxId,
        top: TopVer,
    },
    Grant {
        tx: TxId,
        top: TopVer,
        key: Key,
    },
    Queue {
        tx: TxId,
        key: Key,
        holder: TxId,
    },
    Drop {
        tx: TxId,
        key: Key,
    },
    Decide {
        tx: TxId,
        commit: bool,
    },
    Apply {
        tx: TxId,
        top: TopVer,
        primary: NodeId,
        key: Key,
        new: Option<Value>,
        ver: CacheVersion,
    },
    Install {
        map: PartMap,
    },
    Opened {
        top: TopVer,
    },
    Lost {
        node: NodeId,
    },
    Tick {
        to: u64,
    },
    Waits {
        tx: TxId,
        round: u32,
        waits: List<Wait>,
    },
    Expire {
        tx: TxId,
    },
    Searched {
        tx: TxId,
        edges: List<Edge>,
    },
    Fault {
        tx: TxId,
        fault: Fault,
    },
    /// The place of a plan step, from 0, and why it was refused, if it was.
    Planned {
        place: usize,
        refused: Option<NoLoss>,
    },
    Memory,
}

/// What an act sends and notes.
#[derive(Debug, PartialEq, Drop)]
pub struct Effect {
    pub outs: List<Out>,
    pub recs: List<Rec>,
}

/// One event with the records that it noted.
#[derive(Debug, PartialEq, Drop)]
pub struct Group {
    pub event: Event,
    pub recs: List<Rec>,
}

/// How a run ended: every session at its end, none of the rest possible; some session not at its end; the step limit
/// met; or want of memory.
#[derive(Clone, Copy, Debug, PartialEq, Eq)]
pub enum End {
    AllEnded,
    Stalled,
    StepLimit,
    Memory,
}

/// A run: its scenario, its groups in order, and its end.
#[derive(Debug, PartialEq, Drop)]
pub struct Journal {
    pub scenario: Scenario,
    pub groups: List<Group>,
    pub end: End,
}

/// What a top call ends with.
#[derive(Clone, Copy, Debug, PartialEq, Eq)]
pub enum Status {
    AllEnded,
    Stalled,
    Usage,
    Refused,
    StepLimit,
    Memory,
    ReadFault,
    WriteFault,
}
