//! The node.

ghost use Rattle.std.specs.Prelude.{◌≡◌};
ghost use Rattle.node_steps.specs.Beginning.{begun_node};

use entry_candidates::Queues;
use ignite_types::{Cache, List, Member, NodeId, Out, PartMap, Rec, Single, TopVer, TxId};
use near_cache::{Nears, Readers};
use node_state::{
    BackupName, BackupShare, Claim, Exchange, OwnShare, Report, Round, SessionState, TxEntry,
};
use ordered_set::Set;
use ordered_table::Table;
use part_model::NearEntry;
use partition_store::Stores;
use std::alloc::Global;
use std::marker::Model;

/// What a node keeps between two acts beside its copies, its lock queues, its near caches and the readers of its keys.
#[derive(Debug, Drop)]
pub struct NodeParts {
    pub me: NodeId,
    /// How many acts the node has done.
    pub acts: u64,
    /// The clock.
    pub now: u64,
    /// The caches of the scenario.
    pub caches: List<Cache>,

    /// How many topology events the node has read, or learned when it joined.
    pub read: u64,
    /// The last topology version that the node has seen, and its members by age.
    pub seen: TopVer,
    pub members: List<Member>,
    /// The caches that run in that version.
    pub running: Set<u32>,
    /// The nodes that this node has seen leave.
    pub left: Set<NodeId>,
    pub installed: Option<PartMap>,
    /// The last version that was opened here.
    pub opened: Option<TopVer>,

    /// The node's sessions, by their number.
    pub session_states: Table<u32, SessionState>,
    /// The transactions that were started here and have not ended, or whose fault is not told yet.
    pub txs: Table<TxId, TxEntry>,

    /// The last number that was drawn for an entry's version.
    pub order: u64,
    /// This primary's own shares.
    pub shares: Table<TxId, OwnShare>,
    /// The shares held for other primaries.
    pub backups: Table<BackupName, BackupShare>,

    /// The last version for which a Single was sent.
    pub single_sent: Option<TopVer>,
    /// The Singles that came, in their order.
    pub singles: List<Single>,
    /// The exchange that this node coordinates, until another version is seen.
    pub exchange: Option<Exchange>,
    /// The partitions whose copies are filled here under the installed map.
    pub complete: Set<u32>,
    /// The claims that came under the installed map or a later one.
    pub claims: Set<Claim>,

    pub round: Option<Round>,
    /// The lists of orphans that came.
    pub reports: List<Report>,
    /// The verdicts that this node has given.
    pub verdicts: Table<TxId, bool>,

    /// The messages that wait to be sent, the oldest first.
    pub outbox: List<Out>,
    /// The records noted in the act in work.
    pub noted: List<Rec>,
}

/// A node of the cluster, made of its parts, which contracts see as its state. The handlers of the protocol are functions over
/// it; want of memory in a handler leaves a node that is of no further use.
#[derive(Debug, Drop)]
pub struct Node {
    pub alloc: Global,
    /// The copies of all partitions, by their number.
    pub(crate) stores: Stores,
    /// For each key that is held the transactions at its lock: the first owns it, the others wait.
    pub(crate) queues: Queues,
    /// For each key the nodes to which updates of it go.
    pub(crate) readers: Readers,
    /// The near cache of each cache that has one, the most recent entry first.
    pub(crate) near: Nears,
    pub(crate) state: NodeParts,
}

impl Model for Node {
    ghost use Rattle.node_state.specs.Node.{NodeState};

    ghost Value = { NodeState };

    ghost view = { λ node. record {
      me = node.state.me;
      acts = node.state.acts;
      now = node.state.now;
      caches = node.state.caches;
      read = node.state.read;
      seen = node.state.seen;
      members = node.state.members;
      running = node.state.running;
      left = node.state.left;
      installed = node.state.installed;
      opened = node.state.opened;
      session_states = node.state.session_states;
      txs = node.state.txs;
      near = node.near;
      stores = node.stores;
      queues = node.queues;
      readers = node.readers;
      order = node.state.order;
      shares = node.state.shares;
      backups = node.state.backups;
      single_sent = node.state.single_sent;
      singles = node.state.singles;
      exchange = node.state.exchange;
      complete = node.state.complete;
      claims = node.state.claims;
      round = node.state.round;
      reports = node.state.reports;
      verdicts = node.state.verdicts;
      outbox = node.state.outbox;
      noted = node.state.noted;
    } };
}

impl Node {
    /// A node with these copies at which no key is held or read.
    pub fn new(alloc: Global, stores: Stores, parts: NodeParts) -> Node
        ensures { result ≡ begun_node stores parts }
    {
        Node {
            alloc,
            stores,
            queues: Queues::new(alloc),
            readers: Readers::new(alloc),
            near: Nears::new(alloc),
            state: parts,
        }
    }
}
