//! The walk over a journal's records that follows all transactions at once.

ghost use Rattle.std.specs.Prelude.{◌≡◌, [], Some, is_some, IfOk, OnOk};
ghost use Rattle.ignite_types.specs.Names.{key_cmp};
ghost use Rattle.ordered_table.specs.Entries.{at};
ghost use Rattle.tx_model.specs.History as history;
ghost use Rattle.tx_model.specs.Opening.{session_nodes_from};
ghost use Rattle.commit_history.specs.Steps as steps;
ghost use Rattle.commit_history.specs.Taking.{TakesNear, TakesWalk};

use crate::copies::copied;
use crate::line::Line;
use hash_table::HashTable;
use ignite_types::{
    Answer, Command, Found, Group, Journal, Key, Mem, Message, NodeId, Rec, Session, TopVer, TxId,
};
use ordered_table::Table;
use std::alloc::Global;
use tx_model::{CommitEntry, Walk, access_key, entry_of, footprint, newly_found, taker_of};

/// What is known after some records: of each session, of each node's near cache, of each transaction, and which ones are
/// decided or have a fault. Each record is counted in constant time on average.
#[derive(Debug, Drop)]
pub struct Walks {
    pub nodes: Table<u32, NodeId>,
    pub lines: Table<u32, Line>,
    pub near: Table<NodeId, HashTable<Key, Found>>,
    pub overs: HashTable<TxId, ()>,
    pub walks: HashTable<TxId, Walk>,
}

/// The node of each session, by its number.
pub fn nodes_of(alloc: Global, sessions: &[Session]) -> Mem<Table<u32, NodeId>>
    ensures { IfOk result (λ nodes. nodes ≡ session_nodes_from 1 [] sessions.now) }
{
    let mut nodes = Table::new(alloc);
    let mut number = 1u32;
    for session in sessions {
        nodes.set(number, session.node)?;
        number = number.saturating_add(1);
    }
    Ok(nodes)
}

/// The first find of a key counts.
fn find_first(walk: &mut Walk, key: &Key, found: &Found) -> Mem<()>
    ensures { OnOk result (walk.new ≡ history.walk_with_find walk.old key.now (at key_cmp walk.old.finds key.now) found.now) }
{
    match walk.finds.get(key) {
        Some(_) => Ok(()),
        None => walk.finds.set(*key, *found),
    }
}

impl Walks {
    /// Before the first record of a run of these sessions.
    pub fn new(alloc: Global, sessions: &[Session]) -> Mem<Walks>
        ensures { IfOk result (λ walks. walks ≡ steps.opening_walks sessions.now) }
    {
        Ok(Walks {
            nodes: nodes_of(alloc, sessions)?,
            lines: Table::new(alloc),
            near: Table::new(alloc),
            overs: HashTable::new(alloc),
            walks: HashTable::new(alloc),
        })
    }

    /// How a session stands; nothing for a number that no session has.
    fn line_of(&self, session: u32) -> Option<Line>
        ensures { result ≡ steps.session_line_of self.now session }
    {
        match self.lines.get(&session) {
            Some(line) => Some(*line),
            None => match self.nodes.get(&session) {
                Some(node) => Some(Line::new(*node)),
                None => None,
            },
        }
    }

    /// Takes out what is kept of a transaction, to be kept changed; a fresh walk stands in its place.
    fn take(&mut self, alloc: Global, tx: &TxId) -> Walk
        ensures walk { result ≡ steps.walk_of self.old tx.now }
        ensures rest { TakesWalk self.old self.new tx.now }
    {
        let fresh = Walk::new(alloc);
        if self.walks.contains(tx) {
            self.walks.replace(*tx, fresh)
        } else {
            fresh
        }
    }

    fn keep(&mut self, tx: &TxId, walk: Walk) -> Mem<()>
        ensures { OnOk result (self.new ≡ steps.with_walk self.old tx.now walk) }
    {
        self.walks.set(*tx, walk)
    }

    /// What the near cache of a node knows of a key.
    fn near_at(&self, node: &NodeId, key: &Key) -> Found
        ensures { result ≡ steps.near_told_at self.now node.now (Some key.now) }
    {
        match self.near.get(node) {
            Some(known) => match known.get(key) {
                Some(found) => *found,
                None => None,
            },
            None => None,
        }
    }

    /// What the near cache of a node knows of a command's key.
    fn near_read_of(&self, node: &NodeId, command: &Command) -> Found
        ensures { result ≡ steps.near_read_of self.now node.now command.now }
    {
        match access_key(command) {
            Some(key) => self.near_at(node, &key),
            None => None,
        }
    }

    fn near_read(&mut self, alloc: Global, tx: &TxId, command: &Command) -> Mem<()>
        ensures { OnOk result (self.new ≡ steps.walks_with_near_read self.old tx.now command.now) }
    {
        let near_read = self.near_read_of(&tx.node, command);
        let mut walk = self.take(alloc, tx);
        walk.near_read = near_read;
        self.keep(tx, walk)
    }

    fn has_started(&self, tx: &TxId) -> bool
        ensures { result ≡ is_some (steps.walk_of self.now tx.now).top }
    {
        match self.walks.get(tx) {
            Some(walk) => walk.top.is_some(),
            None => false,
        }
    }

    fn call(&mut self, alloc: Global, session: u32, command: &Command) -> Mem<()>
        ensures { OnOk result (self.new ≡ steps.walks_after_call self.old session command.now
            (steps.session_line_of self.old session)) }
    {
        let Some(mut line) = self.line_of(session) else {
            return Ok(());
        };
        line.call(command);
        let tx = line.current(session);
        self.lines.set(session, line)?;
        if self.has_started(&tx) {
            self.near_read(alloc, &tx, command)
        } else {
            Ok(())
        }
    }

    fn answer(&mut self, alloc: Global, session: u32, answer: &Answer) -> Mem<()>
        ensures { OnOk result (self.new ≡ steps.walks_after_answer self.old session answer.now
            (steps.session_line_of self.old session)) }
    {
        let Some(mut line) = self.line_of(session) else {
            return Ok(());
        };
        if line.called.is_none() {
            return Ok(());
        }
        let tx = line.current(session);
        let mut walk = self.take(alloc, &tx);
        line.join(&mut walk);
        walk.answer(&tx, answer)?;
        line.follow(&walk);
        self.keep(&tx, walk)?;
        self.lines.set(session, line)
    }

    /// The command that a transaction is about, where it is its session's last one.
    fn called_of(&self, tx: &TxId) -> Option<Command>
        ensures { result ≡ steps.open_call_of tx.now (steps.session_line_of self.now tx.now.session) }
    {
        match self.line_of(tx.session) {
            Some(line) if line.current(tx.session) == *tx => line.called,
            _ => None,
        }
    }

    fn start(&mut self, alloc: Global, tx: &TxId, top: TopVer) -> Mem<()>
        ensures { OnOk result (self.new ≡ steps.walks_after_start self.old tx.now top) }
    {
        let near_read = match self.called_of(tx) {
            Some(command) => Some(self.near_read_of(&tx.node, &command)),
            None => None,
        };
        let mut walk = self.take(alloc, tx);
        walk.top = Some(top);
        if let Some(near_read) = near_read {
            walk.near_read = near_read;
        }
        self.keep(tx, walk)
    }

    /// The first find of a key counts, until the transaction is decided or has a fault.
    fn find(&mut self, alloc: Global, tx: &TxId, key: &Key, found: &Found) -> Mem<()>
        ensures { OnOk result (self.new ≡ steps.walks_after_find self.old tx.now key.now found.now) }
    {
        if self.overs.contains(tx) {
            return Ok(());
        }
        let mut walk = self.take(alloc, tx);
        find_first(&mut walk, key, found)?;
        self.keep(tx, walk)
    }

    /// Takes out what the near cache of a node was told, to be kept changed.
    fn take_near(&mut self, alloc: Global, node: &NodeId) -> HashTable<Key, Found>
        ensures known { result ≡ steps.near_told_of self.old node.now }
        ensures rest { TakesNear self.old self.new node.now }
    {
        let fresh = HashTable::new(alloc);
        if self.near.get(node).is_some() {
            self.near.replace(*node, fresh)
        } else {
            fresh
        }
    }

    fn tell_near(&mut self, alloc: Global, to: &Option<NodeId>, key: &Key, found: &Found) -> Mem<()>
        ensures { OnOk result (self.new ≡ steps.walks_after_near_update self.old to.now key.now found.now) }
    {
        let Some(node) = to else {
            return Ok(());
        };
        let mut known = self.take_near(alloc, node);
        known.set(*key, *found)?;
        self.near.set(*node, known)
    }

    /// A value for the near cache of a node, until the transaction that asked for it is decided or has a fault.
    fn near_got(
        &mut self,
        alloc: Global,
        to: &Option<NodeId>,
        tx: &TxId,
        key: &Key,
        found: &Found,
    ) -> Mem<()>
        ensures { OnOk result (self.new ≡ steps.walks_after_near_get self.old to.now tx.now key.now found.now) }
    {
        if found.is_some() && !self.overs.contains(tx) {
            self.tell_near(alloc, to, key, found)
        } else {
            Ok(())
        }
    }

    fn deliver(&mut self, alloc: Global, to: &Option<NodeId>, message: &Message) -> Mem<()>
        ensures { OnOk result (self.new ≡ steps.walks_after_delivery self.old to.now message.now) }
    {
        match message {
            Message::LockOk { tx, key, found } => self.find(alloc, tx, key, found),
            Message::GetOk { tx, key, found } => {
                self.find(alloc, tx, key, found)?;
                self.near_got(alloc, to, tx, key, found)
            }
            Message::NearUpdate {
                tx: _,
                key,
                new,
                ver,
            } => self.tell_near(alloc, to, key, &newly_found(new, *ver)),
            _ => Ok(()),
        }
    }

    fn commit(&mut self, alloc: Global, tx: &TxId) -> Mem<()>
        ensures { OnOk result (self.new ≡ steps.walks_with_commit self.old tx.now) }
    {
        let mut walk = self.take(alloc, tx);
        walk.committed = true;
        self.keep(tx, walk)
    }

    fn decide(&mut self, alloc: Global, tx: &TxId, commit: bool) -> Mem<()>
        ensures { OnOk result (self.new ≡ steps.walks_after_decide self.old tx.now commit) }
    {
        if commit {
            self.commit(alloc, tx)?;
        }
        self.overs.set(*tx, ())
    }

    /// One record; `to` is the node that takes a message in its group.
    fn step(&mut self, alloc: Global, to: &Option<NodeId>, rec: &Rec) -> Mem<()>
        ensures { OnOk result (self.new ≡ steps.walks_after_record self.old to.now rec.now) }
    {
        match rec {
            Rec::Call { session, command } => self.call(alloc, *session, command),
            Rec::Answer { session, answer } => self.answer(alloc, *session, answer),
            Rec::Deliver { from: _, message } => self.deliver(alloc, to, message),
            Rec::Start { tx, top } => self.start(alloc, tx, *top),
            Rec::Decide { tx, commit } => self.decide(alloc, tx, *commit),
            Rec::Fault { tx, .. } => self.overs.set(*tx, ()),
            _ => Ok(()),
        }
    }

    fn walk_group(&mut self, alloc: Global, to: &Option<NodeId>, recs: &[Rec]) -> Mem<()>
        ensures { OnOk result (self.new ≡ steps.walks_after_records self.old to.now recs.now) }
    {
        for rec in recs {
            self.step(alloc, to, rec)?;
        }
        Ok(())
    }

    /// All records of these groups, in their order.
    pub fn walk(&mut self, alloc: Global, groups: &[Group]) -> Mem<()>
        ensures { OnOk result (self.new ≡ steps.walks_after_groups self.old groups.now) }
    {
        for group in groups {
            self.walk_group(alloc, &taker_of(&group.event), group.recs.as_slice())?;
        }
        Ok(())
    }

    /// What is kept of a transaction, once more.
    fn copy_of(&self, alloc: Global, tx: &TxId) -> Mem<Walk>
        ensures { IfOk result (λ walk. walk ≡ steps.walk_of self.now tx.now) }
    {
        match self.walks.get(tx) {
            Some(walk) => copied(alloc, walk),
            None => Ok(Walk::new(alloc)),
        }
    }

    fn home_entry(&self, alloc: Global, tx: &TxId, line: &Line) -> Mem<CommitEntry>
        ensures { IfOk result (λ entry. entry ≡ steps.entry_of_line self.now tx.now line.now) }
    {
        let mut walk = self.copy_of(alloc, tx)?;
        line.join(&mut walk);
        entry_of(alloc, &mut walk, tx)
    }

    /// What a transaction read and wrote by all records of the journal, which were walked before; these are the nodes of its
    /// sessions. A transaction of another node than its session's, of which no run has one, is walked for alone.
    pub fn entry(
        &self,
        alloc: Global,
        journal: &Journal,
        nodes: &Table<u32, NodeId>,
        tx: &TxId,
    ) -> Mem<CommitEntry>
        ensures { IfOk result (λ entry. entry ≡ steps.entry_of_walks nodes.now self.now journal.now.groups tx.now) }
    {
        match nodes.get(&tx.session) {
            Some(node) if *node == tx.node => match self.line_of(tx.session) {
                Some(line) => self.home_entry(alloc, tx, &line),
                None => footprint(alloc, journal, *tx),
            },
            _ => footprint(alloc, journal, *tx),
        }
    }
}
