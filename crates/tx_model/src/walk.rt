//! The walk over a journal's records that finds a transaction's footprint.

ghost use Rattle.std.specs.Prelude.{◌≡◌, false, OnOk};
ghost use Rattle.ignite_types.specs.Names.{key_cmp};
ghost use Rattle.ordered_table.specs.Entries.{at};
ghost use Rattle.act_rows.specs.Accesses.{access_key};
ghost use Rattle.part_model.specs.Orders.{is_node};
ghost use Rattle.tx_model.specs.History as history;

use ignite_types::{
    Answer, CacheVersion, Command, Event, Found, Group, Key, Mem, Message, NodeId, Rec, TopVer,
    TxId, Value,
};
use ordered_set::Set;
use ordered_table::Table;
use session_scripts::added;
use std::alloc::Global;

/// A walk over a journal's records for one transaction.
#[derive(Debug, Drop)]
pub struct Walk {
    /// The transaction's version, once it has started.
    pub top: Option<TopVer>,
    /// How many transactions its session has started.
    pub started: u64,
    /// Whether the session's block is open.
    pub block: bool,
    /// Whether the block's fault was told, and its accesses are skipped.
    pub skipping: bool,
    /// The session's command that is not answered yet.
    pub called: Option<Command>,
    /// What the near cache knew of that command's key at its act.
    pub near_read: Option<(Value, CacheVersion)>,
    /// What was first found for it at each key.
    pub finds: Table<Key, Option<(Value, CacheVersion)>>,
    /// What its starter's near cache was last told of each key.
    pub near: Table<Key, Option<(Value, CacheVersion)>>,
    /// The transactions with a decision or a fault.
    pub overs: Set<TxId>,
    /// Whether it is decided for commit.
    pub committed: bool,
    pub reads: Table<Key, Option<Value>>,
    pub writes: Table<Key, Option<Value>>,
}

/// The key of an access.
pub fn access_key(command: &Command) -> Option<Key>
    ensures { result ≡ access_key command.now }
{
    match command {
        Command::Get(key) => Some(*key),
        Command::Put(key, _) => Some(*key),
        Command::Remove(key) => Some(*key),
        Command::Add(key, _) => Some(*key),
        _ => None,
    }
}

/// Whether an access so answered was done.
fn is_done(answer: &Answer) -> bool
    ensures { result ≡ history.is_done answer.now }
{
    match answer {
        Answer::Done => true,
        Answer::Found(_) => true,
        Answer::Absent => true,
        Answer::NotNumber => true,
        Answer::Overflow => true,
        _ => false,
    }
}

fn value_found(found: &Found) -> Option<Value>
    ensures { result ≡ history.value_found found.now }
{
    match found {
        Some((value, _)) => Some(*value),
        None => None,
    }
}

/// What an update tells of a key.
pub fn newly_found(new: &Option<Value>, ver: CacheVersion) -> Found
    ensures { result ≡ history.found_after_update new.now ver }
{
    match new {
        Some(value) => Some((*value, ver)),
        None => None,
    }
}

/// The node that takes a message in an event.
pub fn taker_of(event: &Event) -> Option<NodeId>
    ensures { result ≡ history.taker_of event.now }
{
    match event {
        Event::Act(node, _) => Some(*node),
        _ => None,
    }
}

impl Walk {
    /// Before the first record.
    pub fn new(alloc: Global) -> Walk
        ensures { result ≡ history.fresh_walk }
    {
        Walk {
            top: None,
            started: 0,
            block: false,
            skipping: false,
            called: None,
            near_read: None,
            finds: Table::new(alloc),
            near: Table::new(alloc),
            overs: Set::new(alloc),
            committed: false,
            reads: Table::new(alloc),
            writes: Table::new(alloc),
        }
    }

    /// What the near cache knows of a command's key.
    fn near_read_at(&self, command: &Command) -> Found
        ensures { result ≡ history.near_read_at self.now (access_key command.now) }
    {
        match access_key(command) {
            Some(key) => match self.near.get(&key) {
                Some(found) => *found,
                None => None,
            },
            None => None,
        }
    }

    /// The called command looks at the near cache.
    fn near_read(&mut self)
        ensures { self.new ≡ history.with_near_read self.old self.old.called }
    {
        if let Some(command) = &self.called {
            let found = self.near_read_at(command);
            self.near_read = found;
        }
    }

    /// A command is called; an access outside a block is a transaction of its own, unless it is skipped.
    fn call(&mut self, command: &Command)
        ensures { self.new ≡ history.walk_after_call self.old command.now }
    {
        if access_key(command).is_some() && !self.block && !self.skipping {
            self.started = self.started.saturating_add(1);
        }
        self.called = Some(*command);
    }

    /// A find: what was found first at the primary, or else what the near cache knew.
    fn find_of(&self, key: &Key) -> Found
        ensures { result ≡ history.find_of self.now key.now }
    {
        match self.finds.get(key) {
            Some(found) => *found,
            None => self.near_read,
        }
    }

    fn keep_first(&mut self, key: &Key, found: &Found) -> Mem<()>
        ensures { OnOk result (self.new ≡ history.walk_with_first_find self.old key.now found.now) }
    {
        self.finds.set(*key, *found)?;
        self.reads.set(*key, value_found(found))
    }

    /// A read is kept where it is the key's first, before any write of it.
    fn read(&mut self, key: &Key) -> Mem<()>
        ensures { OnOk result (self.new ≡ history.walk_with_read self.old key.now) }
    {
        match self.reads.get(key) {
            Some(_) => Ok(()),
            None => match self.writes.get(key) {
                Some(_) => Ok(()),
                None => {
                    let found = self.find_of(key);
                    self.keep_first(key, &found)
                }
            },
        }
    }

    /// The value before an access: the last own write of the key, or else its find.
    fn known_value(&self, key: &Key) -> Option<Value>
        ensures { result ≡ history.known_value self.now key.now }
    {
        match self.writes.get(key) {
            Some(new) => *new,
            None => value_found(&self.find_of(key)),
        }
    }

    fn write(&mut self, key: &Key, new: Option<Value>) -> Mem<()>
        ensures { OnOk result (self.new ≡ history.walk_with_write self.old key.now new) }
    {
        self.writes.set(*key, new)
    }

    fn add(&mut self, key: &Key, amount: i64) -> Mem<()>
        ensures { OnOk result (self.new ≡ history.walk_with_add self.old key.now amount) }
    {
        match added(&self.known_value(key), amount) {
            Ok(value) => self.write(key, Some(value)),
            Err(_) => Ok(()),
        }
    }

    /// An access is counted.
    pub fn access(&mut self, command: &Command) -> Mem<()>
        ensures { OnOk result (self.new ≡ history.walk_after_done_access self.old command.now) }
    {
        match command {
            Command::Get(key) => self.read(key),
            Command::Put(key, value) => self.write(key, Some(*value)),
            Command::Remove(key) => self.write(key, None),
            Command::Add(key, amount) => {
                self.read(key)?;
                self.add(key, *amount)
            }
            _ => Ok(()),
        }
    }

    /// An access of this transaction that was done is counted.
    fn count_access(&mut self, tx: &TxId, command: &Command, answer: &Answer) -> Mem<()>
        ensures { OnOk result (self.new ≡ history.walk_after_counted_access tx.now self.old command.now answer.now) }
    {
        if self.started == tx.number && is_done(answer) {
            self.access(command)
        } else {
            Ok(())
        }
    }

    /// A told fault of a block lets its further accesses be skipped.
    fn after_access(&mut self, answer: &Answer)
        ensures { self.new ≡ history.walk_after_told_fault self.old answer.now }
    {
        match answer {
            Answer::Failed(_) => {
                self.skipping = self.block || self.skipping;
                self.block = false;
            }
            _ => {}
        }
    }

    fn end_block(&mut self)
        ensures { self.new ≡ record self.old { block = false; skipping = false } }
    {
        self.block = false;
        self.skipping = false;
    }

    /// The call is answered.
    fn answer_call(&mut self, tx: &TxId, command: &Command, answer: &Answer) -> Mem<()>
        ensures { OnOk result (self.new ≡ history.walk_after_answer_to tx.now self.old command.now answer.now) }
    {
        match (command, answer) {
            (Command::Begin(_, _), Answer::Done) => {
                self.block = true;
                self.skipping = false;
                self.started = self.started.saturating_add(1);
                Ok(())
            }
            (Command::Begin(_, _), _) => Ok(()),
            (Command::Commit, _) => {
                self.end_block();
                Ok(())
            }
            (Command::Rollback, _) => {
                self.end_block();
                Ok(())
            }
            (Command::Close, _) => {
                self.end_block();
                Ok(())
            }
            _ => {
                self.count_access(tx, command, answer)?;
                self.after_access(answer);
                Ok(())
            }
        }
    }

    /// The pending call, if there is one, is answered.
    pub fn answer(&mut self, tx: &TxId, answer: &Answer) -> Mem<()>
        ensures { OnOk result (self.new ≡ history.walk_after_answer tx.now self.old self.old.called answer.now) }
    {
        let command = match &self.called {
            Some(command) => *command,
            None => return Ok(()),
        };
        self.answer_call(tx, &command, answer)?;
        self.called = None;
        self.near_read = None;
        Ok(())
    }

    /// The first find of a key counts, until the transaction is decided or has a fault.
    fn find(&mut self, tx: &TxId, asker: &TxId, key: &Key, found: &Found) -> Mem<()>
        ensures { OnOk result (self.new ≡ history.walk_after_find tx.now self.old asker.now key.now found.now) }
    {
        if asker == tx && !self.overs.contains(asker) {
            match self.finds.get(key) {
                Some(_) => Ok(()),
                None => self.finds.set(*key, *found),
            }
        } else {
            Ok(())
        }
    }

    fn tell_near(&mut self, key: &Key, found: &Found) -> Mem<()>
        ensures { OnOk result (self.new ≡ history.walk_with_near self.old key.now found.now) }
    {
        self.near.set(*key, *found)
    }

    /// A value for the near cache of the transaction's starter, until its own transaction is decided or has a fault.
    fn near_got(
        &mut self,
        tx: &TxId,
        to: Option<NodeId>,
        asker: &TxId,
        key: &Key,
        found: &Found,
    ) -> Mem<()>
        ensures { OnOk result (self.new ≡ history.walk_after_near_get tx.now self.old to asker.now key.now found.now) }
    {
        match found {
            Some(value) => {
                if is_node(tx.node, to) && !self.overs.contains(asker) {
                    self.near.set(*key, Some(*value))
                } else {
                    Ok(())
                }
            }
            None => Ok(()),
        }
    }

    fn near_told(
        &mut self,
        tx: &TxId,
        to: Option<NodeId>,
        key: &Key,
        new: &Option<Value>,
        ver: CacheVersion,
    ) -> Mem<()>
        ensures { OnOk result (self.new ≡ history.walk_after_near_update tx.now self.old to key.now new.now ver) }
    {
        if is_node(tx.node, to) {
            self.tell_near(key, &newly_found(new, ver))
        } else {
            Ok(())
        }
    }

    fn deliver(&mut self, tx: &TxId, to: Option<NodeId>, message: &Message) -> Mem<()>
        ensures { OnOk result (self.new ≡ history.walk_after_delivery tx.now self.old to message.now) }
    {
        match message {
            Message::LockOk {
                tx: asker,
                key,
                found,
            } => self.find(tx, asker, key, found),
            Message::GetOk {
                tx: asker,
                key,
                found,
            } => {
                self.find(tx, asker, key, found)?;
                self.near_got(tx, to, asker, key, found)
            }
            Message::NearUpdate {
                tx: _,
                key,
                new,
                ver,
            } => self.near_told(tx, to, key, new, *ver),
            _ => Ok(()),
        }
    }

    /// A command of this transaction's session is called.
    fn call_of_session(&mut self, command: &Command)
        ensures { self.new ≡ history.with_near_read_if_started (history.walk_after_call self.old command.now) self.old.top }
    {
        self.call(command);
        if self.top.is_some() {
            self.near_read();
        }
    }

    fn decide(&mut self, tx: &TxId, decided: &TxId, commit: bool) -> Mem<()>
        ensures { OnOk result (self.new ≡ history.walk_after_decide tx.now self.old decided.now commit) }
    {
        if decided == tx {
            self.committed = self.committed || commit;
        }
        self.overs.insert(*decided)
    }

    /// One record, walked for this transaction; `to` is the node that takes a message in its group.
    fn step(&mut self, tx: &TxId, to: Option<NodeId>, rec: &Rec) -> Mem<()>
        ensures { OnOk result (self.new ≡ history.walk_after_record tx.now to self.old rec.now) }
    {
        match rec {
            Rec::Call { session, command } => {
                if *session == tx.session {
                    self.call_of_session(command);
                }
                Ok(())
            }
            Rec::Answer { session, answer } => {
                if *session == tx.session {
                    self.answer(tx, answer)
                } else {
                    Ok(())
                }
            }
            Rec::Deliver { from: _, message } => self.deliver(tx, to, message),
            Rec::Start { tx: started, top } => {
                if started == tx {
                    self.top = Some(*top);
                    self.near_read();
                }
                Ok(())
            }
            Rec::Decide {
                tx: decided,
                commit,
            } => self.decide(tx, decided, *commit),
            Rec::Fault { tx: failed, .. } => self.overs.insert(*failed),
            _ => Ok(()),
        }
    }

    fn walk_group(&mut self, tx: &TxId, to: Option<NodeId>, recs: &[Rec]) -> Mem<()>
        ensures { OnOk result (self.new ≡ history.walk_after_records tx.now to self.old recs.now) }
    {
        for rec in recs {
            self.step(tx, to, rec)?;
        }
        Ok(())
    }

    /// All records of these groups, walked in their order.
    pub(crate) fn walk(&mut self, tx: &TxId, groups: &[Group]) -> Mem<()>
        ensures { OnOk result (self.new ≡ history.walk_after_groups tx.now self.old groups.now) }
    {
        for group in groups {
            self.walk_group(tx, taker_of(&group.event), group.recs.as_slice())?;
        }
        Ok(())
    }

    /// Where the transaction is committed its unanswered call counts too.
    pub(crate) fn count_called(&mut self, tx: &TxId) -> Mem<()>
        ensures { OnOk result (self.new ≡ history.walk_with_open_call tx.now self.old self.old.called) }
    {
        let command = match &self.called {
            Some(command) => *command,
            None => return Ok(()),
        };
        if self.committed && self.started == tx.number {
            self.access(&command)?;
        }
        Ok(())
    }
}

fn is_node(node: NodeId, other: Option<NodeId>) -> bool
    ensures { result ≡ is_node node other }
{
    match other {
        Some(other) => node == other,
        None => false,
    }
}
