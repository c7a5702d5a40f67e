//! The queues alone, by key.

ghost use Rattle.std.specs.Prelude.{◌≡◌, ◌++◌, [], IfOk, IsSome, MatchOption, OnErr, OnOk, length, slice_get, take, drop, ◌∷◌};
ghost use Rattle.part_model.specs.Queues.{Queues, is_queued, lists_of, other_owner, owner_in, queue_in, queue_without, queues_with, queues_without, waits_behind, waits_in, with_queue_in};
ghost use Rattle.ignite_types.specs.Names.{key_cmp};
ghost use Rattle.ordered_table.specs.Entries.{at};
ghost use Rattle.std.specs.List.{flat_map};
ghost use Rattle.entry_candidates.specs.Owning.{is_owned_by, waiters_in, without_last_in, without_waiter_in};
ghost use Rattle.entry_candidates.specs.Placing.{place_in_queue};
ghost use Rattle.entry_candidates.specs.Taking.{IsLast, TakesNoQueue, TakesQueue};

use hash_table::HashTable;
use ignite_types::{Key, List, Mem, TxId, Wait, Waiters};
use ordered_table::Table;
use std::alloc::Global;
use std::marker::Model;

/// The queues by key.
#[derive(Debug, Drop)]
pub struct QueueTable {
    alloc: Global,
    queues: HashTable<Key, List<TxId>>,
}

impl Model for QueueTable {
    ghost use Rattle.part_model.specs.Queues.{Queues};

    ghost Value = { Queues };

    ghost view = { λ table. table.queues };
}

/// Whether the transaction stands in the queue.
fn stands_in(tx: &TxId, queue: &[TxId]) -> bool
    ensures { result ≡ is_queued tx.now queue.now }
{
    queue.iter().any(|other| *tx == *other)
}

/// Takes the transaction out of the queue behind the first `from`; it takes no memory.
fn leave_behind(queue: &mut List<TxId>, from: usize, tx: TxId)
    ensures { queue.new ≡ take from queue.old ++ queue_without tx (drop from queue.old) }
{
    let mut place = queue.len();
    while place > from {
        place -= 1;
        if queue.as_slice()[place] == tx {
            queue.remove(place);
        }
    }
}

/// Those of the waiting ones that are listed, each waiting for the owner.
fn add_waits_behind(
    waits: &mut List<Wait>,
    key: &Key,
    owner: &TxId,
    of: &[TxId],
    waiters: &[TxId],
) -> Mem<()>
    ensures { OnOk result (waits.new ≡ waits.old ++ waits_behind key.now owner.now of.now waiters.now) }
{
    for waiter in waiters {
        if stands_in(waiter, of) {
            waits.push(Wait {
                key: *key,
                waiter: *waiter,
                holder: *owner,
            })?;
        }
    }
    Ok(())
}

/// The waits at one key of the transactions that are listed.
fn add_waits(waits: &mut List<Wait>, key: &Key, of: &[TxId], queue: &[TxId]) -> Mem<()>
    ensures { OnOk result (waits.new ≡ waits.old ++ waits_in key.now of.now queue.now) }
{
    match queue {
        [] => Ok(()),
        [owner, waiters @ ..] => add_waits_behind(waits, key, owner, of, waiters),
    }
}

/// The transaction's wait for the owner, where it is one of those that wait.
#[tactic(auto, using(crate::proofs::FirstWaits::first_behind, crate::proofs::FirstWaits::none_behind))]
fn wait_behind(tx: &TxId, key: &Key, owner: &TxId, waiters: &[TxId]) -> Option<Wait>
    ensures { result ≡ slice_get (waits_behind key.now owner.now (tx.now ∷ []) waiters.now) 0 }
{
    if stands_in(tx, waiters) {
        Some(Wait {
            key: *key,
            waiter: *tx,
            holder: *owner,
        })
    } else {
        None
    }
}

/// The transaction's wait in a key's queue.
fn wait_in(tx: &TxId, key: &Key, queue: &[TxId]) -> Option<Wait>
    ensures { result ≡ slice_get (waits_in key.now (tx.now ∷ []) queue.now) 0 }
{
    match queue {
        [] => None,
        [owner, waiters @ ..] => wait_behind(tx, key, owner, waiters),
    }
}

impl QueueTable {
    pub fn new(alloc: Global) -> QueueTable
        ensures { result ≡ [] }
    {
        QueueTable {
            alloc,
            queues: HashTable::new(alloc),
        }
    }

    /// The key's queue; where none is kept it is empty.
    fn queue(&self, key: &Key) -> &[TxId]
        ensures { result.now ≡ queue_in self.now key.now }
    {
        match self.queues.get(key) {
            Some(queue) => queue.as_slice(),
            None => &[],
        }
    }

    /// How many keys are held.
    pub fn len(&self) -> usize
        ensures { result ≡ length self.now }
    {
        self.queues.len()
    }

    pub fn owner(&self, key: &Key) -> Option<TxId>
        ensures { result ≡ owner_in self.now key.now }
    {
        self.queue(key).first().copied()
    }

    /// Whether the transaction owns the key.
    pub fn is_owner(&self, tx: &TxId, key: &Key) -> bool
        ensures { result ≡ is_owned_by tx.now (owner_in self.now key.now) }
    {
        match self.owner(key) {
            Some(owner) => *tx == owner,
            None => false,
        }
    }

    /// The owner, where it is another transaction than this.
    pub fn other_owner(&self, key: &Key, tx: &TxId) -> Option<TxId>
        ensures { result ≡ other_owner tx.now (owner_in self.now key.now) }
    {
        match self.owner(key) {
            Some(owner) if *tx != owner => Some(owner),
            _ => None,
        }
    }

    /// Where the transaction stands in the key's queue: whether behind the owner.
    pub fn place(&self, tx: &TxId, key: &Key) -> Option<bool>
        ensures { result ≡ place_in_queue (queue_in self.now key.now) tx.now }
    {
        match self.queue(key) {
            [] => None,
            [owner, waiters @ ..] => {
                if stands_in(tx, waiters) {
                    Some(true)
                } else if *tx == *owner {
                    Some(false)
                } else {
                    None
                }
            }
        }
    }

    /// Whether the transaction stands behind the key's owner.
    pub fn waits(&self, tx: &TxId, key: &Key) -> bool
        ensures { result ≡ is_queued tx.now (waiters_in (queue_in self.now key.now)) }
    {
        match self.queue(key) {
            [] => false,
            [_, waiters @ ..] => stands_in(tx, waiters),
        }
    }

    /// The transaction's wait at the key, where it stands behind the owner.
    pub fn wait(&self, tx: &TxId, key: &Key) -> Option<Wait>
        ensures { result ≡ slice_get (waits_in key.now (tx.now ∷ []) (queue_in self.now key.now)) 0 }
    {
        wait_in(tx, key, self.queue(key))
    }

    /// Takes a key's queue out, to be put back changed; an empty one stands in its place.
    fn take(&mut self, key: &Key) -> Option<List<TxId>>
        ensures { MatchOption result (TakesNoQueue self.old self.new key.now) (TakesQueue self.old self.new key.now) }
    {
        if self.queues.contains(key) {
            Some(self.queues.replace(*key, List::new(self.alloc)))
        } else {
            None
        }
    }

    /// Puts a key's queue into its place; an empty one is not kept.
    fn put_back(&mut self, key: &Key, queue: List<TxId>)
        requires { IsSome (at key_cmp self.old key.now) }
        ensures { self.new ≡ with_queue_in self.old key.now queue }
    {
        match queue.as_slice() {
            [] => {
                let _vacant = self.queues.remove(key);
            }
            _ => {
                let _vacant = self.queues.replace(*key, queue);
            }
        }
    }

    /// The transaction stands at the end of the key's queue.
    #[tactic(auto, using(crate::proofs::Named::key_put_put, crate::proofs::Named::key_put_there, crate::proofs::Named::key_put_back, crate::proofs::Named::queue_put))]
    pub fn push(&mut self, key: &Key, tx: TxId) -> Mem<()>
        ensures ok { OnOk result (self.new ≡ queues_with self.old tx key.now) }
        ensures err { OnErr result (self.new ≡ self.old) }
    {
        match self.take(key) {
            Some(mut queue) => {
                let pushed = queue.push(tx);
                let _vacant = self.queues.replace(*key, queue);
                pushed
            }
            None => {
                let mut queue = List::new(self.alloc);
                queue.push(tx)?;
                self.queues.set(*key, queue)
            }
        }
    }

    /// Takes the last one out of the key's queue.
    #[tactic(auto, using(crate::proofs::Named::key_put_there, crate::proofs::Named::queue_back, crate::proofs::Named::front_is, crate::proofs::Named::last_is, crate::proofs::Named::key_absent))]
    pub fn pop(&mut self, key: &Key) -> Option<TxId>
        ensures rest { self.new ≡ without_last_in self.old key.now }
        ensures last { MatchOption result (queue_in self.old key.now ≡ []) (IsLast (queue_in self.old key.now)) }
    {
        match self.take(key) {
            Some(mut queue) => {
                let last = queue.pop();
                self.put_back(key, queue);
                last
            }
            None => None,
        }
    }

    /// Takes the transaction out of the key's queue.
    #[tactic(auto, using(crate::proofs::Named::key_put_there, crate::proofs::Named::queue_back, crate::proofs::Named::key_absent))]
    pub fn leave(&mut self, tx: TxId, key: &Key)
        ensures { self.new ≡ queues_without self.old tx key.now }
    {
        if let Some(mut queue) = self.take(key) {
            leave_behind(&mut queue, 0, tx);
            self.put_back(key, queue);
        }
    }

    /// Takes the transaction out of those that wait behind the key's owner.
    #[tactic(auto, using(crate::proofs::Named::key_put_there, crate::proofs::Named::queue_back, crate::proofs::Named::key_absent))]
    pub fn drop_waiter(&mut self, tx: TxId, key: &Key)
        ensures { self.new ≡ without_waiter_in self.old tx key.now }
    {
        if let Some(mut queue) = self.take(key) {
            leave_behind(&mut queue, 1, tx);
            self.put_back(key, queue);
        }
    }

    /// The waits of the listed transactions at these keys.
    pub fn waits_at(&self, keys: &Table<Key, bool>, of: &[TxId]) -> Mem<List<Wait>>
        ensures { IfOk result (λ waits. waits ≡ flat_map (λ e. waits_in e.0 of.now (queue_in self.now e.0)) keys.now) }
    {
        let mut waits = List::new(self.alloc);
        for (key, _) in keys.as_slice() {
            add_waits(&mut waits, key, of, self.queue(key))?;
        }
        Ok(waits)
    }

    /// All queues, by key.
    pub fn lists(&self) -> Mem<List<Waiters>>
        ensures { IfOk result (λ lists. lists ≡ lists_of self.now) }
    {
        // the length is asked for its clause that the keys ascend
        let count = self.queues.len();
        let keys = self.queues.keys()?;
        let mut lists = List::with_capacity(self.alloc, count)?;
        for key in keys.as_slice() {
            lists.push(Waiters {
                key: *key,
                txs: List::from_slice(self.alloc, self.queue(key))?,
            })?;
        }
        Ok(lists)
    }

    /// The same queues once more.
    pub fn copy(&self) -> Mem<QueueTable>
        ensures { IfOk result (λ copy. copy ≡ self.now) }
    {
        // the length is asked for its clause that the keys ascend
        let _count = self.queues.len();
        let keys = self.queues.keys()?;
        let mut queues = HashTable::new(self.alloc);
        for key in keys.as_slice() {
            queues.set(*key, List::from_slice(self.alloc, self.queue(key))?)?;
        }
        Ok(QueueTable {
            alloc: self.alloc,
            queues,
        })
    }
}
