//! Locks: the queues of the keys.

ghost use Rattle.std.specs.Prelude.{◌≡◌, ◌∷◌, [], OnOk, IfOk, length, nat_eq, slice_get};
ghost use Rattle.act_rows.specs.Locks.{after_leave, is_owner, owner_at, with_queued};
ghost use Rattle.part_model.specs.Queues.{edges_of, first_blocked, keys_queued_for, lists_of, queued_txs};

use crate::node::Node;
use ignite_types::{Key, List, Mem, TxId, Wait, Waiters};
use ordered_set::Set;

impl Node {
    /// The transaction stands at the end of the key's queue.
    pub fn enqueue(&mut self, tx: TxId, key: &Key) -> Mem<()>
        ensures { OnOk result (self.new ≡ with_queued self.old tx key.now) }
    {
        let _placed = self.queues.enqueue(*key, tx)?;
        Ok(())
    }

    /// The transaction that owns the key.
    pub fn owner(&self, key: &Key) -> Option<TxId>
        ensures { result ≡ owner_at self.now key.now }
    {
        self.queues.owner(key)
    }

    /// Whether the transaction owns the key.
    pub fn owns(&self, tx: &TxId, key: &Key) -> bool
        ensures { result ≡ is_owner tx.now (owner_at self.now key.now) }
    {
        match self.owner(key) {
            Some(owner) => *tx == owner,
            None => false,
        }
    }

    /// Takes the transaction out of the key's queue; it takes no memory.
    pub fn leave_queue(&mut self, tx: TxId, key: &Key)
        ensures { self.new ≡ after_leave self.old tx key.now }
    {
        self.queues.leave(tx, key);
    }

    /// All lock queues, by key.
    pub fn lock_queues(&self) -> Mem<List<Waiters>>
        ensures { IfOk result (λ lists. lists ≡ lists_of self.now.queues) }
    {
        self.queues.lists()
    }

    /// The keys in whose queues the transaction stands, in the keys' order.
    pub fn keys_of(&self, tx: TxId) -> Mem<List<Key>>
        ensures { IfOk result (λ keys. keys ≡ keys_queued_for self.now.queues tx) }
    {
        self.queues.keys_of(tx)
    }

    /// The waits of these transactions, by key and then place.
    pub fn edges_of(&self, of: &[TxId]) -> Mem<List<Wait>>
        ensures { IfOk result (λ waits. waits ≡ edges_of self.now.queues of.now) }
    {
        self.queues.edges(of)
    }

    /// The first of the transaction's waits, by key.
    pub fn first_wait(&self, tx: &TxId) -> Option<Wait>
        ensures { result ≡ slice_get (edges_of self.now.queues (tx.now ∷ [])) 0 }
    {
        self.queues.first_wait(tx)
    }

    /// The first of these keys that another transaction owns, with its owner.
    pub fn first_blocked(&self, keys: &[Key], tx: &TxId) -> Option<(Key, TxId)>
        ensures { result ≡ first_blocked self.now.queues keys.now tx.now }
    {
        self.queues.first_blocked(keys, *tx)
    }

    /// Each transaction that stands in some queue, once, ascending.
    pub fn standing(&self) -> Mem<Set<TxId>>
        ensures { IfOk result (λ set. set ≡ queued_txs self.now.queues) }
    {
        Ok(Set::from_list(self.queues.standing()?))
    }

    /// Whether no key is held.
    pub fn is_free(&self) -> bool
        ensures { result ≡ nat_eq (length self.now.queues) 0 }
    {
        self.queues.len() == 0
    }
}
