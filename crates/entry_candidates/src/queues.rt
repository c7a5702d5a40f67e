//! The queues with their index.

ghost use Rattle.std.specs.Prelude.{◌≡◌, ◌∷◌, [], IfOk, IfErr, None, OnErr, OnOk, length, slice_get};
ghost use Rattle.part_model.specs.Queues.{edges_of, first_blocked, keys_queued_for, lists_of, owner_in, queue_in, queued_txs, queues_with, queues_without};
ghost use Rattle.entry_candidates.specs.Gathering.{wait_among};
ghost use Rattle.entry_candidates.specs.Owning.{Explains, enqueued_each, is_owned_by, next_owner, placed_behind, queues_after_release, taken_back, waits_at, without_last_in, without_waiter_in};

use crate::answers::{OwnFault, Placed};
use crate::places::Places;
use crate::queue_table::QueueTable;
use ignite_types::{Key, List, Mem, NoMemory, TxId, Wait, Waiters};
use std::alloc::Global;
use std::marker::Model;

/// For each key that is held the transactions at its lock: the first owns it, the others wait. An index tells of each
/// transaction where it stands, so that what concerns one costs nothing for the others.
#[derive(Debug, Drop)]
pub struct Queues {
    queues: QueueTable,
    places: Places,
}

impl Model for Queues {
    ghost use Rattle.part_model.specs.Queues.{Queues as QueuesValue};
    ghost use Rattle.entry_candidates.specs.Placing.{IsIndexed};

    ghost Value = { QueuesValue };

    ghost view = { λ all. all.queues };

    ghost invariant = { λ all. IsIndexed all.queues all.places };
}

/// What a place behind this owner is.
fn placed_behind(owner: Option<TxId>) -> Placed
    ensures { result ≡ placed_behind owner }
{
    match owner {
        Some(owner) => Placed::Waits(owner),
        None => Placed::Owner,
    }
}

/// The transaction's first wait at one of these keys.
fn wait_among(queues: &QueueTable, tx: &TxId, table: &[(Key, bool)]) -> Option<Wait>
    ensures { result ≡ wait_among queues.now tx.now table.now }
{
    for (key, _) in table {
        if let Some(wait) = queues.wait(tx, key) {
            return Some(wait);
        }
    }
    None
}

impl Queues {
    /// No queues; they take no memory.
    pub fn new(alloc: Global) -> Queues
        ensures { result ≡ [] }
    {
        Queues {
            queues: QueueTable::new(alloc),
            places: Places::new(alloc),
        }
    }

    /// The transaction stands at the end of the key's queue: it owns the key where nobody else stood there. Constant time
    /// on average and, for the index, logarithmic time in the number of keys at which it stands. Where memory is wanting
    /// nothing changes.
    pub fn enqueue(&mut self, key: Key, tx: TxId) -> Mem<Placed>
        ensures queues { OnOk result (self.new ≡ queues_with self.old tx key) }
        ensures placed { IfOk result (λ placed. placed ≡ placed_behind (owner_in self.old key)) }
        ensures err { OnErr result (self.new ≡ self.old) }
    {
        let owner = self.queues.owner(&key);
        self.queues.push(&key, tx)?;
        match self.places.set(tx, key, owner.is_some()) {
            Ok(()) => Ok(placed_behind(owner)),
            Err(NoMemory) => {
                let _tx = self.queues.pop(&key);
                Err(NoMemory)
            }
        }
    }

    /// The first of these keys that another transaction owns, with its owner: constant time on average for each key.
    pub fn first_blocked(&self, keys: &[Key], tx: TxId) -> Option<(Key, TxId)>
        ensures { result ≡ first_blocked self.now keys.now tx }
    {
        for key in keys {
            if let Some(owner) = self.queues.other_owner(key, &tx) {
                return Some((*key, owner));
            }
        }
        None
    }

    /// Takes the last one of the key's queue out.
    fn take_last(&mut self, key: &Key)
        ensures { self.new ≡ without_last_in self.old key.now }
    {
        if let Some(tx) = self.queues.pop(key) {
            let place = self.queues.place(&tx, key);
            self.places.settle(tx, *key, place);
        }
    }

    /// Takes the last one of each of these queues out, that of the last key first.
    fn take_back(&mut self, keys: &[Key])
        ensures { self.new ≡ taken_back self.old keys.now }
    {
        let mut place = keys.len();
        while place > 0 {
            place -= 1;
            self.take_last(&keys[place]);
        }
    }

    /// The transaction stands at the end of each of these queues.
    fn enqueue_each(&mut self, keys: &[Key], tx: TxId) -> Mem<()>
        ensures ok { OnOk result (self.new ≡ enqueued_each self.old tx keys.now) }
        ensures err { OnErr result (self.new ≡ self.old) }
    {
        // the field is looked at for what the invariant says of it
        let _queues = &self.queues;
        for place in 0..keys.len() {
            match self.enqueue(keys[place], tx) {
                Ok(_placed) => {}
                Err(NoMemory) => {
                    self.take_back(&keys[..place]);
                    return Err(NoMemory);
                }
            }
        }
        Ok(())
    }

    /// The transaction stands at the end of each of these queues, in turn, where no other one owns one of the keys. It takes
    /// what the calls of `first_blocked` and `enqueue` take. Where another one owns a key, the first such key and its owner
    /// are answered, and then, and where memory is wanting, nothing changes.
    pub fn try_own(&mut self, keys: &[Key], tx: TxId) -> Result<(), OwnFault>
        ensures ok { OnOk result (self.new ≡ enqueued_each self.old tx keys.now) }
        ensures free { OnOk result (first_blocked self.old keys.now tx ≡ None) }
        ensures err { OnErr result (self.new ≡ self.old) }
        ensures fault { IfErr result (λ fault. Explains fault (first_blocked self.old keys.now tx)) }
    {
        if let Some((key, owner)) = self.first_blocked(keys, tx) {
            return Err(OwnFault::Blocked(key, owner));
        }
        match self.enqueue_each(keys, tx) {
            Ok(()) => Ok(()),
            Err(NoMemory) => Err(OwnFault::NoMemory),
        }
    }

    /// The owner of the key leaves, and the one that has waited longest owns it then, which is answered. Of one that does
    /// not own the key nothing changes. It takes linear time in the queue, and no memory.
    pub fn release(&mut self, tx: TxId, key: &Key) -> Option<TxId>
        ensures queues { self.new ≡ queues_after_release self.old tx key.now }
        ensures next { result ≡ next_owner self.old tx key.now }
    {
        if !self.queues.is_owner(&tx, key) {
            return None;
        }
        self.queues.leave(tx, key);
        self.places.settle(tx, *key, None);
        match self.queues.owner(key) {
            Some(next) => {
                let place = self.queues.place(&next, key);
                self.places.settle(next, *key, place);
                Some(next)
            }
            None => None,
        }
    }

    /// How many keys are held.
    pub fn len(&self) -> usize
        ensures { result ≡ length self.now }
    {
        self.queues.len()
    }

    /// The transaction that owns the key: constant time on average.
    pub fn owner(&self, key: &Key) -> Option<TxId>
        ensures { result ≡ owner_in self.now key.now }
    {
        self.queues.owner(key)
    }

    /// Whether the transaction owns the key: constant time on average.
    pub fn is_owner(&self, tx: &TxId, key: &Key) -> bool
        ensures { result ≡ is_owned_by tx.now (owner_in self.now key.now) }
    {
        self.queues.is_owner(tx, key)
    }

    /// The transaction leaves the key's queue, be it the owner or one that waits. It takes linear time in the queue, and no
    /// memory.
    #[tactic(auto, using(crate::proofs::Leaving::other_left))]
    pub fn leave(&mut self, tx: TxId, key: &Key)
        ensures { self.new ≡ queues_without self.old tx key.now }
    {
        if self.is_owner(&tx, key) {
            let _next = self.release(tx, key);
        } else {
            let _stood = self.drop_waiting(tx, key);
        }
    }

    /// Takes the transaction out of those that wait behind the key's owner, and answers whether it was among them. It takes
    /// linear time in the queue, and no memory.
    pub fn drop_waiting(&mut self, tx: TxId, key: &Key) -> bool
        ensures queues { self.new ≡ without_waiter_in self.old tx key.now }
        ensures stood { result ≡ waits_at self.old tx key.now }
    {
        if !self.queues.waits(&tx, key) {
            return false;
        }
        self.queues.drop_waiter(tx, key);
        let kept = self.queues.place(&tx, key);
        self.places.settle(tx, *key, kept);
        true
    }

    /// The waits of these transactions, by key and then place. It reads the queues of those keys alone at which one of them
    /// waits.
    pub fn edges(&self, of: &[TxId]) -> Mem<List<Wait>>
        ensures { IfOk result (λ waits. waits ≡ edges_of self.now of.now) }
    {
        let keys = self.places.waited_by(of)?;
        self.queues.waits_at(&keys, of)
    }

    /// The first wait of the transaction, by key. It reads the queues of the keys alone at which it stands, and takes no
    /// memory.
    pub fn first_wait(&self, tx: &TxId) -> Option<Wait>
        ensures { result ≡ slice_get (edges_of self.now (tx.now ∷ [])) 0 }
    {
        wait_among(&self.queues, tx, self.places.table(tx))
    }

    /// Each transaction that stands in some queue, once, ascending: one pass over the index and one sort.
    pub fn standing(&self) -> Mem<List<TxId>>
        ensures { IfOk result (λ txs. txs ≡ queued_txs self.now) }
    {
        self.places.txs()
    }

    /// The keys in whose queues the transaction stands, in the keys' order: linear time in their number.
    pub fn keys_of(&self, tx: TxId) -> Mem<List<Key>>
        ensures { IfOk result (λ keys. keys ≡ keys_queued_for self.now tx) }
    {
        self.places.keys(&tx)
    }

    /// All queues, by key: one pass and one sort of the keys.
    pub fn lists(&self) -> Mem<List<Waiters>>
        ensures { IfOk result (λ lists. lists ≡ lists_of self.now) }
    {
        self.queues.lists()
    }

    /// The same queues once more: a pass over them and a pass over the index, each with a sort of the keys.
    pub fn copy(&self) -> Mem<Queues>
        ensures { IfOk result (λ copy. copy ≡ self.now) }
    {
        Ok(Queues {
            queues: self.queues.copy()?,
            places: self.places.copy()?,
        })
    }
}

#[cfg(test)]
mod tests {
    use super::*;
    use ignite_types::NodeId;
    use std::test::Fail;

    fn tx(number: u64) -> TxId {
        TxId {
            node: NodeId(1),
            session: 1,
            number,
        }
    }

    /// The queues where one transaction owns the key and another one waits for it.
    fn held(alloc: Global, key: &Key) -> Mem<Queues> {
        let mut queues = Queues::new(alloc);
        queues.enqueue(*key, tx(1))?;
        queues.enqueue(*key, tx(2))?;
        Ok(queues)
    }

    /// Each row: who comes to the key, and as what it stands there.
    #[test]
    fn one_owns_and_the_others_wait(rt: HostRuntime) -> Result<(), Fail> {
        let key = Key::read(b"a")?;
        let rows = [(1, Placed::Owner), (2, Placed::Waits(tx(1)))];
        let mut queues = Queues::new(rt.alloc());
        for (number, placed) in rows {
            assert_eq!(rt; queues.enqueue(key, tx(number))?, placed, "{number}");
        }
        Ok(())
    }

    #[test]
    fn the_next_one_owns_what_is_released(rt: HostRuntime) -> Result<(), Fail> {
        let key = Key::read(b"a")?;
        let mut queues = held(rt.alloc(), &key)?;
        assert_eq!(rt; queues.edges(&[tx(2)])?.len(), 1);
        assert!(rt; !queues.drop_waiting(tx(3), &key));
        assert_eq!(rt; queues.release(tx(1), &key), Some(tx(2)));
        Ok(())
    }

    #[test]
    fn anyone_leaves(rt: HostRuntime) -> Result<(), Fail> {
        let key = Key::read(b"a")?;
        let mut queues = held(rt.alloc(), &key)?;
        let holder = queues.first_wait(&tx(2)).map(|wait| wait.holder);
        assert_eq!(rt; holder, queues.owner(&key));
        queues.leave(tx(1), &key);
        assert!(rt; queues.is_owner(&tx(2), &key));
        queues.leave(tx(2), &key);
        assert_eq!(rt; queues.len(), 0);
        Ok(())
    }

    #[test]
    fn lists_each_that_stands(rt: HostRuntime) -> Result<(), Fail> {
        let queues = held(rt.alloc(), &Key::read(b"a")?)?;
        let standing = queues.standing()?;
        assert_eq!(rt; standing.as_slice(), [tx(1), tx(2)].as_slice());
        Ok(())
    }

    #[test]
    fn lists_the_keys_of_one(rt: HostRuntime) -> Result<(), Fail> {
        let key = Key::read(b"a")?;
        let keys = held(rt.alloc(), &key)?.keys_of(tx(2))?;
        assert_eq!(rt; keys.as_slice(), [key].as_slice());
        Ok(())
    }

    #[test]
    fn a_copy_has_the_same_lists(rt: HostRuntime) -> Result<(), Fail> {
        let queues = held(rt.alloc(), &Key::read(b"a")?)?;
        assert_eq!(rt; queues.copy()?.lists()?, queues.lists()?);
        Ok(())
    }

    #[test]
    fn owns_all_keys_or_none(rt: HostRuntime) -> Result<(), Fail> {
        let keys = [Key::read(b"b")?, Key::read(b"a")?];
        let mut queues = held(rt.alloc(), &keys[1])?;
        let fault = OwnFault::Blocked(keys[1], tx(1));
        assert_eq!(rt; queues.try_own(&keys, tx(3)), Err(fault));
        assert_eq!(rt; queues.try_own(&keys[..1], tx(3)), Ok(()));
        Ok(())
    }
}
