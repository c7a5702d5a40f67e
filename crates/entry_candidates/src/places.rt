//! The index: where each transaction stands.

ghost use Rattle.std.specs.Prelude.{◌≡◌, [], IfOk, IsSome, MatchOption, OnErr, OnOk, Some};
ghost use Rattle.std.specs.Map.{keys_of};
ghost use Rattle.part_model.specs.Tables.{keys_in};
ghost use Rattle.ignite_types.specs.Names.{key_cmp, tx_cmp};
ghost use Rattle.ordered_table.specs.Entries.{at};
ghost use Rattle.ordered_table.specs.Places.{IsAscending};
ghost use Rattle.entry_candidates.specs.Gathering.{marked, waited_by};
ghost use Rattle.entry_candidates.specs.Placing.{table_of, with_place, with_table};
ghost use Rattle.entry_candidates.specs.Taking.{TakesNoTable, TakesTable};

use hash_table::HashTable;
use ignite_types::{Key, List, Mem, TxId};
use ordered_table::Table;
use std::alloc::Global;
use std::marker::Model;

/// For each transaction the keys in whose queues it stands, and whether behind the owner.
#[derive(Debug, Drop)]
pub struct Places {
    alloc: Global,
    tables: HashTable<TxId, Table<Key, bool>>,
}

impl Model for Places {
    ghost use Rattle.entry_candidates.specs.Placing.{Places as PlacesValue};

    ghost Value = { PlacesValue };

    ghost view = { λ places. places.tables };
}

/// Puts those keys of the table at which one waits among the marked ones.
fn mark(marks: &mut Table<Key, bool>, table: &[(Key, bool)]) -> Mem<()>
    ensures { OnOk result (marks.new ≡ marked marks.old table.now) }
{
    for (key, waits) in table {
        if *waits {
            marks.set(*key, *waits)?;
        }
    }
    Ok(())
}

/// The same table once more.
fn copied(alloc: Global, table: &[(Key, bool)]) -> Mem<Table<Key, bool>>
    requires { IsAscending key_cmp table.now }
    ensures { IfOk result (λ copy. copy ≡ table.now) }
{
    let mut copy = Table::new(alloc);
    for (key, waits) in table {
        copy.set(*key, *waits)?;
    }
    Ok(copy)
}

impl Places {
    pub fn new(alloc: Global) -> Places
        ensures { result ≡ [] }
    {
        Places {
            alloc,
            tables: HashTable::new(alloc),
        }
    }

    /// The keys in whose queues the transaction stands, each with whether behind the owner.
    pub fn table(&self, tx: &TxId) -> &[(Key, bool)]
        ensures value { result.now ≡ table_of self.now tx.now }
        ensures ascending { IsAscending key_cmp result.now }
    {
        match self.tables.get(tx) {
            Some(table) => table.as_slice(),
            None => &[],
        }
    }

    /// Takes a transaction's table out, to be put back changed; an empty one stands in its place.
    fn take(&mut self, tx: TxId) -> Option<Table<Key, bool>>
        ensures { MatchOption result (TakesNoTable self.old self.new tx) (TakesTable self.old self.new tx) }
    {
        if self.tables.contains(&tx) {
            Some(self.tables.replace(tx, Table::new(self.alloc)))
        } else {
            None
        }
    }

    /// Puts a transaction's table into its place; an empty one is not kept.
    fn put_back(&mut self, tx: TxId, table: Table<Key, bool>)
        requires { IsSome (at tx_cmp self.old tx) }
        ensures { self.new ≡ with_table self.old tx table }
    {
        match table.as_slice() {
            [] => {
                let _vacant = self.tables.remove(&tx);
            }
            _ => {
                let _vacant = self.tables.replace(tx, table);
            }
        }
    }

    /// The transaction stands at the key.
    #[tactic(auto, using(crate::proofs::Named::tx_put_put, crate::proofs::Named::tx_put_there, crate::proofs::Named::tx_put_back))]
    pub fn set(&mut self, tx: TxId, key: Key, waits: bool) -> Mem<()>
        ensures ok { OnOk result (self.new ≡ with_place self.old tx key (Some waits)) }
        ensures err { OnErr result (self.new ≡ self.old) }
    {
        match self.take(tx) {
            Some(mut table) => {
                let done = table.set(key, waits);
                let _vacant = self.tables.replace(tx, table);
                done
            }
            None => {
                let mut table = Table::new(self.alloc);
                table.set(key, waits)?;
                self.tables.set(tx, table)
            }
        }
    }

    /// Changes where the transaction stands at a key at which it stood, or takes the key out; it takes no memory.
    #[tactic(auto, using(crate::proofs::Named::tx_put_put, crate::proofs::Named::tx_put_there, crate::proofs::Named::tx_absent, crate::proofs::Named::table_back))]
    pub fn settle(&mut self, tx: TxId, key: Key, place: Option<bool>)
        requires { IsSome place → IsSome (at key_cmp (table_of self.old tx) key) }
        ensures { self.new ≡ with_place self.old tx key place }
    {
        match self.take(tx) {
            Some(mut table) => match place {
                Some(waits) => {
                    let _old = table.replace(key, waits);
                    let _vacant = self.tables.replace(tx, table);
                }
                None => {
                    let _old = table.remove(&key);
                    self.put_back(tx, table);
                }
            },
            None => {}
        }
    }

    /// The keys in whose queues the transaction stands, in their order.
    pub fn keys(&self, tx: &TxId) -> Mem<List<Key>>
        ensures { IfOk result (λ keys. keys ≡ keys_in (table_of self.now tx.now)) }
    {
        let mut keys = List::new(self.alloc);
        for (key, _) in self.table(tx) {
            keys.push(*key)?;
        }
        Ok(keys)
    }

    /// The transactions that stand anywhere, ascending.
    pub fn txs(&self) -> Mem<List<TxId>>
        ensures { IfOk result (λ txs. txs ≡ keys_of self.now) }
    {
        self.tables.keys()
    }

    /// The keys at which one of the listed transactions waits.
    pub fn waited_by(&self, txs: &[TxId]) -> Mem<Table<Key, bool>>
        ensures { IfOk result (λ marks. marks ≡ waited_by self.now [] txs.now) }
    {
        let mut marks = Table::new(self.alloc);
        for tx in txs {
            mark(&mut marks, self.table(tx))?;
        }
        Ok(marks)
    }

    /// The same places once more.
    pub fn copy(&self) -> Mem<Places>
        ensures { IfOk result (λ copy. copy ≡ self.now) }
    {
        // the length is asked for its clause that the names ascend
        let _count = self.tables.len();
        let txs = self.tables.keys()?;
        let mut tables = HashTable::new(self.alloc);
        for tx in txs.as_slice() {
            tables.set(*tx, copied(self.alloc, self.table(tx))?)?;
        }
        Ok(Places {
            alloc: self.alloc,
            tables,
        })
    }
}
