//! One partition's copy: what it has at a key, what a write does to it, and how it is filled in batches.

ghost use Rattle.std.specs.Prelude.{◌≡◌, ◌&&◌, [], OnOk, OnErr, IfOk, is_some, not, take, ℕ};
ghost use Rattle.part_model.specs.Copies.{batch_of, copy_after_supply, copy_after_write, entries_of, found_in, is_after, is_last_batch, is_tombstone, with_kept, with_supplied_over, without_tombstones};
ghost use Rattle.part_model.specs.Orders.{is_lower};
ghost use Rattle.ignite_types.specs.Names.{key_cmp};
ghost use Rattle.ordered_table.specs.Entries.{at};

use hash_table::{EntryTest, HashTable};
use ignite_types::{CacheVersion, Found, Key, List, Mem, Stored};
use part_model::Entry;
use std::alloc::Global;
use std::cmp::Ordering;
use std::marker::Model;

/// One partition's copy. Contracts see the list of its entries by key. What speaks of one key takes constant time on
/// average.
#[derive(Debug, Drop)]
pub struct Store {
    entries: HashTable<Key, Entry>,
    alloc: Global,
}

impl Model for Store {
    ghost use Rattle.part_model.specs.Copies.{Copy};

    ghost Value = { Copy };

    ghost view = { λ store. store.entries };
}

/// Values with which another copy is filled, ascending by key, and whether none stands behind them.
#[derive(Debug, Drop)]
pub struct Batch {
    pub entries: List<Stored>,
    pub last: bool,
}

/// Passes the values after a key, or all.
#[derive(Clone, Copy)]
struct ValueAfter {
    after: Option<Key>,
}

impl EntryTest<Key, Entry> for ValueAfter {
    ghost passes = { λ test e. is_some e.1.value && is_after test.after e.0 };

    fn passes(&self, key: &Key, entry: &Entry) -> bool {
        entry.value.is_some() && is_after(&self.after, key)
    }
}

/// Passes what is no tombstone.
#[derive(Clone, Copy)]
struct IsNoMark;

impl EntryTest<Key, Entry> for IsNoMark {
    ghost passes = { λ _ e. not (is_tombstone e) };

    fn passes(&self, _key: &Key, entry: &Entry) -> bool {
        entry.value.is_some()
    }
}

fn is_after(after: &Option<Key>, key: &Key) -> bool
    ensures { result ≡ is_after after.now key.now }
{
    match after {
        Some(after) => match after.cmp(key) {
            Ordering::Less => true,
            _ => false,
        },
        None => true,
    }
}

fn is_lower(version: &CacheVersion, other: &CacheVersion) -> bool
    ensures { result ≡ is_lower version.now other.now }
{
    match version.cmp(other) {
        Ordering::Less => true,
        _ => false,
    }
}

/// The entries as they are supplied.
fn stored_entries(alloc: Global, entries: &[(Key, Entry)]) -> Mem<List<Stored>>
    ensures { IfOk result (λ stored. stored ≡ entries_of entries.now) }
{
    let mut stored = List::with_capacity(alloc, entries.len())?;
    for (key, entry) in entries {
        stored.push(Stored {
            key: *key,
            value: entry.value,
            ver: entry.ver,
        })?;
    }
    Ok(stored)
}

impl Store {
    /// An empty copy, which takes no memory.
    pub fn new(alloc: Global) -> Store
        ensures { result ≡ [] }
    {
        Store {
            entries: HashTable::new(alloc),
            alloc,
        }
    }

    /// The value at the key with its version; a tombstone is none.
    pub fn get(&self, key: &Key) -> Found
        ensures { result ≡ found_in self.now key.now }
    {
        let entry = self.entries.get(key)?;
        let value = entry.value?;
        Some((value, entry.ver))
    }

    /// Takes a write, unless what is there is newer. Of a removal a tombstone is kept while the copy is filled.
    pub fn apply(&mut self, write: Stored, filling: bool) -> Mem<()>
        ensures ok { OnOk result (self.new ≡ copy_after_write self.old write filling) }
        ensures err { OnErr result (self.new ≡ self.old) }
    {
        match self.entries.get(&write.key) {
            Some(there) => {
                if is_lower(&write.ver, &there.ver) {
                    Ok(())
                } else {
                    self.keep(&write, filling)
                }
            }
            None => self.keep(&write, filling),
        }
    }

    /// Keeps a written value; of a removal a tombstone while the copy is filled, else nothing.
    fn keep(&mut self, write: &Stored, filling: bool) -> Mem<()>
        ensures ok { OnOk result (self.new ≡ with_kept self.old write.now filling write.now.value) }
        ensures err { OnErr result (self.new ≡ self.old) }
    {
        let value = write.value;
        let ver = write.ver;
        match (write.value, filling) {
            (Some(_), _) => self.entries.set(write.key, Entry { value, ver }),
            (None, true) => self.entries.set(write.key, Entry { value, ver }),
            (None, false) => {
                let _removed = self.entries.remove(&write.key);
                Ok(())
            }
        }
    }

    /// The next values after a key, or from the first one on, at most so many: one pass over the copy.
    pub fn supply_batch(&self, after: Option<Key>, most: usize) -> Mem<Batch>
        ensures entries { IfOk result (λ batch. batch.entries ≡ batch_of self.now after most) }
        ensures last { IfOk result (λ batch. batch.last ≡ is_last_batch self.now after most) }
    {
        // one more than the batch shows whether it is the last
        let count = self.entries.len();
        let first = self
            .entries
            .least(most.min(count).saturating_add(1), &ValueAfter { after })?;
        let values = first.as_slice();
        let last = values.len() <= most;
        let shown = values.len().min(most);
        let entries = stored_entries(self.alloc, &values[..shown])?;
        Ok(Batch { entries, last })
    }

    /// Takes supplied entries, each where it is newer than what is there. Where memory ends, the first ones are taken.
    pub fn take_supplied(&mut self, entries: &[Stored]) -> Mem<()>
        ensures ok { OnOk result (self.new ≡ copy_after_supply self.old entries.now) }
        ensures err { OnErr result ((taken : ℕ) × (self.new ≡ copy_after_supply self.old (take taken entries.now))) }
    {
        for entry in entries {
            self.take_one(entry)?;
        }
        Ok(())
    }

    /// Takes a supplied entry where it is newer than what is there.
    fn take_one(&mut self, entry: &Stored) -> Mem<()>
        ensures ok { OnOk result (self.new ≡ with_supplied_over self.old entry.now (at key_cmp self.old entry.now.key)) }
        ensures err { OnErr result (self.new ≡ self.old) }
    {
        let value = entry.value;
        let ver = entry.ver;
        match self.entries.get(&entry.key) {
            Some(there) => {
                if is_lower(&there.ver, &entry.ver) {
                    self.entries.set(entry.key, Entry { value, ver })
                } else {
                    Ok(())
                }
            }
            None => self.entries.set(entry.key, Entry { value, ver }),
        }
    }

    /// Drops the tombstones, which a filled copy does not need; it takes no memory.
    pub fn drop_tombstones(&mut self)
        ensures { self.new ≡ without_tombstones self.old }
    {
        self.entries.retain(&IsNoMark);
    }

    /// Takes all entries out; it takes no memory.
    pub fn clear(&mut self)
        ensures { self.new ≡ [] }
    {
        self.entries.clear();
    }

    /// All values and tombstones by key: one sort of the keys.
    pub fn entries(&self) -> Mem<List<Stored>>
        ensures { IfOk result (λ entries. entries ≡ entries_of self.now) }
    {
        let entries = self.entries.entries()?;
        stored_entries(self.alloc, entries.as_slice())
    }

    /// A copy with the same entries.
    pub fn copy(&self) -> Mem<Store>
        ensures { IfOk result (λ copy. copy ≡ self.now) }
    {
        Ok(Store {
            entries: self.entries.copy()?,
            alloc: self.alloc,
        })
    }
}

#[cfg(test)]
mod tests {
    use super::*;
    use ignite_types::{NodeId, TopVer, Value};
    use std::test::Fail;

    /// A write of the text at the key with this order; no text is a removal.
    fn write(key: &[u8], text: &[u8], order: u64) -> Result<Stored, Fail> {
        let value = if text.is_empty() {
            None
        } else {
            Some(Value::read(text)?)
        };
        Ok(Stored {
            key: Key::read(key)?,
            value,
            ver: CacheVersion {
                top: TopVer { major: 1, minor: 0 },
                order,
                node: NodeId(1),
            },
        })
    }

    #[test]
    fn a_removed_key_stays_removed(rt: HostRuntime) -> Result<(), Fail> {
        let mut store = Store::new(rt.alloc());
        let removal = write(b"a", b"", 2)?;
        store.apply(removal, true)?;
        store.take_supplied([write(b"a", b"1", 1)?].as_slice())?;
        assert_eq!(rt; store.get(&removal.key), None);
        assert_eq!(rt; store.entries()?.as_slice(), [removal].as_slice());
        let batch = store.supply_batch(None, 16)?;
        assert!(rt; batch.last && batch.entries.is_empty());
        store.drop_tombstones();
        assert!(rt; store.entries()?.is_empty());
        Ok(())
    }

    #[test]
    fn the_seventeenth_value_comes_in_a_second_batch(rt: HostRuntime) -> Result<(), Fail> {
        let mut store = Store::new(rt.alloc());
        for place in 0..17u8 {
            store.apply(write([b'q' - place].as_slice(), b"1", 1)?, false)?;
        }
        let first = store.supply_batch(None, 16)?;
        assert_eq!(rt; first.entries.len(), 16);
        assert!(rt; !first.last);
        let after = first.entries.get(15).map(|entry| entry.key);
        assert_eq!(rt; after, Some(Key::read(b"p")?));
        let second = store.supply_batch(after, 16)?;
        assert_eq!(rt;
            second.entries.as_slice(),
            [write(b"q", b"1", 1)?].as_slice()
        );
        assert!(rt; second.last);
        let none = store.supply_batch(None, 0)?;
        assert!(rt; none.entries.is_empty() && !none.last);
        Ok(())
    }

    #[test]
    fn each_call_does_its_work(rt: HostRuntime) -> Result<(), Fail> {
        let mut store = Store::new(rt.alloc());
        let old = write(b"a", b"1", 2)?;
        let new = write(b"b", b"2", 2)?;
        store.apply(new, false)?;
        store.apply(write(b"b", b"3", 1)?, false)?;
        store.take_supplied([old, write(b"b", b"4", 1)?].as_slice())?;
        let copy = store.copy()?;
        assert_eq!(rt; copy.entries()?.as_slice(), [old, new].as_slice());
        assert_eq!(rt; copy.get(&new.key), new.value.map(|value| (value, new.ver)));
        store.apply(write(b"a", b"", 2)?, false)?;
        assert_eq!(rt; store.entries()?.as_slice(), [new].as_slice());
        store.clear();
        assert!(rt; store.entries()?.is_empty());
        Ok(())
    }
}
