//! The map itself.

ghost use Rattle.std.specs.Prelude.{◌≡◌, ◌↔◌, [], length, Some, None, IsSome, IsTrue, IfOk, IfErr, OnOk, OnErr, is_some};
ghost use Rattle.std.specs.Option.{option_copied};
ghost use Rattle.ordered_table.specs.Entries.{at, put, without};
ghost use Rattle.ordered_table.specs.Places.{IsAscending, IsFound, IsMissing};

use ignite_types::{Mem, NoMemory};
use std::alloc::Global;
use std::marker::Model;
use std::mem;

/// A map in the order of its keys, kept as a sorted vector: look-ups take logarithmic time, and a key above all others
/// is added at once.
#[derive(Debug, Drop)]
pub struct Table<K: Ord, V> {
    entries: Vec<(K, V)>,
}

impl<K: Ord, V> Model for Table<K, V> {
    ghost use Rattle.std.specs.Prelude.{List};
    ghost use Rattle.std.specs.Coded.{coded_list, coded×};
    ghost use Rattle.ordered_table.specs.Places.{IsAscending};

    ghost Value = { List (K × V) };

    ghost coded = { coded_list (coded× K.code V.code) };

    ghost view = { λ table. table.entries.items };

    ghost invariant = { λ table. IsAscending K.cmp table.entries.items };
}

impl<K: Ord, V> Table<K, V> {
    /// An empty map, which takes no memory.
    pub fn new(alloc: Global) -> Table<K, V>
        ensures { result ≡ [] }
    {
        Table {
            entries: Vec::new(alloc),
        }
    }

    pub fn len(&self) -> usize
        ensures { result ≡ length self.now }
    {
        self.entries.len()
    }

    pub fn is_empty(&self) -> bool
        ensures { IsTrue result ↔ (self.now ≡ []) }
    {
        self.entries.is_empty()
    }

    /// The entries, in the order of their keys.
    pub fn as_slice(&self) -> &[(K, V)]
        ensures value { result.now ≡ self.now }
        ensures ascending { IsAscending K.cmp self.now }
    {
        self.entries.as_slice()
    }
}

impl<K: Ord + Copy, V> Table<K, V> {
    /// The value at the key.
    pub fn get(&self, key: &K) -> Option<&V>
        ensures value { option_copied result ≡ at K.cmp self.now key.now }
        ensures variant { is_some result ≡ is_some (at K.cmp self.now key.now) }
    {
        match self.find(key) {
            Ok(place) => Some(&self.entries[place].1),
            Err(_) => None,
        }
    }

    /// The place of the key, or the one where it belongs.
    fn find(&self, key: &K) -> Result<usize, usize>
        ensures found { IfOk result (IsFound K.cmp self.now key.now) }
        ensures missing { IfErr result (IsMissing K.cmp self.now key.now) }
    {
        match self.entries.last() {
            Some(last) if last.0.cmp(key).is_lt() => Err(self.entries.len()),
            _ => self.entries.binary_search_by_key(key, |entry| entry.0),
        }
    }
}

impl<K: Ord + Copy, V: Drop> Table<K, V> {
    /// Puts the value at the key, in place of the one that was there.
    pub fn set(&mut self, key: K, value: V) -> Mem<()>
        ensures ok { OnOk result (self.new ≡ put K.cmp self.old key value) }
        ensures err { OnErr result (self.new ≡ self.old) }
    {
        match self.find(&key) {
            Ok(place) => {
                self.entries[place] = (key, value);
                Ok(())
            }
            Err(place) => {
                self.entries.insert(place, (key, value))?;
                Ok(())
            }
        }
    }

    /// Puts the value at the key and gives back the one that was there; it takes no memory.
    pub fn replace(&mut self, key: K, value: V) -> V
        requires { IsSome (at K.cmp self.old key) }
        ensures old { at K.cmp self.old key ≡ Some result }
        ensures new { self.new ≡ put K.cmp self.old key value }
    {
        match self.find(&key) {
            Ok(place) => {
                let (_, old) = mem::replace(&mut self.entries[place], (key, value));
                old
            }
            Err(_) => unreachable!(),
        }
    }

    /// Takes the key and its value out.
    pub fn remove(&mut self, key: &K) -> Option<V>
        ensures value { result ≡ at K.cmp self.old key.now }
        ensures rest { self.new ≡ without K.cmp self.old key.now }
    {
        match self.find(key) {
            Ok(place) => {
                let (_, old) = self.entries.remove(place);
                Some(old)
            }
            Err(_) => None,
        }
    }
}

#[cfg(test)]
mod tests {
    use super::*;
    use ignite_types::Key;
    use std::test::Fail;

    /// Puts the values at the keys, changes the first one and takes the last one out, known only by its bound.
    fn edited<K: Ord + Copy, V: Copy>(
        alloc: Global,
        keys: &[K; 3],
        values: &[V; 3],
    ) -> Mem<Table<K, V>> {
        let mut table = Table::new(alloc);
        for place in 0..3 {
            table.set(keys[place], values[place])?;
        }
        if table.get(&keys[0]).is_some() {
            let _old = table.replace(keys[0], values[2]);
        }
        let _last = table.remove(&keys[2]);
        Ok(table)
    }

    #[test]
    fn keeps_its_keys_in_order(rt: HostRuntime) -> Result<(), Fail> {
        let mut table: Table<u32, u32> = Table::new(rt.alloc());
        assert!(rt; table.is_empty());
        table.set(7, 1)?;
        table.set(4, 2)?;
        table.set(9, 3)?;
        table.set(7, 5)?;
        assert_eq!(rt; table.as_slice(), [(4, 2), (7, 5), (9, 3)].as_slice());
        assert_eq!(rt; table.len(), 3);
        assert_eq!(rt; table.get(&9).copied(), Some(3));
        assert_eq!(rt; table.replace(9, 6), 3);
        assert_eq!(rt; table.remove(&4), Some(2));
        assert_eq!(rt; table.remove(&5), None);
        assert_eq!(rt; table.as_slice(), [(7, 5), (9, 6)].as_slice());
        Ok(())
    }

    #[test]
    fn takes_any_ordered_key(rt: HostRuntime) -> Result<(), Fail> {
        let keys = [Key::read(b"b")?, Key::in_cache(1, b"a")?, Key::read(b"a")?];
        let table = edited(rt.alloc(), &keys, &[1u32, 2, 3])?;
        assert_eq!(rt; table.as_slice(), [(keys[0], 3), (keys[1], 2)].as_slice());
        Ok(())
    }
}
