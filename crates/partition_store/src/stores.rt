//! The copies of all partitions.

ghost use Rattle.std.specs.Prelude.{◌≡◌, [], false, if◌then◌else◌, IfOk, length, replicate, slice_get, unwrap_or};
ghost use Rattle.std.specs.Borrow.{sem};
ghost use Rattle.std.specs.Option.{option_copied, option_copied_mut};
ghost use Rattle.partition_store.specs.Keeping.{copies_kept};
ghost use Rattle.partition_store.specs.Lending.{lends_copy};

use crate::store::Store;
use ignite_types::Mem;
use std::alloc::Global;
use std::marker::Model;

/// A copy for each partition, by the partition's number. Contracts see the list of the copies.
#[derive(Debug, Drop)]
pub struct Stores {
    stores: Vec<Store>,
    alloc: Global,
}

impl Model for Stores {
    ghost use Rattle.std.specs.Prelude.{List};
    ghost use Rattle.part_model.specs.Copies.{Copy};

    ghost Value = { List Copy };

    ghost view = { λ stores. stores.stores.items };
}

/// Empties the copy unless it is to stay.
fn keep_if(stays: Option<&bool>, store: &mut Store)
    ensures { store.new ≡ (if unwrap_or (option_copied stays.entry) false then store.old else []) }
{
    match stays {
        Some(true) => {}
        _ => store.clear(),
    }
}

/// Empties the copies that are not to stay.
fn keep_each(stay: &[bool], stores: &mut Vec<Store>)
    ensures { stores.new.items ≡ copies_kept stores.old.items stay.now }
{
    for (part, store) in stores.iter_mut().enumerate() {
        keep_if(stay.get(part), store);
    }
}

impl Stores {
    /// Empty copies of so many partitions.
    pub fn new(alloc: Global, parts: usize) -> Mem<Stores>
        ensures { IfOk result (λ stores. stores ≡ replicate parts []) }
    {
        let mut stores = Vec::with_capacity(alloc, parts)?;
        for part in 0..parts {
            let _number = part;
            stores.push(Store::new(alloc))?;
        }
        Ok(Stores { stores, alloc })
    }

    /// How many partitions there are.
    pub fn len(&self) -> usize
        ensures { result ≡ length self.now }
    {
        self.stores.len()
    }

    /// The copies, by their partitions' numbers.
    pub fn as_slice(&self) -> &[Store]
        ensures { result.now ≡ self.now }
    {
        self.stores.as_slice()
    }

    /// The copy of a partition.
    pub fn at(&self, part: u32) -> Option<&Store>
        ensures { option_copied result ≡ slice_get self.now part }
    {
        self.stores.get(part as usize)
    }

    /// The copy of a partition, to change it.
    pub fn at_mut(&mut self, part: u32) -> Option<&mut Store>
        ensures* writes_back { sem 𝓛 (lends_copy self.entry part result) }
        ensures value { option_copied_mut result ≡ slice_get self.old part }
    {
        self.stores.get_mut(part as usize)
    }

    /// Empties the copies that are not to stay, by the partitions' numbers, and those of which nothing is said; it takes no
    /// memory.
    pub fn keep(&mut self, stay: &[bool])
        ensures { self.new ≡ copies_kept self.old stay.now }
    {
        keep_each(stay, &mut self.stores);
    }

    /// The same copies once more.
    pub fn copy(&self) -> Mem<Stores>
        ensures { IfOk result (λ copy. copy ≡ self.now) }
    {
        let mut stores = Vec::with_capacity(self.alloc, self.stores.len())?;
        for store in &self.stores {
            stores.push(store.copy()?)?;
        }
        Ok(Stores {
            stores,
            alloc: self.alloc,
        })
    }
}

#[cfg(test)]
mod tests {
    use super::*;
    use ignite_types::{CacheVersion, Key, NodeId, Stored, TopVer, Value};
    use std::test::Fail;

    #[test]
    fn each_partition_has_a_copy_of_its_own(rt: HostRuntime) -> Result<(), Fail> {
        let mut stores = Stores::new(rt.alloc(), 3)?;
        let write = Stored {
            key: Key::read(b"a")?,
            value: Some(Value::read(b"1")?),
            ver: CacheVersion {
                top: TopVer { major: 1, minor: 0 },
                order: 1,
                node: NodeId(1),
            },
        };
        match stores.at_mut(1) {
            Some(store) => store.apply(write, false)?,
            None => assert!(rt; false),
        }
        let copy = stores.copy()?;
        assert_eq!(rt; copy.len(), 3);
        for part in 0..4u32 {
            let found = copy.at(part).map(|store| store.get(&write.key).is_some());
            let expected = if part < 3 { Some(part == 1) } else { None };
            assert_eq!(rt; found, expected);
        }
        assert!(rt; stores.at_mut(3).is_none());
        stores.keep([true].as_slice());
        let emptied = stores.at(1).map(|store| store.get(&write.key).is_none());
        assert_eq!(rt; emptied, Some(true));
        Ok(())
    }
}
