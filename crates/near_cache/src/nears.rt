//! The near caches of a node.

ghost use Rattle.std.specs.Ordering.{nat_cmp};
ghost use Rattle.std.specs.Prelude.{◌≡◌, ◌<◌, [], IfOk, None, OnOk, Option, Some, unwrap_or};
ghost use Rattle.part_model.specs.NearEntries.{near_entry, near_front, near_put, near_updated};
ghost use Rattle.ordered_table.specs.Entries.{at, put};
ghost use Rattle.near_cache.specs.ByCache.{entries_in, near_at, with_near_at};
ghost use Rattle.near_cache.specs.Sized.{SizedNear, after_hit};

use crate::near::Near;
use hash_table::HashTable;
use ignite_types::{CacheVersion, Key, Mem, Value};
use part_model::NearEntry;
use std::alloc::Global;
use std::marker::Model;

/// The near caches of a node by the number of their cache, each made when the first entry comes. Contracts see of each its
/// entries, the one used last in front. Each call takes constant time on average.
#[derive(Debug, Drop)]
pub struct Nears {
    alloc: Global,
    caches: HashTable<u32, Option<Near>>,
}

impl Model for Nears {
    ghost use Rattle.near_cache.specs.ByCache.{NearCaches, entries_by_cache};

    ghost Value = { NearCaches };

    ghost view = { λ nears. entries_by_cache nears.caches };
}

/// Takes a near cache out, to be put back changed; none stands in its place.
#[tactic(auto, using(crate::proofs::CacheLaws::put_back))]
fn take_near(caches: &mut HashTable<u32, Option<Near>>, cache: u32) -> Option<Near>
    ensures near { result ≡ unwrap_or (at nat_cmp caches.old cache) None }
    ensures rest { (near : Option SizedNear) → put nat_cmp caches.new cache near ≡ put nat_cmp caches.old cache near }
{
    if caches.contains(&cache) {
        caches.replace(cache, None)
    } else {
        None
    }
}

/// The near cache once the entry of the key was used.
fn after_use(near: Option<Near>, key: &Key) -> Option<Near>
    ensures { entries_in result ≡ after_hit (entries_in near) key.now }
{
    match near {
        Some(mut near) => {
            let _found = near.hit(key);
            Some(near)
        }
        None => None,
    }
}

/// The near cache after an update.
fn after_update(
    near: Option<Near>,
    key: &Key,
    new: Option<Value>,
    ver: CacheVersion,
) -> Option<Near>
    ensures { entries_in result ≡ near_updated (entries_in near) key.now new ver }
{
    match near {
        Some(mut near) => {
            near.update(key, new, ver);
            Some(near)
        }
        None => None,
    }
}

/// The near cache, or a new one.
fn or_new(alloc: Global, near: Option<Near>, size: u32) -> Mem<Near>
    requires { 0 < size }
    ensures { IfOk result (λ made. made.entries ≡ entries_in near) }
{
    match near {
        Some(near) => Ok(near),
        None => Near::new(alloc, size),
    }
}

/// The same near cache once more, if there is one.
fn copied(near: &Option<Near>) -> Mem<Option<Near>>
    ensures { IfOk result (λ copy. copy ≡ near.now) }
{
    match near {
        Some(near) => Ok(Some(near.copy()?)),
        None => Ok(None),
    }
}

/// The near cache with an entry put in front.
fn after_put(alloc: Global, near: Option<Near>, size: u32, entry: &NearEntry) -> Mem<Option<Near>>
    ensures { IfOk result (λ kept. entries_in kept ≡ near_put size (entries_in near) entry.now) }
{
    if size == 0 {
        return Ok(None);
    }
    let mut kept = or_new(alloc, near, size)?;
    kept.put_within(size, entry.key, entry.value, entry.ver)?;
    Ok(Some(kept))
}

impl Nears {
    /// No entries; they take no memory.
    pub fn new(alloc: Global) -> Nears
        ensures { result ≡ [] }
    {
        Nears {
            alloc,
            caches: HashTable::new(alloc),
        }
    }

    /// The entry of the key, which stays where it is.
    #[tactic(auto, using(crate::proofs::CacheLaws::shown_near))]
    pub fn entry(&self, key: &Key) -> Option<NearEntry>
        ensures { result ≡ near_entry (near_at self.now key.now) key.now }
    {
        match self.caches.get(&key.cache()) {
            Some(Some(near)) => near.entry(key),
            _ => None,
        }
    }

    /// An entry that is there comes to the front; it takes no memory.
    #[tactic(auto, using(crate::proofs::CacheLaws::entry_in_cache, crate::proofs::CacheLaws::vacant_there, crate::proofs::CacheLaws::used_front))]
    pub fn use_entry(&mut self, key: &Key, entry: &NearEntry)
        requires there { near_entry (near_at self.old key.now) key.now ≡ Some entry.now }
        ensures { self.new ≡ with_near_at self.old key.now (near_front (near_at self.old key.now) entry.now) }
    {
        let cache = key.cache();
        let near = self.caches.replace(cache, None);
        let used = after_use(near, key);
        let _none = self.caches.replace(cache, used);
    }

    /// An entry is put in front of a near cache of this size; past the size the one that was used longest ago is dropped.
    #[tactic(auto, using(crate::proofs::CacheLaws::put_in_front))]
    pub fn put(&mut self, size: u32, entry: &NearEntry) -> Mem<()>
        ensures { OnOk result (self.new ≡ with_near_at self.old entry.now.key
            (near_put size (near_at self.old entry.now.key) entry.now)) }
    {
        let cache = entry.key.cache();
        let near = take_near(&mut self.caches, cache);
        let kept = after_put(self.alloc, near, size, entry)?;
        self.caches.set(cache, kept)
    }

    /// Changes the entry of the key at its place where its version is lower, or takes it out where the value was removed.
    #[tactic(auto, using(crate::proofs::CacheLaws::updated_there))]
    pub fn update(&mut self, key: &Key, new: Option<Value>, ver: CacheVersion) -> Mem<()>
        ensures { OnOk result (self.new ≡ with_near_at self.old key.now
            (near_updated (near_at self.old key.now) key.now new ver)) }
    {
        let cache = key.cache();
        let near = take_near(&mut self.caches, cache);
        let changed = after_update(near, key, new, ver);
        self.caches.set(cache, changed)
    }

    /// Takes all entries out.
    pub fn clear(&mut self)
        ensures { self.new ≡ [] }
    {
        self.caches.clear();
    }

    /// The same entries once more: one sort of the caches' numbers, and a look-up of each.
    pub fn copy(&self) -> Mem<Nears>
        ensures { IfOk result (λ copy. copy ≡ self.now) }
    {
        let alloc = self.alloc;
        // the length is asked for its clause that the numbers ascend
        let _count = self.caches.len();
        let numbers = self.caches.keys()?;
        let mut caches = HashTable::new(alloc);
        for number in numbers.as_slice() {
            match self.caches.get(number) {
                Some(near) => caches.set(*number, copied(near)?)?,
                None => unreachable!(),
            }
        }
        Ok(Nears { alloc, caches })
    }
}

#[cfg(test)]
mod tests {
    use super::*;
    use ignite_types::{NodeId, TopVer};
    use std::test::Fail;

    /// The entry of the key in a cache with this value, and a version of this order.
    fn entry(cache: u32, key: &[u8], value: &[u8], order: u64) -> Result<NearEntry, Fail> {
        Ok(NearEntry {
            key: Key::in_cache(cache, key)?,
            value: Value::read(value)?,
            ver: CacheVersion {
                top: TopVer { major: 1, minor: 0 },
                order,
                node: NodeId(1),
            },
        })
    }

    #[test]
    fn each_cache_has_entries_of_its_own(rt: HostRuntime) -> Result<(), Fail> {
        let (first, second) = (entry(0, b"a", b"1", 1)?, entry(0, b"b", b"2", 1)?);
        let other = entry(1, b"a", b"3", 1)?;
        let mut nears = Nears::new(rt.alloc());
        nears.update(&other.key, Some(other.value), other.ver)?;
        assert_eq!(rt; nears.entry(&other.key), None);
        nears.put(2, &first)?;
        nears.put(2, &second)?;
        nears.put(1, &other)?;
        if let Some(used) = nears.entry(&first.key) {
            nears.use_entry(&first.key, &used);
        }
        nears.put(2, &entry(0, b"c", b"4", 1)?)?;
        assert_eq!(rt; nears.entry(&first.key), Some(first));
        assert_eq!(rt; nears.entry(&second.key), None);
        nears.update(&first.key, None, entry(0, b"a", b"1", 2)?.ver)?;
        assert_eq!(rt; nears.entry(&first.key), None);
        assert_eq!(rt; nears.entry(&other.key), Some(other));
        let copy = nears.copy()?;
        nears.put(0, &other)?;
        assert_eq!(rt; nears.entry(&other.key), None);
        assert_eq!(rt; copy.entry(&other.key), Some(other));
        nears.clear();
        assert_eq!(rt; nears.entry(&entry(0, b"c", b"4", 1)?.key), None);
        Ok(())
    }
}
