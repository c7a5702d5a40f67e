//! A near cache.

ghost use Rattle.std.specs.Prelude.{◌≡◌, ◌<◌, ◌≤◌, [], IfOk, OnErr, OnOk};
ghost use Rattle.std.specs.Map.{set_value};
ghost use Rattle.std.specs.NonZero.{non_zero_usize_get};
ghost use Rattle.part_model.specs.NearEntries.{near_entry, near_put, near_updated};
ghost use Rattle.ignite_types.specs.Names.{same_key};
ghost use Rattle.lru.specs.LruCache.{lru_cache};
ghost use Rattle.near_cache.specs.Kept.{has_older, near_entry_of};
ghost use Rattle.near_cache.specs.Sized.{after_hit, hit};

use ignite_types::{CacheVersion, Key, Mem, Value};
use lru::LruCache;
use part_model::NearEntry;
use std::alloc::Global;
use std::marker::Model;
use std::num::NonZeroUsize;

/// What is kept at a key.
#[derive(Clone, Copy, Debug, PartialEq, Eq)]
pub struct Kept {
    value: Value,
    ver: CacheVersion,
}

/// The entries of other nodes' partitions that were used last, at most as many as its size. Each call but `copy` and
/// `clear` takes constant time on average; entries are held as they come, so a large size takes no memory by itself.
#[derive(Debug, Drop)]
pub struct Near {
    alloc: Global,
    entries: LruCache<Key, Kept>,
}

impl Model for Near {
    ghost use Rattle.near_cache.specs.Sized.{SizedNear};

    ghost Value = { SizedNear };

    ghost use Rattle.near_cache.specs.Kept.{near_entries};

    ghost view = { λ near. record { size = near.entries.cap; entries = near_entries near.entries.entries } };
}

/// Whether the key has an entry with a lower version.
fn has_older(entries: &LruCache<Key, Kept>, key: &Key, ver: CacheVersion) -> bool
    ensures { result ≡ has_older entries.now.entries key.now ver }
{
    match entries.peek(key) {
        Some(kept) => kept.ver < ver,
        None => false,
    }
}

/// Changes what is kept at the key, and leaves the order as it is.
fn renew(entries: &mut LruCache<Key, Kept>, key: &Key, kept: Kept)
    ensures { entries.new ≡ lru_cache (set_value (same_key key.now) entries.old.entries kept) entries.old.cap }
{
    if let Some(old) = entries.peek_mut(key) {
        *old = kept;
    }
}

/// What is kept, the entry used last in front.
fn listed(alloc: Global, entries: &LruCache<Key, Kept>) -> Mem<Vec<(Key, Kept)>>
    ensures { IfOk result (λ list. list.items ≡ entries.now.entries) }
{
    let list = entries
        .iter()
        .map(|(key, kept)| (*key, *kept))
        .collect(alloc)?;
    Ok(list)
}

/// The same cache once more. The entry used longest ago is put first, so that the others come in front of it.
fn copied(alloc: Global, entries: &LruCache<Key, Kept>) -> Mem<LruCache<Key, Kept>>
    ensures { IfOk result (λ copy. copy ≡ entries.now) }
{
    // the length is asked for its clause that the keys are distinct
    let _count = entries.len();
    let mut left = listed(alloc, entries)?;
    let mut copy = LruCache::sparse(alloc, entries.cap())?;
    while let Some((key, kept)) = left.pop() {
        copy.put(key, kept)?;
    }
    Ok(copy)
}

/// There is room for so many entries at least.
#[tactic(auto, using(crate::proofs::Entries::take_all))]
fn make_room(entries: &mut LruCache<Key, Kept>, size: NonZeroUsize)
    ensures same { entries.new.entries ≡ entries.old.entries }
    ensures room { non_zero_usize_get size ≤ entries.new.cap }
{
    // the length is asked for its clause that there are no more entries than there may be
    let _count = entries.len();
    if entries.cap().get() < size.get() {
        entries.resize(size);
    }
}

impl Near {
    /// An empty near cache of this size.
    pub fn new(alloc: Global, size: u32) -> Mem<Near>
        requires { 0 < size }
        ensures { IfOk result (λ near. near ≡ record { size = size; entries = [] }) }
    {
        match NonZeroUsize::new(size as usize) {
            Some(size) => Near::sized(alloc, size),
            None => unreachable!(),
        }
    }

    fn sized(alloc: Global, size: NonZeroUsize) -> Mem<Near>
        ensures { IfOk result (λ near. near ≡ record { size = non_zero_usize_get size; entries = [] }) }
    {
        let entries = LruCache::sparse(alloc, size)?;
        Ok(Near { alloc, entries })
    }

    /// The value and the version at the key, which comes to the front. It takes no memory.
    pub fn hit(&mut self, key: &Key) -> Option<(Value, CacheVersion)>
        ensures found { result ≡ hit self.old.entries key.now }
        ensures front { self.new ≡ record self.old { entries = after_hit self.old.entries key.now } }
    {
        // the length is asked for its clause that the keys are distinct
        let _count = self.entries.len();
        let kept = *self.entries.get(key)?;
        Some((kept.value, kept.ver))
    }

    /// Puts an entry in front, in place of one of its key; past the size the one that was used longest ago is dropped.
    /// Where there is no memory, nothing changes.
    pub fn put(&mut self, key: Key, value: Value, ver: CacheVersion) -> Mem<()>
        ensures ok { OnOk result (self.new
            ≡ record self.old { entries = near_put self.old.size self.old.entries (record { key = key; value = value; ver = ver }) }) }
        ensures err { OnErr result (self.new ≡ self.old) }
    {
        // the length is asked for its clause that the keys are distinct
        let _count = self.entries.len();
        self.entries.put(key, Kept { value, ver })?;
        Ok(())
    }

    /// Puts an entry in front, as `put` does, of a near cache that has this size from then on.
    pub fn put_within(&mut self, size: u32, key: Key, value: Value, ver: CacheVersion) -> Mem<()>
        requires { 0 < size }
        ensures { OnOk result (self.new
            ≡ record { size = size; entries = near_put size self.old.entries (record { key = key; value = value; ver = ver }) }) }
    {
        match NonZeroUsize::new(size as usize) {
            Some(size) => self.put_sized(size, key, Kept { value, ver }),
            None => unreachable!(),
        }
    }

    fn put_sized(&mut self, size: NonZeroUsize, key: Key, kept: Kept) -> Mem<()>
        ensures { OnOk result (self.new
            ≡ record { size = non_zero_usize_get size; entries = near_put (non_zero_usize_get size) self.old.entries (near_entry_of (key, kept)) }) }
    {
        make_room(&mut self.entries, size);
        // the length is asked for its clause that the keys are distinct
        let _count = self.entries.len();
        self.entries.put(key, kept)?;
        self.entries.resize(size);
        Ok(())
    }

    /// The entry of the key, which stays where it is.
    #[tactic(auto, using(crate::proofs::NearLaws::entry_kept))]
    pub fn entry(&self, key: &Key) -> Option<NearEntry>
        ensures { result ≡ near_entry self.now.entries key.now }
    {
        match self.entries.peek(key) {
            Some(kept) => Some(NearEntry {
                key: *key,
                value: kept.value,
                ver: kept.ver,
            }),
            None => None,
        }
    }

    /// Changes the entry of the key at its place where its version is lower, or takes it out where the value was removed.
    /// It takes no memory.
    pub fn update(&mut self, key: &Key, new: Option<Value>, ver: CacheVersion)
        ensures { self.new ≡ record self.old { entries = near_updated self.old.entries key.now new ver } }
    {
        // the length is asked for its clause that the keys are distinct
        let _count = self.entries.len();
        if !has_older(&self.entries, key, ver) {
            return;
        }
        match new {
            Some(value) => renew(&mut self.entries, key, Kept { value, ver }),
            None => {
                let _old = self.entries.pop(key);
            }
        }
    }

    /// Takes all entries out.
    pub fn clear(&mut self)
        ensures { self.new ≡ record self.old { entries = [] } }
    {
        self.entries.clear();
    }

    /// The same entries in the same order once more.
    pub fn copy(&self) -> Mem<Near>
        ensures { IfOk result (λ copy. copy ≡ self.now) }
    {
        let alloc = self.alloc;
        let entries = copied(alloc, &self.entries)?;
        Ok(Near { alloc, entries })
    }
}

#[cfg(test)]
mod tests {
    use super::*;
    use ignite_types::{NodeId, TopVer};
    use std::test::Fail;

    const TOP: TopVer = TopVer { major: 1, minor: 0 };

    #[derive(Clone, Copy, Debug)]
    enum Act {
        Put(&'static [u8]),
        Hit,
        Update(&'static [u8]),
        Remove,
    }

    fn version(order: u64) -> CacheVersion {
        CacheVersion {
            top: TOP,
            order,
            node: NodeId(1),
        }
    }

    /// Acts at the key with the version of this order.
    fn apply(near: &mut Near, act: Act, key: &Key, order: u64) -> Result<(), Fail> {
        match act {
            Act::Put(value) => near.put(*key, Value::read(value)?, version(order))?,
            Act::Hit => {
                let _found = near.hit(key);
            }
            Act::Update(value) => near.update(key, Some(Value::read(value)?), version(order)),
            Act::Remove => near.update(key, None, version(order)),
        }
        Ok(())
    }

    /// Each row: an act at a key with the version of an order, and the values at `a` and `b` from then on.
    #[test]
    fn keeps_what_was_used_last(rt: HostRuntime) -> Result<(), Fail> {
        let rows = [
            (Act::Put(b"1"), b"a", 1, Some(b"1"), None),
            (Act::Put(b"2"), b"b", 2, Some(b"1"), Some(b"2")),
            (Act::Hit, b"a", 0, Some(b"1"), Some(b"2")),
            (Act::Put(b"3"), b"c", 3, Some(b"1"), None),
            (Act::Update(b"4"), b"a", 1, Some(b"1"), None),
            (Act::Update(b"4"), b"a", 4, Some(b"4"), None),
            (Act::Put(b"5"), b"b", 5, None, Some(b"5")),
            (Act::Remove, b"b", 5, None, Some(b"5")),
            (Act::Remove, b"b", 6, None, None),
        ];
        let mut near = Near::new(rt.alloc(), 2)?;
        for (act, key, order, first, second) in rows {
            apply(&mut near, act, &Key::read(key)?, order)?;
            for (key, want) in [(b"a", first), (b"b", second)] {
                let mut copy = near.copy()?;
                let found = copy.hit(&Key::read(key)?);
                let value = found.as_ref().map(|found| found.0.bytes());
                assert_eq!(rt; value, want.map(|want| want.as_slice()), "{act:?} {order}");
            }
        }
        near.clear();
        assert_eq!(rt; near.hit(&Key::read(b"c")?), None);
        Ok(())
    }
}
