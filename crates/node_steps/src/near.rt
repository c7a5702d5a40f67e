//! Near caches at a starter: the entries of other nodes' partitions that were used last.

ghost use Rattle.std.specs.Prelude.{◌≡◌, [], OnOk, Some};
ghost use Rattle.part_model.specs.NearEntries.{near_entry, near_front, near_put, near_updated};
ghost use Rattle.act_rows.specs.Steps.{near_of, near_size, with_near};

use crate::node::Node;
use ignite_types::{CacheVersion, Key, Mem, Value};
use part_model::NearEntry;

impl Node {
    /// The near entry of a key, if there is one.
    pub fn near_entry(&self, key: &Key) -> Option<NearEntry>
        ensures { result ≡ near_entry (near_of self.now key.now) key.now }
    {
        self.near.entry(key)
    }

    /// A near entry that is there comes to the front; it takes no memory.
    pub fn use_near(&mut self, key: &Key, entry: &NearEntry)
        requires there { near_entry (near_of self.old key.now) key.now ≡ Some entry.now }
        ensures { self.new ≡ with_near self.old key.now (near_front (near_of self.old key.now) entry.now) }
    {
        self.near.use_entry(key, entry);
    }

    /// An entry is put in front; past the size of its cache the last one is dropped.
    pub fn keep_near(&mut self, entry: &NearEntry) -> Mem<()>
        ensures { OnOk result (self.new ≡ with_near self.old entry.now.key
            (near_put (near_size self.old entry.now.key) (near_of self.old entry.now.key) entry.now)) }
    {
        let size = self.near_size(&entry.key);
        self.near.put(size, entry)
    }

    /// An update changes an older entry at its place, and a removal takes it out.
    pub fn update_near(&mut self, key: &Key, new: &Option<Value>, ver: CacheVersion) -> Mem<()>
        ensures { OnOk result (self.new ≡ with_near self.old key.now
            (near_updated (near_of self.old key.now) key.now new.now ver)) }
    {
        self.near.update(key, *new, ver)
    }

    /// No near cache has an entry any more.
    pub fn clear_near(&mut self)
        ensures { self.new ≡ record self.old { near = [] } }
    {
        self.near.clear();
    }
}
