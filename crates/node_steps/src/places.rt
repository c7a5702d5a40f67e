//! Where keys lie by the installed map, and what the node's copies have there.

ghost use Rattle.std.specs.Prelude.{◌≡◌, OnOk, slice_get};
ghost use Rattle.std.specs.Borrow.{sem};
ghost use Rattle.std.specs.Option.{option_copied, option_copied_mut};
ghost use Rattle.part_model.specs.Copies.{absent_version};
ghost use Rattle.partition_store.specs.Keeping.{copies_kept};
ghost use Rattle.node_steps.specs.Lending.{lends_copy};
ghost use Rattle.act_rows.specs.Steps.{installed_top, is_filling, is_holder, is_holder_in, is_installed, is_mover_in, is_open, near_size, partition_of, primary_at, rows_of};
ghost use Rattle.act_rows.specs.Stores.{after_apply_each, found_at, version_of, with_stored};

use crate::node::Node;
use crate::nodes::has_node;
use ignite_types::{CacheVersion, Found, Key, Mem, NodeId, Rec, Row, Stored, TopVer, TxId};
use partition_store::Store;

/// The version of what was found; of nothing the least one.
pub fn version_of(found: &Found) -> CacheVersion
    ensures { result ≡ version_of found.now }
{
    match found {
        Some((_, ver)) => *ver,
        None => absent_version(),
    }
}

/// The version of an absent entry.
pub fn absent_version() -> CacheVersion
    ensures { result ≡ absent_version }
{
    CacheVersion {
        top: TopVer { major: 0, minor: 0 },
        order: 0,
        node: NodeId(0),
    }
}

impl Node {
    /// The version of the installed map; 0.0 where none is installed.
    pub fn installed_top(&self) -> TopVer
        ensures { result ≡ installed_top self.now }
    {
        match &self.state.installed {
            Some(map) => map.top,
            None => TopVer { major: 0, minor: 0 },
        }
    }

    /// Whether the map of this version is installed.
    pub fn is_installed(&self, top: TopVer) -> bool
        ensures { result ≡ is_installed self.now top }
    {
        self.state.installed.is_some() && self.installed_top() == top
    }

    /// Whether the last version seen is open here.
    pub fn is_open(&self) -> bool
        ensures { result ≡ is_open self.now self.now.opened }
    {
        match self.state.opened {
            Some(top) => top == self.state.seen,
            None => false,
        }
    }

    /// The partition of a key by the installed map; 0 where none is installed.
    pub fn partition(&self, key: &Key) -> u32
        ensures { result ≡ partition_of self.now key.now }
    {
        match &self.state.installed {
            Some(map) => map.part_of(key),
            None => 0,
        }
    }

    /// The key's primary by the installed map, where its cache runs there.
    pub fn primary_at(&self, key: &Key) -> Option<NodeId>
        ensures { result ≡ primary_at self.now key.now }
    {
        match &self.state.installed {
            Some(map) => map.primary_of(key),
            None => None,
        }
    }

    /// The row of a partition in the installed map.
    pub fn row(&self, part: usize) -> Option<&Row>
        ensures { option_copied result ≡ slice_get (rows_of self.now) part }
    {
        match &self.state.installed {
            Some(map) => map.rows.get(part),
            None => None,
        }
    }

    /// Whether a node has a copy of the key's partition by the installed map.
    pub fn holds(&self, node: NodeId, key: &Key) -> bool
        ensures { result ≡ is_holder self.now node key.now }
    {
        match self.row(self.partition(key) as usize) {
            Some(row) => {
                has_node(row.owners.as_slice(), node) || has_node(row.movers.as_slice(), node)
            }
            None => false,
        }
    }

    /// Whether this node's copy of a partition is being filled.
    pub fn is_filling(&self, part: u32) -> bool
        ensures { result ≡ is_filling self.now part }
    {
        match self.row(part as usize) {
            Some(row) => has_node(row.movers.as_slice(), self.state.me),
            None => false,
        }
    }

    /// The near size of a key's cache; 0 where it has no near cache.
    pub fn near_size(&self, key: &Key) -> u32
        ensures { result ≡ near_size self.now key.now }
    {
        match self.state.caches.get(key.cache() as usize) {
            Some(cache) => cache.near,
            None => 0,
        }
    }

    /// What the node's copy of the key's partition has at the key.
    pub fn found_at(&self, key: &Key) -> Found
        ensures { result ≡ found_at self.now key.now }
    {
        let store = self.stores.at(self.partition(key))?;
        store.get(key)
    }

    /// The copies of all partitions, by their numbers.
    pub fn copies(&self) -> &[Store]
        ensures { result.now ≡ self.now.stores }
    {
        self.stores.as_slice()
    }

    /// The copy of a partition.
    pub fn copy_of(&self, part: u32) -> Option<&Store>
        ensures { option_copied result ≡ slice_get self.now.stores part }
    {
        self.stores.at(part)
    }

    /// The copy of a partition, to change it.
    pub fn copy_mut(&mut self, part: u32) -> Option<&mut Store>
        ensures* writes_back { sem 𝓛 (lends_copy self.entry part result) }
        ensures value { option_copied_mut result ≡ slice_get self.old.stores part }
    {
        self.stores.at_mut(part)
    }

    /// The copies of the partitions that are not to stay are emptied; it takes no memory.
    pub fn keep_copies(&mut self, stay: &[bool])
        ensures { self.new ≡ record self.old { stores = copies_kept self.old.stores stay.now } }
    {
        self.stores.keep(stay);
    }

    /// A write is done to the copy of its key's partition.
    #[tactic(auto, using(crate::proofs::Copies::set_nowhere))]
    pub fn store(&mut self, write: &Stored) -> Mem<()>
        ensures { OnOk result (self.new ≡ with_stored self.old write.now) }
    {
        let part = self.partition(&write.key);
        let filling = self.is_filling(part);
        let Some(store) = self.stores.at_mut(part) else {
            return Ok(());
        };
        store.apply(*write, filling)
    }

    /// Each write is done and noted, for the primary that drew its version.
    pub fn apply_all(
        &mut self,
        tx: TxId,
        top: TopVer,
        primary: NodeId,
        writes: &[Stored],
    ) -> Mem<()>
        ensures { OnOk result (self.new ≡ after_apply_each self.old tx top primary writes.now) }
    {
        for write in writes {
            self.store(write)?;
            let new = write.value;
            let ver = write.ver;
            let key = write.key;
            self.note(Rec::Apply {
                tx,
                top,
                primary,
                key,
                new,
                ver,
            })?;
        }
        Ok(())
    }
}
