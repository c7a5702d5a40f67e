//! The calls on a map by a partition's number.

ghost use Rattle.std.specs.Prelude.{◌≡◌, ◌<◌, length, slice_get, IsTrue, IfOk};
ghost use Rattle.ignite_types.specs.declared.placement.PartMap.{PartMap};
ghost use Rattle.ignite_types.specs.Affinity as affinity;
ghost use Rattle.part_map.specs.Maps.{movers_at, owners_at, runs};
ghost use Rattle.part_map.specs.Shares.{shares_of_parts};

use crate::opening::opening_map;
use crate::shares::shares_of;
use ignite_types::{Cache, List, Mem, NodeId, PartMap, Share, TopVer};
use std::alloc::Global;

/// What a map says of partitions by their numbers.
pub trait PartMaps: Sized {
    // the map that the value is
    ghost map: { Self → PartMap };

    /// The map of the first version: see [`opening_map`].
    fn opening(
        alloc: Global,
        top: TopVer,
        servers: &[NodeId],
        caches: &[Cache],
        running: &[u32],
    ) -> Mem<Self>
        ensures { IfOk result (λ m. map m ≡ affinity.opening_map top servers.now caches.now running.now) };

    /// Whether the partition has an owner; one that is none of the map's has none.
    fn runs(&self, part: u32) -> bool
        ensures { result ≡ runs (map self.now) part };

    /// The partition's first owner.
    fn primary(&self, part: u32) -> NodeId
        requires { IsTrue (runs (map self.now) part) }
        ensures { slice_get (owners_at (map self.now) part) 0 ≡ Some result };

    /// The partition's owners, the primary first; none where the map has no such partition.
    fn owners(&self, part: u32) -> &[NodeId]
        ensures { result.now ≡ owners_at (map self.now) part };

    /// The nodes whose copies of the partition are being filled; none where the map has no such partition.
    fn movers(&self, part: u32) -> &[NodeId]
        ensures { result.now ≡ movers_at (map self.now) part };

    /// Each pair of a holder and the primary of a listed partition that it holds, once, in ascending order. A partition
    /// without a primary gives no pair.
    fn shares(&self, alloc: Global, parts: &[u32]) -> Mem<List<Share>>
        ensures { IfOk result (λ shares. shares ≡ shares_of_parts (map self.now) parts.now) };
}

impl PartMaps for PartMap {
    ghost map = { λ m. m };

    fn opening(
        alloc: Global,
        top: TopVer,
        servers: &[NodeId],
        caches: &[Cache],
        running: &[u32],
    ) -> Mem<PartMap> {
        opening_map(alloc, top, servers, caches, running)
    }

    fn runs(&self, part: u32) -> bool {
        !self.owners(part).is_empty()
    }

    fn primary(&self, part: u32) -> NodeId {
        self.owners(part)[0]
    }

    fn owners(&self, part: u32) -> &[NodeId] {
        match self.rows.get(part as usize) {
            Some(row) => row.owners.as_slice(),
            None => &[],
        }
    }

    fn movers(&self, part: u32) -> &[NodeId] {
        match self.rows.get(part as usize) {
            Some(row) => row.movers.as_slice(),
            None => &[],
        }
    }

    fn shares(&self, alloc: Global, parts: &[u32]) -> Mem<List<Share>> {
        shares_of(alloc, self.rows.as_slice(), parts)
    }
}
