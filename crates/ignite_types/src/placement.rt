//! Where partitions lie: the map of a topology version, and shares of transactions.

ghost use Rattle.std.specs.Prelude.{◌≡◌};
ghost use Rattle.std.specs.Option.{option_copied};
ghost use Rattle.ignite_types.specs.Placement.{capped_sum, first_owner, first_part, part_of, parts_at, place_of_hash, primary_of, row_of};

use crate::list::List;
use crate::names::{NodeId, TopVer};
use crate::text::Key;

/// The holders of one partition: its owners, the primary first, and the movers, whose copies are being filled.
#[derive(Debug, PartialEq, Drop)]
pub struct Row {
    pub owners: List<NodeId>,
    pub movers: List<NodeId>,
}

/// The map of a topology version. Partitions are numbered through all caches: `parts` has each cache's number of them,
/// and `rows` a row for each partition. A row of a cache that does not run has no owners and no movers.
#[derive(Debug, PartialEq, Drop)]
pub struct PartMap {
    pub top: TopVer,
    pub parts: List<u32>,
    pub rows: List<Row>,
}

/// One holder's part in a transaction for one primary.
#[derive(Clone, Copy, Debug, PartialEq, Eq, PartialOrd, Ord)]
pub struct Share {
    pub holder: NodeId,
    pub primary: NodeId,
}

/// How far a share has come.
#[derive(Clone, Copy, Debug, PartialEq, Eq)]
pub enum ShareState {
    Preparing,
    Prepared,
    Committed,
    Undoing,
}

impl Row {
    /// The first owner, where the partition's cache runs.
    pub fn first_owner(&self) -> Option<NodeId>
        ensures { result ≡ first_owner self.now }
    {
        self.owners.get(0).copied()
    }
}

/// The sum of these numbers; it stands still at the end of its type.
fn capped_sum(numbers: &[u32]) -> u32
    ensures { result ≡ capped_sum 0 numbers.now }
{
    let mut sum = 0u32;
    for number in numbers {
        sum = sum.saturating_add(*number);
    }
    sum
}

/// The place of a hash among so many partitions; 0 where there is none.
fn place_in(hash: u32, parts: u32) -> u32
    ensures { result ≡ place_of_hash hash parts }
{
    if parts == 0 { 0 } else { hash % parts }
}

impl PartMap {
    /// How many partitions a cache has; 0 where there is no such cache.
    pub fn parts_of(&self, cache: u32) -> u32
        ensures { result ≡ parts_at self.now.parts cache }
    {
        self.parts.get(cache as usize).copied().unwrap_or(0)
    }

    /// The number of a cache's first partition.
    pub fn first_part(&self, cache: u32) -> u32
        ensures { result ≡ first_part self.now.parts cache }
    {
        let parts = self.parts.as_slice();
        let before = parts.len().min(cache as usize);
        capped_sum(&parts[..before])
    }

    /// The key's partition.
    pub fn part_of(&self, key: &Key) -> u32
        ensures { result ≡ part_of self.now.parts key.now }
    {
        let place = place_in(key.hash(), self.parts_of(key.cache));
        self.first_part(key.cache).saturating_add(place)
    }

    /// The row of the key's partition, where there is one.
    pub fn row_of(&self, key: &Key) -> Option<&Row>
        ensures { option_copied result ≡ row_of self.now key.now }
    {
        self.rows.get(self.part_of(key) as usize)
    }

    /// The primary of the key's partition, where its cache runs.
    pub fn primary_of(&self, key: &Key) -> Option<NodeId>
        ensures { result ≡ primary_of self.now key.now }
    {
        self.row_of(key)?.first_owner()
    }
}
