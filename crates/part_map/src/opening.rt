//! The map of the first version.

ghost use Rattle.std.specs.Prelude.{◌≡◌, ◌==◌, ◌++◌, map, IfOk, OnOk};
ghost use Rattle.std.specs.List.{list_any};
ghost use Rattle.ignite_types.specs.declared.scenario.Cache.{Cache};
ghost use Rattle.ignite_types.specs.Affinity.{bare_rows, ideal_rows, opening_map, opening_rows, rows_of_cache};

use ignite_types::{Cache, List, Mem, NodeId, PartMap, Row, TopVer};
use rendezvous_affinity::ideal;
use std::alloc::Global;

/// Whether the cache of this number is among those that run.
fn runs(running: &[u32], number: usize) -> bool
    ensures { result ≡ list_any (λ r. r == number) running.now }
{
    running.iter().any(|r| *r as usize == number)
}

/// Each cache's number of partitions.
pub(crate) fn parts_of(alloc: Global, caches: &[Cache]) -> Mem<List<u32>>
    ensures { IfOk result (λ parts. parts ≡ map (λ (c : Cache). c.parts) caches.now) }
{
    let mut parts = List::new(alloc);
    for cache in caches {
        parts.push(cache.parts)?;
    }
    Ok(parts)
}

/// Adds rows for so many partitions, with their ideal owners.
fn push_ideal(
    alloc: Global,
    rows: &mut List<Row>,
    servers: &[NodeId],
    backups: u32,
    parts: u32,
) -> Mem<()>
    ensures { OnOk result (rows.new ≡ rows.old ++ ideal_rows servers.now backups 0 parts) }
{
    for part in 0..parts {
        let owners = List::from_vec(ideal(alloc, part, servers, backups)?);
        let movers = List::new(alloc);
        rows.push(Row { owners, movers })?;
    }
    Ok(())
}

/// Adds rows for so many partitions, with no holders.
fn push_bare(alloc: Global, rows: &mut List<Row>, parts: u32) -> Mem<()>
    ensures { OnOk result (rows.new ≡ rows.old ++ bare_rows parts) }
{
    for _ in 0..parts {
        let owners = List::new(alloc);
        let movers = List::new(alloc);
        rows.push(Row { owners, movers })?;
    }
    Ok(())
}

/// Adds the rows of one cache.
fn push_cache(
    alloc: Global,
    rows: &mut List<Row>,
    servers: &[NodeId],
    runs: bool,
    cache: &Cache,
) -> Mem<()>
    ensures { OnOk result (rows.new ≡ rows.old ++ rows_of_cache servers.now runs cache.now) }
{
    if runs {
        push_ideal(alloc, rows, servers, cache.backups, cache.parts)
    } else {
        push_bare(alloc, rows, cache.parts)
    }
}

/// The rows of all of the caches.
pub(crate) fn opening_rows(
    alloc: Global,
    servers: &[NodeId],
    caches: &[Cache],
    running: &[u32],
) -> Mem<List<Row>>
    ensures { IfOk result (λ rows. rows ≡ opening_rows servers.now running.now 0 caches.now) }
{
    let mut rows = List::new(alloc);
    for (number, cache) in caches.iter().enumerate() {
        push_cache(alloc, &mut rows, servers, runs(running, number), cache)?;
    }
    Ok(rows)
}

/// The map of the first version: the partitions of the caches that run have their ideal owners, the others no holders,
/// and no copy is being filled.
pub fn opening_map(
    alloc: Global,
    top: TopVer,
    servers: &[NodeId],
    caches: &[Cache],
    running: &[u32],
) -> Mem<PartMap>
    ensures { IfOk result (λ m. m ≡ opening_map top servers.now caches.now running.now) }
{
    let parts = parts_of(alloc, caches)?;
    let rows = opening_rows(alloc, servers, caches, running)?;
    Ok(PartMap { top, parts, rows })
}

#[cfg(test)]
mod tests {
    use super::*;
    use std::test::Fail;

    #[test]
    fn opens_with_ideal_owners(rt: HostRuntime) -> Result<(), Fail> {
        let alloc = rt.alloc();
        let cache = Cache {
            name: List::from_slice(alloc, b"default")?,
            parts: 1,
            backups: 1,
            near: 0,
            first: true,
            data: false,
        };
        let top = TopVer { major: 1, minor: 0 };
        let servers = [NodeId(1), NodeId(2)];
        let map = opening_map(alloc, top, &servers, &[cache], &[0])?;
        assert_eq!(rt; map.parts.as_slice(), [1].as_slice());
        for row in map.rows.as_slice() {
            assert_eq!(rt; row.owners.as_slice(), servers.as_slice());
            assert!(rt; row.movers.is_empty());
        }
        assert_eq!(rt; map.rows.len(), 1);
        Ok(())
    }
}
