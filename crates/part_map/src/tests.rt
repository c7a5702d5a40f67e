//! Maps of few partitions, one after the other.

use crate::{PartMaps, next_map};
use ignite_types::{Cache, List, Mem, Member, NodeId, PartMap, Row, Share, Single, TopVer};
use std::alloc::Global;
use std::test::Fail;

const RUNNING: [u32; 1] = [0];

/// A cache of one partition and one backup.
fn cache(alloc: Global, name: &[u8]) -> Mem<Cache> {
    Ok(Cache {
        name: List::from_slice(alloc, name)?,
        parts: 1,
        backups: 1,
        near: 0,
        first: true,
        data: false,
    })
}

fn version(major: u64, minor: u64) -> TopVer {
    TopVer { major, minor }
}

fn nodes(alloc: Global, numbers: &[u32]) -> Mem<List<NodeId>> {
    let mut nodes = List::new(alloc);
    for number in numbers {
        nodes.push(NodeId(*number))?;
    }
    Ok(nodes)
}

fn row(alloc: Global, owners: &[u32], movers: &[u32]) -> Mem<Row> {
    let owners = nodes(alloc, owners)?;
    let movers = nodes(alloc, movers)?;
    Ok(Row { owners, movers })
}

/// The map of one cache's one partition.
fn map_of(alloc: Global, top: TopVer, owners: &[u32], movers: &[u32]) -> Mem<PartMap> {
    let parts = List::from_slice(alloc, &[1])?;
    let mut rows = List::new(alloc);
    rows.push(row(alloc, owners, movers)?)?;
    Ok(PartMap { top, parts, rows })
}

fn single(alloc: Global, from: u32, map: Option<PartMap>, complete: &[u32]) -> Mem<Single> {
    Ok(Single {
        from: NodeId(from),
        top: version(9, 0),
        map,
        complete: List::from_slice(alloc, complete)?,
    })
}

fn server(number: u32) -> Member {
    let node = NodeId(number);
    Member { node, server: true }
}

#[test]
fn fills_a_joined_server_and_then_makes_it_primary(rt: HostRuntime) -> Result<(), Fail> {
    let alloc = rt.alloc();
    let caches = [cache(alloc, b"default")?];
    let members = [server(1), server(2), server(3)];
    let first = PartMap::opening(
        alloc,
        version(1, 0),
        &[NodeId(1), NodeId(2)],
        &caches,
        &RUNNING,
    )?;
    assert_eq!(rt; first, map_of(alloc, version(1, 0), &[1, 2], &[])?);

    let singles = [
        single(alloc, 1, Some(first), &[])?,
        single(alloc, 3, None, &[])?,
    ];
    let joined = next_map(alloc, version(2, 0), &members, &caches, &RUNNING, &singles)?;
    assert_eq!(rt; joined, map_of(alloc, version(2, 0), &[1, 2], &[3])?);

    let singles = [single(alloc, 3, Some(joined), &[0])?];
    let last = next_map(alloc, version(2, 1), &members, &caches, &RUNNING, &singles)?;
    assert_eq!(rt; last, map_of(alloc, version(2, 1), &[3, 1], &[])?);

    let shares = last.shares(alloc, &[0])?;
    let primary = NodeId(3);
    let want = [1, 3].map(|number| Share {
        holder: NodeId(number),
        primary,
    });
    assert_eq!(rt; shares.as_slice(), want.as_slice());
    Ok(())
}

#[test]
fn counts_no_lost_owner_and_no_old_claim(rt: HostRuntime) -> Result<(), Fail> {
    let alloc = rt.alloc();
    let caches = [cache(alloc, b"default")?];
    let newest = map_of(alloc, version(3, 1), &[1, 2], &[3])?;
    let older = map_of(alloc, version(3, 0), &[2], &[3])?;
    let singles = [
        single(alloc, 3, Some(older), &[0])?,
        single(alloc, 2, Some(newest), &[])?,
    ];
    let members = [server(2), server(3)];
    let next = next_map(alloc, version(4, 0), &members, &caches, &RUNNING, &singles)?;
    assert_eq!(rt; next, map_of(alloc, version(4, 0), &[2], &[3])?);
    Ok(())
}

#[test]
fn starts_and_stops_caches(rt: HostRuntime) -> Result<(), Fail> {
    let alloc = rt.alloc();
    let caches = [cache(alloc, b"a")?, cache(alloc, b"b")?];
    let members = [server(1), server(2)];
    let opened = [NodeId(1), NodeId(2)];
    let before = PartMap::opening(alloc, version(1, 0), &opened, &caches, &[0])?;
    assert!(rt; before.runs(0) && !before.runs(1) && !before.runs(2));
    let singles = [single(alloc, 1, Some(before), &[])?];
    let next = next_map(alloc, version(1, 1), &members, &caches, &[1], &singles)?;
    assert!(rt; next.owners(0).is_empty() && next.movers(0).is_empty());
    assert_eq!(rt; next.owners(1), opened.as_slice());
    let runs = next.runs(1);
    assert!(rt; runs);
    assert_eq!(rt; next.primary(1), NodeId(1));
    Ok(())
}
