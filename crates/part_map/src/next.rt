//! The map of a version that follows another.

ghost use Rattle.std.specs.Prelude.{◌≡◌, ◌<◌, ◌≤◌, [], length, unwrap_or, IfOk};
ghost use Rattle.std.specs.Option.{option_copied};
ghost use Rattle.part_model.specs.NextMap.{next_map, next_row, next_rows, no_map, row_of_holders, row_or_bare, running_row, servers};

use crate::claims::Claims;
use crate::held::{held, missing};
use crate::newest::newest;
use crate::opening::{opening_rows, parts_of};
use ignite_types::{Cache, List, Mem, Member, NodeId, PartMap, Row, Single, TopVer};
use std::alloc::Global;

/// The server members, in order.
fn servers(alloc: Global, members: &[Member]) -> Mem<List<NodeId>>
    ensures { IfOk result (λ nodes. nodes ≡ servers members.now) }
{
    let mut nodes = List::new(alloc);
    for member in members {
        if member.server {
            nodes.push(member.node)?;
        }
    }
    Ok(nodes)
}

/// The row of a partition that these nodes own, and that nobody fills.
fn owned_by(alloc: Global, owners: &[NodeId]) -> Mem<Row>
    ensures { IfOk result (λ row. row ≡ record { owners = owners.now; movers = [] }) }
{
    let owners = List::from_slice(alloc, owners)?;
    let movers = List::new(alloc);
    Ok(Row { owners, movers })
}

/// The row of a partition with these holders: the wanted nodes own it where each of them is a holder; else the holders
/// own it, and the wanted nodes that are missing are filled.
fn row_of_holders(alloc: Global, wanted: &[NodeId], holders: List<NodeId>) -> Mem<Row>
    ensures { IfOk result (λ row. row ≡ row_of_holders wanted.now holders) }
{
    let movers = missing(alloc, wanted, holders.as_slice())?;
    if movers.is_empty() {
        return owned_by(alloc, wanted);
    }
    Ok(Row {
        owners: holders,
        movers,
    })
}

/// The row of a partition whose cache is one of the version; where the base has no owner, the wanted nodes own it.
fn running_row(
    alloc: Global,
    members: &[Member],
    claims: &Claims,
    part: usize,
    wanted: &[NodeId],
    row: &Row,
) -> Mem<Row>
    requires { part < claims.now.parts }
    ensures { IfOk result (λ next. next ≡ running_row members.now claims.now.singles.now claims.now.version part wanted.now
        row.now row.now.owners) }
{
    if row.owners.is_empty() {
        return owned_by(alloc, wanted);
    }
    let holders = held(alloc, members, claims, part, row)?;
    row_of_holders(alloc, wanted, holders)
}

/// The row of a partition, by the nodes that it wants and by its row in the base. No node is wanted where its cache is
/// not one of the version.
fn next_row(
    alloc: Global,
    members: &[Member],
    claims: &Claims,
    part: usize,
    wanted: &[NodeId],
    row: Option<&Row>,
) -> Mem<Row>
    requires { part < claims.now.parts }
    ensures { IfOk result (λ next. next ≡ next_row members.now claims.now.singles.now claims.now.version part wanted.now
        (row_or_bare (option_copied row.entry))) }
{
    match row {
        Some(row) if !wanted.is_empty() => {
            running_row(alloc, members, claims, part, wanted, row)
        }
        _ => owned_by(alloc, wanted),
    }
}

/// The rows of all partitions, by the ideal rows of the version and the rows of the base.
fn next_rows(
    alloc: Global,
    members: &[Member],
    claims: &Claims,
    ideals: &[Row],
    rows: &[Row],
) -> Mem<List<Row>>
    requires { length ideals.now ≤ claims.now.parts }
    ensures { IfOk result (λ next. next ≡ next_rows members.now claims.now.singles.now claims.now.version 0 ideals.now rows.now) }
{
    let mut next = List::new(alloc);
    for (part, ideal) in ideals.iter().enumerate() {
        let wanted = ideal.owners.as_slice();
        let row = rows.get(part);
        next.push(next_row(alloc, members, claims, part, wanted, row)?)?;
    }
    Ok(next)
}

/// The rows that follow those of a base of this version.
fn rows_from(
    alloc: Global,
    members: &[Member],
    singles: &[Single],
    version: TopVer,
    ideals: &[Row],
    rows: &[Row],
) -> Mem<List<Row>>
    ensures { IfOk result (λ next. next ≡ next_rows members.now singles.now version 0 ideals.now rows.now) }
{
    let claims = Claims::new(alloc, singles, version, ideals.len())?;
    next_rows(alloc, members, &claims, ideals, rows)
}

/// The rows that follow those of the base; without a base they are the ideal ones.
fn rows_after(
    alloc: Global,
    members: &[Member],
    singles: &[Single],
    ideals: &[Row],
    base: Option<&PartMap>,
) -> Mem<List<Row>>
    ensures { IfOk result (λ next. let map = unwrap_or (option_copied base.entry) no_map in
        next ≡ next_rows members.now singles.now map.top 0 ideals.now map.rows) }
{
    match base {
        Some(map) => {
            let rows = map.rows.as_slice();
            rows_from(alloc, members, singles, map.top, ideals, rows)
        }
        None => {
            let version = TopVer { major: 0, minor: 0 };
            rows_from(alloc, members, singles, version, ideals, &[])
        }
    }
}

/// The map of a version from the singles of its members, where `running` has the numbers of the version's caches.
///
/// The base is the map of highest version among the singles. The holders of a partition are its owners in the base that
/// are members, and then its movers there that are members and say, under the base's version, that their copy is
/// complete. Where each ideal owner is a holder, or the base has no owner, the ideal owners own the partition;
/// else its holders own it, and the other ideal owners become movers. A partition of a cache that does not run has
/// neither. A node without a single claims nothing, and without a base each partition that runs has its ideal owners.
pub fn next_map(
    alloc: Global,
    top: TopVer,
    members: &[Member],
    caches: &[Cache],
    running: &[u32],
    singles: &[Single],
) -> Mem<PartMap>
    ensures { IfOk result (λ next. next ≡ next_map top members.now caches.now running.now singles.now) }
{
    let servers = servers(alloc, members)?;
    let ideals = opening_rows(alloc, servers.as_slice(), caches, running)?;
    let base = newest(singles);
    let rows = rows_after(alloc, members, singles, ideals.as_slice(), base)?;
    let parts = parts_of(alloc, caches)?;
    Ok(PartMap { top, parts, rows })
}
