//! Which copies the singles claim to be complete.

ghost use Rattle.std.specs.Prelude.{◌≡◌, ◌<◌, ◌==◌, [], false, IfOk, Some};
ghost use Rattle.std.specs.List.{list_any, slice_index_or};
ghost use Rattle.std.specs.Option.{option_copied};
ghost use Rattle.part_map.specs.Claims.{AreClaimed, AreListed, IsTable};
ghost use Rattle.part_model.specs.NextMap.{is_claimed, is_under, single_of};

use ignite_types::{List, Mem, NodeId, PartMap, Single, TopVer};
use std::alloc::Global;

/// What the singles claim under one version, in a table of each single and each partition, so that a claim is found in the
/// time of finding its node's single.
#[derive(Drop)]
pub(crate) struct Claims<'a> {
    pub singles: &'a [Single],
    pub version: TopVer,
    pub parts: usize,
    table: List<List<bool>>,
    ghost is_table: { IsTable version parts singles.now table },
}

/// Whether a single was sent under the map of this version.
fn is_under(version: TopVer, map: Option<&PartMap>) -> bool
    ensures { result ≡ is_under version (option_copied map.entry) }
{
    match map {
        Some(map) => version.major == map.top.major && version.minor == map.top.minor,
        None => false,
    }
}

/// Marks the listed ones of so many partitions.
fn marks_of_list(alloc: Global, parts: usize, complete: &[u32]) -> Mem<List<bool>>
    ensures { IfOk result (λ marks. AreListed parts complete.now marks) }
{
    let mut marks = vec![in alloc; false; parts]?;
    for listed in complete {
        let part = *listed as usize;
        if part < parts {
            marks[part] = true;
        }
    }
    Ok(List::from_vec(marks))
}

/// Marks those of so many partitions that the single claims under this version.
fn marks_of(alloc: Global, version: TopVer, parts: usize, single: &Single) -> Mem<List<bool>>
    ensures { IfOk result (λ marks. AreClaimed version parts (Some single.now) marks) }
{
    if is_under(version, single.map.as_ref()) {
        return marks_of_list(alloc, parts, single.complete.as_slice());
    }
    Ok(List::new(alloc))
}

/// The table of the claims on so many partitions.
fn table_of(
    alloc: Global,
    version: TopVer,
    parts: usize,
    singles: &[Single],
) -> Mem<List<List<bool>>>
    ensures { IfOk result (λ table. IsTable version parts singles.now table) }
{
    let mut table = List::new(alloc);
    for single in singles {
        table.push(marks_of(alloc, version, parts, single)?)?;
    }
    Ok(table)
}

/// Whether a partition is marked.
fn is_set(marks: &[bool], part: usize) -> bool
    ensures { result ≡ slice_index_or marks.now part false }
{
    marks.get(part).copied().unwrap_or(false)
}

/// Whether a table has a mark there.
fn is_marked(table: &List<List<bool>>, place: usize, part: usize) -> bool
    ensures { result ≡ slice_index_or (slice_index_or table.now place []) part false }
{
    match table.get(place) {
        Some(marks) => is_set(marks.as_slice(), part),
        None => false,
    }
}

impl<'a> Claims<'a> {
    /// The claims of these singles under this version, on so many partitions.
    pub fn new(
        alloc: Global,
        singles: &'a [Single],
        version: TopVer,
        parts: usize,
    ) -> Mem<Claims<'a>>
        ensures singles { IfOk result (λ claims. claims.singles ≡ singles.entry) }
        ensures version { IfOk result (λ claims. claims.version ≡ version) }
        ensures parts { IfOk result (λ claims. claims.parts ≡ parts) }
    {
        let table = table_of(alloc, version, parts, singles)?;
        Ok(Claims {
            singles,
            version,
            parts,
            table,
        })
    }

    /// Whether the node's single has the version and lists the partition as complete.
    pub fn has(&self, part: usize, node: NodeId) -> bool
        requires { part < self.now.parts }
        ensures { result ≡ is_claimed self.now.version part (single_of self.now.singles.now node) }
    {
        for (place, single) in self.singles.iter().enumerate() {
            if node.0 == single.from.0 {
                return is_marked(&self.table, place, part);
            }
        }
        false
    }
}
