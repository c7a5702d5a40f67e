//! Which nodes hold a complete copy of a partition.

ghost use Rattle.std.specs.Prelude.{◌≡◌, ◌<◌, ◌++◌, filter, IfOk, OnOk};
ghost use Rattle.part_model.specs.NextMap.{has_node, is_filled, is_member, map_holders, nodes_missing};

use crate::claims::Claims;
use ignite_types::{List, Mem, Member, NodeId, Row};
use std::alloc::Global;

fn has_node(nodes: &[NodeId], node: NodeId) -> bool
    ensures { result ≡ has_node nodes.now node }
{
    nodes.iter().any(|other| node.0 == other.0)
}

fn is_member(members: &[Member], node: NodeId) -> bool
    ensures { result ≡ is_member members.now node }
{
    members.iter().any(|member| node.0 == member.node.0)
}

/// Whether a mover of the base holds a complete copy.
fn is_filled(members: &[Member], claims: &Claims, part: usize, node: NodeId) -> bool
    requires { part < claims.now.parts }
    ensures { result ≡ is_filled members.now claims.now.singles.now claims.now.version part node }
{
    is_member(members, node) && claims.has(part, node)
}

/// Adds those of the nodes that are members.
fn push_members(holders: &mut List<NodeId>, members: &[Member], nodes: &[NodeId]) -> Mem<()>
    ensures { OnOk result (holders.new ≡ holders.old ++ filter (is_member members.now) nodes.now) }
{
    for node in nodes {
        if is_member(members, *node) {
            holders.push(*node)?;
        }
    }
    Ok(())
}

/// Adds those of the movers that hold a complete copy.
fn push_filled(
    holders: &mut List<NodeId>,
    members: &[Member],
    claims: &Claims,
    part: usize,
    movers: &[NodeId],
) -> Mem<()>
    requires { part < claims.now.parts }
    ensures { OnOk result (holders.new ≡ holders.old ++ filter
        (is_filled members.now claims.now.singles.now claims.now.version part) movers.now) }
{
    for node in movers {
        if is_filled(members, claims, part, *node) {
            holders.push(*node)?;
        }
    }
    Ok(())
}

/// The holders of a partition: the base's owners that are members, and then its movers whose copies are complete.
pub(crate) fn held(
    alloc: Global,
    members: &[Member],
    claims: &Claims,
    part: usize,
    row: &Row,
) -> Mem<List<NodeId>>
    requires { part < claims.now.parts }
    ensures { IfOk result (λ holders. holders ≡ map_holders members.now claims.now.singles.now claims.now.version part row.now) }
{
    let mut holders = List::new(alloc);
    push_members(&mut holders, members, row.owners.as_slice())?;
    let movers = row.movers.as_slice();
    push_filled(&mut holders, members, claims, part, movers)?;
    Ok(holders)
}

/// The wanted nodes that are no holders.
pub(crate) fn missing(alloc: Global, wanted: &[NodeId], holders: &[NodeId]) -> Mem<List<NodeId>>
    ensures { IfOk result (λ nodes. nodes ≡ nodes_missing wanted.now holders.now) }
{
    let mut nodes = List::new(alloc);
    for node in wanted {
        if !has_node(holders, *node) {
            nodes.push(*node)?;
        }
    }
    Ok(nodes)
}
