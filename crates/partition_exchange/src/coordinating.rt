//! The oldest member gathers the Singles, computes the map, and tells when all have installed it.

ghost use Rattle.std.specs.Prelude.{◌≡◌, ◌∷◌, [], IfOk, OnOk, filter, is_some, not};
ghost use Rattle.std.specs.Option.{option_copied};
ghost use Rattle.act_rows.specs.Exchange.{after_compute, after_compute_if_all, after_count, after_full, after_installed, after_open_for_all, after_single, all_installed, all_sent, is_newer_map, may_compute, next_map_seen, others_seen, singles_under, without_single, without_singles};
ghost use Rattle.part_model.specs.NextMap.{single_of};
ghost use Rattle.part_model.specs.Orders.{is_lower_top};
ghost use Rattle.ignite_types.specs.Names.{same_node, same_top};
ghost use Rattle.partition_exchange.specs.Coordinating.{publishes};

use crate::installing::install;
use crate::opening::on_opens;
use ignite_types::{List, Mem, Member, Message, NodeId, PartMap, Single, TopVer};
use node_state::Exchange;
use node_steps::{Node, add_members, outs_to};
use ordered_set::Set;
use part_map::next_map;
use plain_copies::Duplicate;

/// The members of the last version seen but this node.
fn others(node: &Node) -> Mem<Set<NodeId>>
    ensures { IfOk result (λ others. others ≡ others_seen node.now) }
{
    let mut others = Set::new(node.alloc);
    add_members(&mut others, node.members())?;
    others.remove(&node.me());
    Ok(others)
}

/// Whether each member is one of these nodes.
fn all_installed(members: &[Member], nodes: &Set<NodeId>) -> bool
    ensures { result ≡ all_installed members.now nodes.now }
{
    members.iter().all(|member| nodes.contains(&member.node))
}

/// The exchange is over: each other member is told that the version is open, and it opens here.
fn open_for_all(node: &mut Node, top: TopVer) -> Mem<()>
    ensures { OnOk result (node.new ≡ after_open_for_all node.old top) }
{
    let others = others(node)?;
    let outs = outs_to(node.alloc, others.as_slice(), &Message::Opens { top })?;
    node.drop_exchange();
    node.send_all(outs)?;
    on_opens(node, top)
}

/// The exchange in work has the word of these members; with that of all of them the version is open.
fn count(node: &mut Node, exchange: Exchange) -> Mem<()>
    ensures { OnOk result (node.new ≡ after_count node.old exchange) }
{
    let top = exchange.top;
    let all = all_installed(node.members(), &exchange.installed);
    node.put_exchange(exchange);
    if all { open_for_all(node, top) } else { Ok(()) }
}

/// Whether the node's Single of this version came.
fn has_single(singles: &[Single], top: TopVer, node: NodeId) -> bool
    ensures { result ≡ is_some (single_of (filter (λ x. same_top x.top top) singles.now) node) }
{
    for single in singles {
        if single.top == top && node == single.from {
            return true;
        }
    }
    false
}

/// Whether each member's Single of this version came.
fn all_sent(members: &[Member], singles: &[Single], top: TopVer) -> bool
    ensures { result ≡ all_sent members.now (filter (λ x. same_top x.top top) singles.now) }
{
    members
        .iter()
        .all(|member| has_single(singles, top, member.node))
}

/// Copies of the Singles of this version.
fn singles_under(node: &Node, top: TopVer) -> Mem<List<Single>>
    ensures { IfOk result (λ singles. singles ≡ singles_under node.now top) }
{
    let mut under = List::new(node.alloc);
    for single in node.singles() {
        if single.top == top {
            under.push(single.copy(node.alloc)?)?;
        }
    }
    Ok(under)
}

/// Keeps the Singles of versions above this one.
fn keep_above(singles: &mut Vec<Single>, top: TopVer)
    ensures { singles.new.items ≡ filter (λ x. is_lower_top top x.top) singles.old.items }
{
    singles.retain(|single| top < single.top);
}

/// The Singles of this version and of older ones are dropped.
fn drop_singles(node: &mut Node, top: TopVer)
    ensures { node.new ≡ without_singles node.old top }
{
    let mut kept = node.take_singles().into_vec();
    keep_above(&mut kept, top);
    node.put_singles(List::from_vec(kept));
}

/// Whether this node computes the map of the last version seen: it is the oldest member, has no such map, and each member's
/// Single came.
fn may_compute(node: &Node) -> bool
    ensures { result ≡ may_compute node.now }
{
    let seen = node.seen();
    node.is_oldest() && !node.is_installed(seen) && all_sent(node.members(), node.singles(), seen)
}

/// The map of the last version seen.
fn next_map_seen(node: &Node) -> Mem<PartMap>
    ensures { IfOk result (λ map. map ≡ next_map_seen node.now) }
{
    let seen = node.seen();
    let singles = singles_under(node, seen)?;
    next_map(
        node.alloc,
        seen,
        node.members(),
        node.caches(),
        node.running(),
        singles.as_slice(),
    )
}

/// The computed map is installed, and the other members are told.
fn publish(node: &mut Node, map: PartMap) -> Mem<()>
    ensures { OnOk result (node.new ≡ publishes node.old map) }
{
    let others = others(node)?;
    let full = Message::Full {
        map: map.copy(node.alloc)?,
    };
    let outs = outs_to(node.alloc, others.as_slice(), &full)?;
    drop_singles(node, map.top);
    install(node, map)?;
    node.send_all(outs)
}

/// This node alone.
fn alone(node: &Node) -> Mem<Set<NodeId>>
    ensures { IfOk result (λ nodes. nodes ≡ node.now.me ∷ []) }
{
    let mut nodes = Set::new(node.alloc);
    nodes.insert(node.me())?;
    Ok(nodes)
}

/// The coordinator installs the map that it computed, counts itself, and tells the others.
fn compute(node: &mut Node, map: PartMap) -> Mem<()>
    ensures { OnOk result (node.new ≡ after_compute node.old map) }
{
    let top = map.top;
    let installed = alone(node)?;
    publish(node, map)?;
    count(node, Exchange { top, installed })
}

fn compute_if_all(node: &mut Node) -> Mem<()>
    ensures { OnOk result (node.new ≡ after_compute_if_all node.old) }
{
    if may_compute(node) {
        let map = next_map_seen(node)?;
        compute(node, map)
    } else {
        Ok(())
    }
}

/// Single: kept under its version; with the last one the map is computed.
pub fn on_single(
    node: &mut Node,
    from: NodeId,
    top: TopVer,
    map: Option<PartMap>,
    complete: List<u32>,
) -> Mem<()>
    ensures { OnOk result (node.new ≡ after_single node.old from top map complete) }
{
    let single = Single {
        from,
        top,
        map,
        complete,
    };
    node.keep_single(single)?;
    compute_if_all(node)
}

/// Whether a map is of a higher version than the installed one.
fn is_newer(map: &PartMap, installed: Option<&PartMap>) -> bool
    ensures { result ≡ is_newer_map map.now (option_copied installed.entry) }
{
    match installed {
        Some(there) => there.top < map.top,
        None => true,
    }
}

/// Full: a map is installed where none of its version or a higher one is.
pub fn on_full(node: &mut Node, from: NodeId, map: PartMap) -> Mem<()>
    ensures { OnOk result (node.new ≡ after_full node.old from map) }
{
    if is_newer(&map, node.installed()) {
        let top = map.top;
        install(node, map)?;
        node.send(from, Message::Installed { top })
    } else {
        Ok(())
    }
}

/// Installed: counted where it speaks of the exchange in work.
pub fn on_installed(node: &mut Node, from: NodeId, top: TopVer) -> Mem<()>
    ensures { OnOk result (node.new ≡ after_installed node.old from top) }
{
    let Some(mut exchange) = node.take_exchange() else {
        return Ok(());
    };
    if exchange.top == top {
        exchange.installed.insert(from)?;
        count(node, exchange)
    } else {
        node.put_exchange(exchange);
        Ok(())
    }
}

/// Keeps the Singles of other nodes than this.
fn keep_others(singles: &mut Vec<Single>, node: NodeId)
    ensures { singles.new.items ≡ filter (λ x. not (same_node x.from node)) singles.old.items }
{
    singles.retain(|single| single.from != node);
}

/// The Singles of a lost node are discarded.
pub fn drop_single(node: &mut Node, lost: NodeId)
    ensures { node.new ≡ without_single node.old lost }
{
    let mut kept = node.take_singles().into_vec();
    keep_others(&mut kept, lost);
    node.put_singles(List::from_vec(kept));
}
