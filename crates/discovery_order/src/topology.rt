//! What topology events change: the version, the members and the running caches.

ghost use Rattle.std.specs.Prelude.{◌≡◌, [], OnOk, IfOk};
ghost use Rattle.part_model.specs.Directory.{first_top, members_after, next_major, next_minor, node_set, running_after, running_from, version_after, without_node};

use ignite_types::{Cache, List, Mem, Member, NodeId, TopVer, TopoEvent};
use ordered_set::Set;
use std::alloc::Global;

/// The first topology version, 1.0.
pub fn first_top() -> TopVer
    ensures { result ≡ first_top }
{
    TopVer { major: 1, minor: 0 }
}

/// The version of an event: a join or a loss raises the major number, any other event the minor one.
pub fn version_after(top: TopVer, event: &TopoEvent) -> TopVer
    ensures { result ≡ version_after top event.now }
{
    match event {
        TopoEvent::Join(_) | TopoEvent::Left(_) => TopVer {
            major: top.major.saturating_add(1),
            minor: 0,
        },
        _ => TopVer {
            major: top.major,
            minor: top.minor.saturating_add(1),
        },
    }
}

/// The members without a node.
fn without_node(alloc: Global, node: NodeId, members: &[Member]) -> Mem<List<Member>>
    ensures { IfOk result (λ others. others ≡ without_node node members.now) }
{
    let mut others = List::new(alloc);
    for member in members {
        if member.node != node {
            others.push(*member)?;
        }
    }
    Ok(others)
}

/// A member joins at the end, by age, and leaves its place.
pub fn change_members(alloc: Global, members: &mut List<Member>, event: &TopoEvent) -> Mem<()>
    ensures { OnOk result (members.new ≡ members_after members.old event.now) }
{
    match event {
        TopoEvent::Join(member) => members.push(*member),
        TopoEvent::Left(node) => {
            *members = without_node(alloc, *node, members.as_slice())?;
            Ok(())
        }
        _ => Ok(()),
    }
}

/// A cache starts or stops.
pub fn change_running(running: &mut Set<u32>, event: &TopoEvent) -> Mem<()>
    ensures { OnOk result (running.new ≡ running_after running.old event.now) }
{
    match event {
        TopoEvent::Start(cache) => running.insert(*cache),
        TopoEvent::Stop(cache) => {
            running.remove(cache);
            Ok(())
        }
        _ => Ok(()),
    }
}

/// The numbers of the caches that run from the start, ascending.
pub fn running_from(alloc: Global, caches: &[Cache]) -> Mem<List<u32>>
    ensures { IfOk result (λ running. running ≡ running_from 0 caches.now) }
{
    let mut running = List::new(alloc);
    let mut number = 0u32;
    for cache in caches {
        if cache.first {
            running.push(number)?;
        }
        number = number.saturating_add(1);
    }
    Ok(running)
}

/// The numbers of these members, ascending.
pub fn node_set(alloc: Global, members: &[Member]) -> Mem<Set<NodeId>>
    ensures { IfOk result (λ nodes. nodes ≡ node_set [] members.now) }
{
    let mut nodes = Set::new(alloc);
    for member in members {
        nodes.insert(member.node)?;
    }
    Ok(nodes)
}
