//! What the lines before a line name.

ghost use Rattle.std.specs.Prelude.{◌≡◌, ◌<◌, ◌≤◌, length, IfSome};
ghost use Rattle.ignite_types.specs.Good.{has_cache_line, has_member, stops};
ghost use Rattle.scen_text.specs.Known.{cache_place, has_cache, has_line, has_server, has_session, is_named, is_stopped, names_data, names_plain};

use crate::words::Name;
use ignite_types::{Cache, Member, NodeId, PlanStep, Session, Step};

/// The number of the cache of this name.
pub fn cache_place(caches: &[Cache], name: &[u8]) -> Option<usize>
    ensures place { result ≡ cache_place caches.now name.now }
    ensures within { IfSome result (λ place. place < length caches.now) }
{
    caches
        .iter()
        .position(|cache| cache.name.as_slice() == name)
}

/// Whether a cache has this name.
pub fn has_cache(caches: &[Cache], name: &[u8]) -> bool
    ensures { result ≡ has_cache caches.now name.now }
{
    caches.iter().any(|cache| cache.name.as_slice() == name)
}

/// Whether a data cache has this name.
pub fn names_data(caches: &[Cache], name: &[u8]) -> bool
    ensures { result ≡ names_data caches.now name.now }
{
    caches
        .iter()
        .any(|cache| cache.data && cache.name.as_slice() == name)
}

/// Whether a cache that is none of data has this name.
pub fn names_plain(caches: &[Cache], name: &[u8]) -> bool
    ensures { result ≡ names_plain caches.now name.now }
{
    caches
        .iter()
        .any(|cache| !cache.data && cache.name.as_slice() == name)
}

/// Whether the node has a line or joins.
pub fn has_member(members: &[Member], node: NodeId) -> bool
    ensures { result ≡ has_member members.now node }
{
    members.iter().any(|member| member.node.0 == node.0)
}

/// Whether the node is among these.
pub fn is_named(named: &[NodeId], node: NodeId) -> bool
    ensures { result ≡ is_named named.now node }
{
    named.iter().any(|known| known.0 == node.0)
}

/// Whether a session has this name.
pub fn has_session(sessions: &[Session], name: &[u8]) -> bool
    ensures { result ≡ has_session sessions.now name.now }
{
    sessions
        .iter()
        .any(|session| session.name.as_slice() == name)
}

/// Whether the step stops this cache.
fn stops(step: &Step, cache: u32) -> bool
    ensures { result ≡ stops cache step.now }
{
    match step {
        Step::Stop(number) => *number == cache,
        _ => false,
    }
}

/// Whether a step stops this cache.
pub fn is_stopped(plan: &[PlanStep], cache: u32) -> bool
    ensures { result ≡ is_stopped plan.now cache }
{
    plan.iter().any(|planned| stops(&planned.step, cache))
}

/// Whether a server has a line.
pub fn has_server(nodes: &[Member]) -> bool
    ensures { result ≡ has_server nodes.now }
{
    nodes.iter().any(|member| member.server)
}

/// Whether a cache has a cache line.
pub fn has_line(caches: &[Cache]) -> bool
    ensures { result ≡ has_line caches.now }
{
    caches.iter().any(|cache| cache.first && !cache.data)
}
