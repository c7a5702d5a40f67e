//! The waits that were gathered.

ghost use Rattle.std.specs.Prelude.{◌≡◌, OnOk, IfOk};
ghost use Rattle.std.specs.List.{list_any};
ghost use Rattle.part_model.specs.Cycles.{same_edge, same_wait, with_edge, with_waits};

use ignite_types::{Edge, List, Mem, NodeId, Wait};

fn is_same_wait(wait: &Wait, other: &Wait) -> bool
    ensures { result ≡ same_wait wait.now other.now }
{
    wait.key == other.key && wait.waiter == other.waiter && wait.holder == other.holder
}

/// Whether two edges are the same wait at the same node.
fn is_same_edge(edge: &Edge, other: &Edge) -> bool
    ensures { result ≡ same_edge edge.now other.now }
{
    edge.node == other.node && is_same_wait(&edge.wait, &other.wait)
}

fn has_edge(edges: &[Edge], edge: &Edge) -> bool
    ensures { result ≡ list_any (same_edge edge.now) edges.now }
{
    edges.iter().any(|other| is_same_edge(edge, other))
}

/// Of two equal waits from one node the first is kept.
fn add_edge(edges: &mut List<Edge>, edge: &Edge) -> Mem<()>
    ensures { OnOk result (edges.new ≡ with_edge edges.old edge.now) }
{
    if has_edge(edges.as_slice(), edge) {
        Ok(())
    } else {
        edges.push(*edge)
    }
}

/// The waits of one answer are kept, in its order.
pub(crate) fn add_waits(edges: &mut List<Edge>, node: NodeId, act: u64, waits: &[Wait]) -> Mem<()>
    ensures { OnOk result (edges.new ≡ with_waits edges.old node act waits.now) }
{
    for wait in waits {
        let wait = *wait;
        add_edge(edges, &Edge { node, act, wait })?;
    }
    Ok(())
}
