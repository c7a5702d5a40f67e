//! The first cycle in the waits that were gathered, depth first.

ghost use Rattle.std.specs.Prelude.{◌≡◌, ◌∷◌, List as SpecList, OnOk, IfOk, option_map};
ghost use Rattle.part_model.specs.Cycles.{cycle_through, way_along, way_down, way_through_each};

use ignite_types::{Edge, List, Mem, TxId};
use ordered_set::Set;
use std::alloc::Global;

/// An edge in front of the way that was found from its holder.
fn behind_edge(alloc: Global, edge: &Edge, below: Option<List<Edge>>) -> Mem<Option<List<Edge>>>
    ensures { IfOk result (λ way. way ≡ option_map (λ (way : SpecList Edge). edge.now ∷ way) below) }
{
    match below {
        Some(rest) => {
            let mut way = List::new(alloc);
            way.push(*edge)?;
            way.append(rest)?;
            Ok(Some(way))
        }
        None => Ok(None),
    }
}

/// One edge is followed: it ends at the transaction, or the descent goes on from its holder.
#[cycle(descent)]
fn follow(
    alloc: Global,
    depth: usize,
    tx: &TxId,
    edges: &[Edge],
    entered: &mut Set<TxId>,
    edge: &Edge,
) -> Mem<Option<List<Edge>>>
    ensures way { IfOk result
        (λ way. way ≡ (way_along (λ seen holder. way_down depth tx.now edges.now seen holder) tx.now edge.now
        entered.old).way) }
    ensures entered { OnOk result
        (entered.new ≡ (way_along (λ seen holder. way_down depth tx.now edges.now seen holder) tx.now edge.now
        entered.old).entered) }
{
    let holder = edge.wait.holder;
    if holder == *tx {
        return behind_edge(alloc, edge, Some(List::new(alloc)));
    }
    if entered.contains(&holder) {
        return Ok(None);
    }
    entered.insert(holder)?;
    let below = descend(alloc, depth, tx, edges, entered, &holder)?;
    behind_edge(alloc, edge, below)
}

/// The edges of one waiter are tried in kept order.
#[cycle(descent)]
fn try_edges(
    alloc: Global,
    depth: usize,
    tx: &TxId,
    edges: &[Edge],
    entered: &mut Set<TxId>,
    at: &TxId,
) -> Mem<Option<List<Edge>>>
    ensures way { IfOk result
        (λ way. way ≡ (way_through_each (λ seen holder. way_down depth tx.now edges.now seen holder) tx.now at.now entered.old
        edges.now).way) }
    ensures entered { OnOk result
        (entered.new ≡ (way_through_each (λ seen holder. way_down depth tx.now edges.now seen holder) tx.now at.now
        entered.old edges.now).entered) }
{
    for edge in edges {
        if edge.wait.waiter == *at {
            if let Some(way) = follow(alloc, depth, tx, edges, entered, edge)? {
                return Ok(Some(way));
            }
        }
    }
    Ok(None)
}

/// A descent through waits: the way back to the transaction, if there is one. No transaction is entered twice.
#[cycle(descent)]
#[tactic(auto, using(crate::proofs::Descents::descends_below))]
fn descend(
    alloc: Global,
    depth: usize,
    tx: &TxId,
    edges: &[Edge],
    entered: &mut Set<TxId>,
    at: &TxId,
) -> Mem<Option<List<Edge>>>
    ensures way { IfOk result (λ way. way ≡ (way_down depth tx.now edges.now entered.old at.now).way) }
    ensures entered { OnOk result (entered.new ≡ (way_down depth tx.now edges.now entered.old at.now).entered) }
{
    if depth == 0 {
        Ok(None)
    } else {
        try_edges(alloc, depth - 1, tx, edges, entered, at)
    }
}

/// The first cycle through the transaction, its edges in order.
pub fn cycle_through(alloc: Global, tx: &TxId, edges: &[Edge]) -> Mem<Option<List<Edge>>>
    ensures { IfOk result (λ way. way ≡ cycle_through tx.now edges.now) }
{
    let mut entered = Set::new(alloc);
    entered.insert(*tx)?;
    descend(alloc, edges.len() + 1, tx, edges, &mut entered, tx)
}
