//! The answers of a search, and the loss of a node whose answer it awaits.

ghost use Rattle.std.specs.Prelude.{◌≡◌, OnOk, IfOk, MatchOption, option_copied};
ghost use Rattle.act_rows.specs.Searches.{after_edges_ok, after_edges_ok_for, after_gather, after_left_at_each_search, after_left_at_searches, is_cut, search_of, search_with_answer};

use crate::edges::add_waits;
use crate::rounds::{end_round, keep_search};
use ignite_types::{Fault, List, Mem, NodeId, TxId, Wait};
use node_state::Search;
use node_steps::Node;
use std::alloc::Global;
use tx_decisions::{fail, txs_of};

/// The search for a deadlock of this transaction.
fn search_of<'a>(node: &'a Node, tx: &TxId) -> Option<&'a Search>
    ensures { option_copied result ≡ search_of node.now tx.now }
{
    match node.entry(tx) {
        Some(entry) => match &entry.search {
            Some(search) => Some(search),
            None => None,
        },
        None => None,
    }
}

/// The waits of one answer are kept.
fn gathered(alloc: Global, search: &Search, from: NodeId, act: u64, waits: &[Wait]) -> Mem<Search>
    ensures { IfOk result (λ next. next ≡ search_with_answer search.now from act waits.now) }
{
    let mut awaited = search.awaited.copy(alloc)?;
    awaited.remove(&from);
    let mut edges = List::from_slice(alloc, search.edges.as_slice())?;
    add_waits(&mut edges, from, act, waits)?;
    Ok(Search {
        round: search.round,
        members: List::from_slice(alloc, search.members.as_slice())?,
        awaited,
        known: search.known.copy(alloc)?,
        edges,
    })
}

/// With the last answer the round is over.
fn go_on(node: &mut Node, tx: TxId, search: Search) -> Mem<()>
    ensures { OnOk result (node.new ≡ after_gather node.old tx search) }
{
    match search.awaited.as_slice() {
        [] => end_round(node, tx, search),
        [_, ..] => keep_search(node, tx, search),
    }
}

/// EdgesOk: an answer of the round in work.
pub fn on_edges_ok(
    node: &mut Node,
    from: NodeId,
    tx: TxId,
    round: u32,
    act: u64,
    waits: &[Wait],
) -> Mem<()>
    ensures { OnOk result (node.new ≡ after_edges_ok node.old from tx round act waits.now) }
{
    let Some(search) = search_of(node, &tx) else {
        return Ok(());
    };
    if search.round == round && search.awaited.contains(&from) {
        let next = gathered(node.alloc, search, from, act, waits)?;
        go_on(node, tx, next)
    } else {
        Ok(())
    }
}

/// Whether a search awaits the answer of this node.
fn is_cut(node: &Node, tx: &TxId, lost: NodeId) -> bool
    ensures { result ≡ is_cut lost (search_of node.now tx.now) }
{
    match search_of(node, tx) {
        Some(search) => search.awaited.contains(&lost),
        None => false,
    }
}

fn cut_each(node: &mut Node, lost: NodeId, txs: &[TxId]) -> Mem<()>
    ensures { OnOk result (node.new ≡ after_left_at_each_search node.old lost txs.now) }
{
    for tx in txs {
        if is_cut(node, tx, lost) {
            fail(node, *tx, &Fault::Cut(lost))?;
        }
    }
    Ok(())
}

/// A search is cut by the loss of a node whose answer it awaits.
pub fn search_saw_leave(node: &mut Node, lost: NodeId) -> Mem<()>
    ensures { OnOk result (node.new ≡ after_left_at_searches node.old lost) }
{
    let txs = txs_of(node)?;
    cut_each(node, lost, txs.as_slice())
}
