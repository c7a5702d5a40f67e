//! The rounds of a search: each asks nodes for the waits of the transactions known.

ghost use Rattle.std.specs.Prelude.{◌≡◌, OnOk, IfOk};
ghost use Rattle.act_rows.specs.Accesses.{tx_state_of};
ghost use Rattle.act_rows.specs.Searches.{after_ask, after_begin_search, after_expire, after_next_round, after_search, after_search_clear, new_search, search_of_next_round, with_named, with_search};
ghost use Rattle.part_model.specs.Cycles.{cycle_through};
ghost use Rattle.ignite_types.specs.Names.{tx_cmp};
ghost use Rattle.ordered_set.specs.Members.{with_member};

use crate::cycles::cycle_through;
use ignite_types::{Edge, Fault, List, Mem, Message, NodeId, Rec, TxId, Wait};
use node_state::{Search, TxState};
use node_steps::{Node, add_members, outs_to};
use ordered_set::Set;
use std::alloc::Global;
use tx_decisions::fail;

/// Edges to each of these nodes, for all transactions known.
fn ask(node: &mut Node, tx: TxId, round: u32, known: List<TxId>, nodes: &[NodeId]) -> Mem<()>
    ensures { OnOk result (node.new ≡ after_ask node.old tx round known nodes.now) }
{
    let outs = outs_to(
        node.alloc,
        nodes,
        &Message::Edges {
            tx,
            round,
            of: known,
        },
    )?;
    node.send_all(outs)
}

fn new_search(alloc: Global, members: &[NodeId], tx: TxId) -> Mem<Search>
    ensures { IfOk result (λ search. search ≡ new_search members.now tx) }
{
    let mut known = List::new(alloc);
    known.push(tx)?;
    Ok(Search {
        round: 1,
        members: List::from_slice(alloc, members)?,
        awaited: Set::from_list(List::from_slice(alloc, members)?),
        known: Set::from_list(known),
        edges: List::new(alloc),
    })
}

/// The transaction is searched for.
#[tactic(auto, using(act_rows::proofs::TableLaws::tx_put_put))]
pub(crate) fn keep_search(node: &mut Node, tx: TxId, search: Search) -> Mem<()>
    ensures { OnOk result (node.new ≡ with_search node.old tx search) }
{
    let Some(mut entry) = node.take_entry(tx) else {
        return Ok(());
    };
    entry.state = TxState::Searching;
    entry.search = Some(search);
    node.put_entry(tx, entry)
}

/// The first round asks every member for the waits of the transaction.
fn begin_search(node: &mut Node, tx: TxId) -> Mem<()>
    ensures { OnOk result (node.new ≡ after_begin_search node.old tx) }
{
    let mut members = Set::new(node.alloc);
    add_members(&mut members, node.members())?;
    let search = new_search(node.alloc, members.as_slice(), tx)?;
    let mut known = List::new(node.alloc);
    known.push(tx)?;
    keep_search(node, tx, search)?;
    ask(node, tx, 1, known, members.as_slice())
}

fn state_of(node: &Node, tx: &TxId) -> TxState
    ensures { result ≡ tx_state_of node.now tx.now }
{
    match node.entry(tx) {
        Some(entry) => entry.state,
        None => TxState::Ended,
    }
}

/// The deadline was reached: what waits for a lock is searched first, anything else is rolled back.
pub fn on_expire(node: &mut Node, tx: TxId) -> Mem<()>
    ensures { OnOk result (node.new ≡ after_expire node.old tx) }
{
    let state = state_of(node, &tx);
    node.note(Rec::Expire { tx })?;
    match state {
        TxState::Waiting => begin_search(node, tx),
        _ => fail(node, tx, &Fault::Timeout),
    }
}

fn add_named(named: &mut Set<TxId>, wait: &Wait) -> Mem<()>
    ensures { OnOk result (named.new ≡ with_member tx_cmp (with_member tx_cmp named.old wait.now.waiter) wait.now.holder) }
{
    named.insert(wait.waiter)?;
    named.insert(wait.holder)
}

/// The transactions known, and those that these edges name.
fn with_named(alloc: Global, known: &Set<TxId>, edges: &[Edge]) -> Mem<Set<TxId>>
    ensures { IfOk result (λ named. named ≡ with_named known.now edges.now) }
{
    let mut named = known.copy(alloc)?;
    for edge in edges {
        add_named(&mut named, &edge.wait)?;
    }
    Ok(named)
}

/// The search with its next round.
fn next_search(node: &Node, search: Search, known: Set<TxId>) -> Mem<Search>
    ensures { IfOk result (λ next. next ≡ search_of_next_round node.now search known) }
{
    let awaited = node.live_among(search.members.as_slice())?;
    let mut next = search;
    next.round = next.round.saturating_add(1);
    next.awaited = Set::from_list(awaited);
    next.known = known;
    Ok(next)
}

fn next_round(node: &mut Node, tx: TxId, search: Search) -> Mem<()>
    ensures { OnOk result (node.new ≡ after_next_round node.old tx search) }
{
    let round = search.round;
    let known = List::from_slice(node.alloc, search.known.as_slice())?;
    let awaited = List::from_slice(node.alloc, search.awaited.as_slice())?;
    keep_search(node, tx, search)?;
    ask(node, tx, round, known, awaited.as_slice())
}

/// Where nothing new was named, no deadlock is found.
fn search_clear(node: &mut Node, tx: TxId, search: Search, named: Set<TxId>) -> Mem<()>
    ensures { OnOk result (node.new ≡ after_search_clear node.old tx search named) }
{
    if named.len() == search.known.len() {
        let edges = List::new(node.alloc);
        node.note(Rec::Searched { tx, edges })?;
        fail(node, tx, &Fault::Timeout)
    } else {
        let next = next_search(node, search, named)?;
        next_round(node, tx, next)
    }
}

/// A round is over: a cycle is a deadlock, else what was named decides.
pub(crate) fn end_round(node: &mut Node, tx: TxId, search: Search) -> Mem<()>
    ensures { OnOk result (node.new ≡ after_search node.old tx search (cycle_through tx search.edges)) }
{
    match cycle_through(node.alloc, &tx, search.edges.as_slice())? {
        Some(edges) => {
            node.note(Rec::Searched { tx, edges })?;
            fail(node, tx, &Fault::Deadlock)
        }
        None => {
            let named = with_named(node.alloc, &search.known, search.edges.as_slice())?;
            search_clear(node, tx, search, named)
        }
    }
}
