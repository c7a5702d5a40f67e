//! The commits of a journal.

ghost use Rattle.std.specs.Prelude.{◌≡◌, [], map, IfOk};
ghost use Rattle.tx_model.specs.History.{commits_of, records};
ghost use Rattle.commit_history.specs.Firsts.{firsts};
ghost use Rattle.commit_history.specs.Steps.{entry_of_walks};

use crate::walks::{Walks, nodes_of};
use hash_table::HashTable;
use ignite_types::{Group, Journal, List, Mem, NodeId, TxId};
use ordered_table::Table;
use std::alloc::Global;
use tx_model::{CommitEntry, committed};

/// The committed transactions in the order of their first commit decisions.
fn firsts(alloc: Global, groups: &[Group]) -> Mem<List<TxId>>
    ensures { IfOk result (λ list. list ≡ firsts [] (records groups.now)) }
{
    let mut seen: HashTable<TxId, ()> = HashTable::new(alloc);
    let mut list = List::new(alloc);
    for group in groups {
        for rec in group.recs.as_slice() {
            if let Some(tx) = committed(rec) {
                if !seen.contains(&tx) {
                    list.push(tx)?;
                    seen.set(tx, ())?;
                }
            }
        }
    }
    Ok(list)
}

/// What each of these read and wrote, by the walk over all records.
fn entries_of(
    alloc: Global,
    walks: &Walks,
    nodes: &Table<u32, NodeId>,
    journal: &Journal,
    txs: &[TxId],
) -> Mem<List<CommitEntry>>
    ensures { IfOk result (λ list. list ≡ map (λ tx. entry_of_walks nodes.now walks.now journal.now.groups tx) txs.now) }
{
    let mut list = List::with_capacity(alloc, txs.len())?;
    for tx in txs {
        list.push(walks.entry(alloc, journal, nodes, tx)?)?;
    }
    Ok(list)
}

/// The committed transactions in the order of their first commit decisions, each with what it read and wrote. It takes two
/// passes over the journal, in linear time on average.
pub fn commits(alloc: Global, journal: &Journal) -> Mem<List<CommitEntry>>
    ensures { IfOk result (λ list. list ≡ commits_of journal.now) }
{
    let groups = journal.groups.as_slice();
    let txs = firsts(alloc, groups)?;
    let sessions = journal.scenario.sessions.as_slice();
    let nodes = nodes_of(alloc, sessions)?;
    let mut walks = Walks::new(alloc, sessions)?;
    walks.walk(alloc, groups)?;
    entries_of(alloc, &walks, &nodes, journal, txs.as_slice())
}
