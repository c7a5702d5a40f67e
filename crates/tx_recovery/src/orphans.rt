//! What a node holds of the transactions whose starter it has seen leave.

ghost use Rattle.std.specs.Prelude.{◌≡◌, ◌++◌, OnOk, IfOk, map, filter};
ghost use Rattle.std.specs.Option.{option_copied};
ghost use Rattle.part_model.specs.Queues.{queued_txs, with_members};
ghost use Rattle.part_model.specs.Tables.{keys_in};
ghost use Rattle.ordered_set.specs.Members.{has};
ghost use Rattle.ignite_types.specs.Names.{tx_cmp, share_cmp};
ghost use Rattle.ordered_table.specs.Entries.{put};
ghost use Rattle.act_rows.specs.Recovery.{backup_shares, backup_txs, held_backups, held_shares_of, held_txs, orphan_of, orphan_txs, orphans_among, orphans_of, shares_known};
ghost use Rattle.act_rows.specs.Steps.{share_of};

use ignite_types::{List, Mem, NodeId, Orphan, Share, ShareState, TxId};
use node_steps::{Node, add_transactions};
use ordered_set::Set;
use ordered_table::Table;

/// The transactions of which an own share is kept.
fn own_txs(node: &Node) -> Mem<List<TxId>>
    ensures { IfOk result (λ txs. txs ≡ keys_in node.now.shares) }
{
    let mut txs = List::new(node.alloc);
    for (tx, _) in node.shares() {
        txs.push(*tx)?;
    }
    Ok(txs)
}

/// The transactions of which a share is kept for another primary.
fn backup_txs(node: &Node) -> Mem<List<TxId>>
    ensures { IfOk result (λ txs. txs ≡ backup_txs node.now.backups) }
{
    let mut txs = List::new(node.alloc);
    for (name, _) in node.backups() {
        txs.push(name.tx)?;
    }
    Ok(txs)
}

/// The transactions of which a lock, a waiting place or a share is here, ascending.
fn held_txs(node: &Node) -> Mem<Set<TxId>>
    ensures { IfOk result (λ txs. txs ≡ held_txs node.now) }
{
    let mut txs = node.standing()?;
    add_transactions(&mut txs, own_txs(node)?.as_slice())?;
    add_transactions(&mut txs, backup_txs(node)?.as_slice())?;
    Ok(txs)
}

/// Those of them whose starter was seen to leave.
fn orphan_txs(node: &Node) -> Mem<List<TxId>>
    ensures { IfOk result (λ txs. txs ≡ orphan_txs node.now) }
{
    let held = held_txs(node)?;
    let mut txs = List::new(node.alloc);
    for tx in held.as_slice() {
        if !node.is_live(tx.node) {
            txs.push(*tx)?;
        }
    }
    Ok(txs)
}

/// The shares of a transaction that are held for other primaries, with their states.
fn held_backups(node: &Node, tx: &TxId) -> Mem<Table<Share, ShareState>>
    ensures { IfOk result (λ held. held ≡ held_backups node.now.me node.now.backups tx.now) }
{
    let mut held = Table::new(node.alloc);
    let holder = node.me();
    for (name, backup) in node.backups() {
        if name.tx == *tx {
            let primary = name.primary;
            held.set(Share { holder, primary }, backup.state)?;
        }
    }
    Ok(held)
}

/// The node's shares of a transaction with their states, ascending.
fn held_of(node: &Node, tx: &TxId) -> Mem<List<(Share, ShareState)>>
    ensures { IfOk result (λ held. held ≡ held_shares_of node.now tx.now) }
{
    let mut held = held_backups(node, tx)?;
    if let Some(share) = node.share(tx) {
        let me = node.me();
        let own = Share {
            holder: me,
            primary: me,
        };
        held.set(own, share.state)?;
    }
    List::from_slice(node.alloc, held.as_slice())
}

/// All shares of a transaction, as a share that is held for another primary names them.
fn backup_shares(node: &Node, tx: &TxId) -> Mem<List<Share>>
    ensures { IfOk result (λ shares. shares ≡ backup_shares node.now.backups tx.now) }
{
    for (name, backup) in node.backups() {
        if name.tx == *tx {
            return List::from_slice(node.alloc, backup.shares.as_slice());
        }
    }
    Ok(List::new(node.alloc))
}

/// All shares of a transaction, as a share here names them.
fn shares_known(node: &Node, tx: &TxId) -> Mem<List<Share>>
    ensures { IfOk result (λ shares. shares ≡ shares_known node.now tx.now (share_of node.now tx.now)) }
{
    match node.share(tx) {
        Some(share) => List::from_slice(node.alloc, share.shares.as_slice()),
        None => backup_shares(node, tx),
    }
}

/// What is here of one transaction, where these stand in queues.
fn orphan_of(node: &Node, standing: &Set<TxId>, tx: &TxId) -> Mem<Orphan>
    ensures { IfOk result (λ orphan. orphan ≡ orphan_of node.now standing.now tx.now) }
{
    Ok(Orphan {
        tx: *tx,
        shares: shares_known(node, tx)?,
        held: held_of(node, tx)?,
        locks: standing.contains(tx),
    })
}

fn orphans_among(node: &Node, standing: &Set<TxId>, txs: &[TxId]) -> Mem<List<Orphan>>
    ensures { IfOk result (λ orphans. orphans ≡ orphans_among node.now standing.now txs.now) }
{
    let mut orphans = List::new(node.alloc);
    for tx in txs {
        orphans.push(orphan_of(node, standing, tx)?)?;
    }
    Ok(orphans)
}

/// What this node holds of each transaction whose starter it has seen leave, ascending.
pub fn orphans_of(node: &Node) -> Mem<List<Orphan>>
    ensures { IfOk result (λ orphans. orphans ≡ orphans_of node.now) }
{
    let standing = node.standing()?;
    let txs = orphan_txs(node)?;
    orphans_among(node, &standing, txs.as_slice())
}
