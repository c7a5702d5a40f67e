//! A starter sees a node leave.

ghost use Rattle.std.specs.Prelude.{◌≡◌, OnOk, IfOk};
ghost use Rattle.act_rows.specs.Decisions.{after_left_at_starter, after_left_for_each, after_left_for_tx, after_left_undecided_with, backups_after, is_committing, live_backups, outs_after_left, primaries_at, shares_under, txs_of, with_entry_left, with_shares};
ghost use Rattle.act_rows.specs.Steps.{entry_of};

use crate::decisions::fail;
use ignite_types::{Fault, Key, List, Mem, NodeId, Out, Share, TxId};
use node_state::{TxEntry, TxState};
use node_steps::{Node, backup_finish_outs, has_node};
use ordered_set::Set;
use std::alloc::Global;

/// The transactions that were started here, ascending.
pub fn txs_of(node: &Node) -> Mem<List<TxId>>
    ensures { IfOk result (λ txs. txs ≡ txs_of node.now) }
{
    let mut txs = List::new(node.alloc);
    for (tx, _) in node.entries() {
        txs.push(*tx)?;
    }
    Ok(txs)
}

/// The primaries of these keys, ascending.
pub fn primaries_at(node: &Node, keys: &[Key]) -> Mem<Set<NodeId>>
    ensures { IfOk result (λ nodes. nodes ≡ primaries_at node.now keys.now) }
{
    let mut nodes = Set::new(node.alloc);
    for key in keys {
        if let Some(primary) = node.primary_at(key) {
            nodes.insert(primary)?;
        }
    }
    Ok(nodes)
}

/// Undecided: the loss of a key's primary is a fault.
fn undecided_left(node: &mut Node, tx: TxId, lost: NodeId, primaries: &[NodeId]) -> Mem<()>
    ensures { OnOk result (node.new ≡ after_left_undecided_with node.old tx lost primaries.now) }
{
    if has_node(primaries, lost) {
        fail(node, tx, &Fault::NodeLost(lost))
    } else {
        Ok(())
    }
}

/// The shares of this primary.
fn shares_under(alloc: Global, shares: &[Share], primary: NodeId) -> Mem<List<Share>>
    ensures { IfOk result (λ under. under ≡ shares_under shares.now primary) }
{
    let mut under = List::new(alloc);
    for share in shares {
        if share.primary == primary {
            under.push(*share)?;
        }
    }
    Ok(under)
}

fn add_shares(set: &mut Set<Share>, shares: &[Share]) -> Mem<()>
    ensures { OnOk result (set.new ≡ with_shares set.old shares.now) }
{
    for share in shares {
        set.insert(*share)?;
    }
    Ok(())
}

/// Where the lost node is a primary that is awaited, the holders of its shares are awaited too.
fn backups_after(alloc: Global, entry: &TxEntry, lost: NodeId) -> Mem<Set<Share>>
    ensures { IfOk result (λ backups. backups ≡ backups_after entry.now lost) }
{
    let mut backups = entry.backups.copy(alloc)?;
    if entry.awaited.contains(&lost) {
        let under = shares_under(alloc, entry.shares.as_slice(), lost)?;
        add_shares(&mut backups, under.as_slice())?;
    }
    Ok(backups)
}

fn live_backups(node: &Node, backups: &[Share]) -> Mem<List<Share>>
    ensures { IfOk result (λ live. live ≡ live_backups node.now backups.now) }
{
    let mut live = List::new(node.alloc);
    for share in backups {
        if node.is_live(share.holder) {
            live.push(*share)?;
        }
    }
    Ok(live)
}

/// A lost node is awaited no more.
#[tactic(auto, using(act_rows::proofs::TableLaws::tx_put_put))]
fn left_entry(node: &mut Node, tx: TxId, lost: NodeId) -> Mem<()>
    ensures { OnOk result (node.new ≡ with_entry_left node.old tx lost) }
{
    let Some(mut entry) = node.take_entry(tx) else {
        return Ok(());
    };
    let backups = backups_after(node.alloc, &entry, lost)?;
    let live = live_backups(node, backups.as_slice())?;
    entry.awaited.remove(&lost);
    entry.backups = Set::from_list(live);
    node.put_entry(tx, entry)
}

/// BackupFinish to the live holders of the lost primary's shares, where it is awaited.
fn left_outs(node: &Node, tx: TxId, lost: NodeId, entry: &TxEntry) -> Mem<List<Out>>
    ensures { IfOk result (λ outs. outs ≡ outs_after_left node.now tx lost entry.now) }
{
    if entry.awaited.contains(&lost) {
        let holders = node.live_holders(entry.shares.as_slice(), lost)?;
        backup_finish_outs(
            node.alloc,
            tx,
            lost,
            is_commit(entry.state),
            holders.as_slice(),
        )
    } else {
        Ok(List::new(node.alloc))
    }
}

fn is_commit(state: TxState) -> bool
    ensures { result ≡ is_committing state }
{
    match state {
        TxState::Committing => true,
        _ => false,
    }
}

fn left_for(node: &mut Node, tx: TxId, lost: NodeId) -> Mem<()>
    ensures { OnOk result (node.new ≡ after_left_for_tx node.old tx lost (entry_of node.old tx)) }
{
    let Some(entry) = node.entry(&tx) else {
        return Ok(());
    };
    match entry.state {
        TxState::Searching | TxState::Ended => Ok(()),
        TxState::Committing | TxState::RollingBack => {
            let outs = left_outs(node, tx, lost, entry)?;
            left_entry(node, tx, lost)?;
            node.send_all(outs)
        }
        _ => {
            let primaries = primaries_at(node, entry.keys.as_slice())?;
            undecided_left(node, tx, lost, primaries.as_slice())
        }
    }
}

fn left_for_each(node: &mut Node, lost: NodeId, txs: &[TxId]) -> Mem<()>
    ensures { OnOk result (node.new ≡ after_left_for_each node.old lost txs.now) }
{
    for tx in txs {
        left_for(node, *tx, lost)?;
    }
    Ok(())
}

/// What a loss brings to the transactions that were started here, one after the other.
pub fn near_side_saw_leave(node: &mut Node, lost: NodeId) -> Mem<()>
    ensures { OnOk result (node.new ≡ after_left_at_starter node.old lost) }
{
    let txs = txs_of(node)?;
    left_for_each(node, lost, txs.as_slice())
}
