//! Finish at a primary, and what follows when no answer is awaited any more.

ghost use Rattle.std.specs.Prelude.{◌≡◌, ◌++◌, IfOk, OnOk, false, filter, not, true};
ghost use Rattle.act_rows.specs.Decisions.{backup_finish_outs};
ghost use Rattle.act_rows.specs.Primary.{after_advance_share, after_advance_shares, after_backup_finished_at_primary, after_backup_finished_of, after_finish, after_finished_share, after_left_at_primary, after_left_at_shares, after_near_done, after_share_prepared, after_undo_share, near_outs, near_waits, own_txs, readers_but_me, share_without_node, with_asker, with_finish_begun, with_finish_ended};
ghost use Rattle.act_rows.specs.Locks.{after_release_all};
ghost use Rattle.act_rows.specs.Steps.{on_share, outs_to, share_of, with_outs};
ghost use Rattle.act_rows.specs.Stores.{after_apply_each};
ghost use Rattle.ignite_types.specs.Names.{same_node};
ghost use Rattle.prepare_finish.specs.Waits.{near_waits_at};
ghost use Rattle.ignite_types.specs.declared.placement.ShareState.TheVariants.{Committed, Prepared, Undoing};
ghost use Rattle.ignite_types.specs.declared.message.Message.TheVariants as msg;

use crate::primary::{backups_for, stop_awaiting, without_me};
use ignite_types::{Key, List, Mem, Message, NodeId, Out, ShareState, Stored, TopVer, TxId};
use node_state::{NearWait, OwnShare};
use node_steps::{Node, backup_finish_outs, outs_to};
use ordered_set::Set;
use ordered_table::Table;
use pessimistic_tx::release_all;
use std::alloc::Global;

/// The readers of a key but this node.
fn readers_but_me(node: &Node, key: &Key) -> Mem<List<NodeId>>
    ensures { IfOk result (λ readers. readers ≡ readers_but_me node.now key.now) }
{
    without_me(node, node.readers_of(key))
}

/// One update of this write to each reader of its key.
fn update_outs(node: &Node, tx: TxId, write: &Stored) -> Mem<List<Out>>
    ensures { IfOk result (λ outs. outs ≡ outs_to (readers_but_me node.now write.now.key)
        (msg.NearUpdate tx write.now.key write.now.value write.now.ver)) }
{
    let readers = readers_but_me(node, &write.key)?;
    let message = Message::NearUpdate {
        tx,
        key: write.key,
        new: write.value,
        ver: write.ver,
    };
    outs_to(node.alloc, readers.as_slice(), &message)
}

/// One update to each reader of a written key.
fn near_outs(node: &Node, tx: TxId, writes: &[Stored]) -> Mem<List<Out>>
    ensures { IfOk result (λ outs. outs ≡ near_outs node.now tx writes.now) }
{
    let mut outs = List::new(node.alloc);
    for write in writes {
        outs.append(update_outs(node, tx, write)?)?;
    }
    Ok(outs)
}

/// This key's update is awaited from each of these readers.
fn waits_at(alloc: Global, key: &Key, readers: &[NodeId]) -> Mem<List<NearWait>>
    ensures { IfOk result (λ waits. waits ≡ near_waits_at key.now readers.now) }
{
    let mut waits = List::new(alloc);
    for reader in readers {
        waits.push(NearWait {
            key: *key,
            node: *reader,
        })?;
    }
    Ok(waits)
}

/// This write's update is awaited from each reader of its key.
fn write_waits(node: &Node, write: &Stored) -> Mem<List<NearWait>>
    ensures { IfOk result (λ waits. waits ≡ near_waits_at write.now.key (readers_but_me node.now write.now.key)) }
{
    let readers = readers_but_me(node, &write.key)?;
    waits_at(node.alloc, &write.key, readers.as_slice())
}

/// The updates of these writes are awaited from the readers of their keys.
fn near_waits(node: &Node, writes: &[Stored]) -> Mem<List<NearWait>>
    ensures { IfOk result (λ waits. waits ≡ near_waits node.now writes.now) }
{
    let mut waits = List::new(node.alloc);
    for write in writes {
        waits.append(write_waits(node, write)?)?;
    }
    Ok(waits)
}

/// A finish begins: the share takes this state, and the node that asked is kept.
#[tactic(auto, using(act_rows::proofs::TableLaws::tx_put_put))]
fn begin_finish(
    node: &mut Node,
    tx: TxId,
    state: ShareState,
    from: NodeId,
    backups: List<NodeId>,
    near: List<NearWait>,
) -> Mem<()>
    ensures { OnOk result (node.new ≡ with_finish_begun node.old tx state from backups near) }
{
    let Some(mut share) = node.take_share(tx) else {
        return Ok(());
    };
    share.state = state;
    share.awaited = Set::from_list(backups);
    share.near = Set::from_list(near);
    share.askers = Set::new(node.alloc);
    share.askers.insert(from)?;
    node.put_share(tx, share)
}

/// The writes are done, and each backup, mover and reader is told.
fn commit_share(
    node: &mut Node,
    from: NodeId,
    tx: TxId,
    top: TopVer,
    writes: &[Stored],
    backups: List<NodeId>,
) -> Mem<()>
    ensures { OnOk result (node.new ≡ with_outs
        (with_finish_begun (after_apply_each node.old tx top node.old.me writes.now) tx Committed from backups (near_waits node.old writes.now))
        (backup_finish_outs tx node.old.me true backups ++ near_outs node.old tx writes.now)) }
{
    let me = node.me();
    let near = near_waits(node, writes)?;
    let updates = near_outs(node, tx, writes)?;
    let mut outs = backup_finish_outs(node.alloc, tx, me, true, backups.as_slice())?;
    outs.append(updates)?;
    node.apply_all(tx, top, me, writes)?;
    begin_finish(node, tx, ShareState::Committed, from, backups, near)?;
    node.send_all(outs)
}

/// The writes are not done, and each backup and mover is told.
fn undo_share(node: &mut Node, from: NodeId, tx: TxId, backups: List<NodeId>) -> Mem<()>
    ensures { OnOk result (node.new ≡ after_undo_share node.old from tx backups) }
{
    let me = node.me();
    let outs = backup_finish_outs(node.alloc, tx, me, false, backups.as_slice())?;
    let near = List::new(node.alloc);
    begin_finish(node, tx, ShareState::Undoing, from, backups, near)?;
    node.send_all(outs)
}

/// One more node asked for the finish in work.
#[tactic(auto, using(act_rows::proofs::TableLaws::tx_put_put))]
fn add_asker(node: &mut Node, tx: TxId, from: NodeId) -> Mem<()>
    ensures { OnOk result (node.new ≡ with_asker node.old tx from) }
{
    let Some(mut share) = node.take_share(tx) else {
        return Ok(());
    };
    share.askers.insert(from)?;
    node.put_share(tx, share)
}

/// Finish: a Prepared share is committed or undone; without a share the places of the transaction are left at once.
pub fn on_finish(node: &mut Node, from: NodeId, tx: TxId, commit: bool) -> Mem<()>
    ensures { OnOk result (node.new ≡ after_finish node.old from tx commit) }
{
    let here = &*node;
    let Some(share) = here.share(&tx) else {
        release_all(node, tx)?;
        return node.send(from, Message::Finished { tx });
    };
    if let [_, ..] = share.askers.as_slice() {
        return add_asker(node, tx, from);
    }
    match (commit, share.state) {
        (true, ShareState::Prepared) => {
            let top = share.top;
            let writes = List::from_slice(here.alloc, share.writes.as_slice())?;
            let backups = backups_for(here, share.shares.as_slice())?;
            commit_share(node, from, tx, top, writes.as_slice(), backups)
        }
        (false, ShareState::Prepared | ShareState::Preparing) => {
            let backups = backups_for(here, share.shares.as_slice())?;
            undo_share(node, from, tx, backups)
        }
        _ => node.send(from, Message::Finished { tx }),
    }
}

/// BackupFinished of an own share counts while a finish is in work.
fn backup_finished(node: &mut Node, from: NodeId, tx: TxId) -> Mem<()>
    ensures { OnOk result (node.new ≡ after_backup_finished_of node.old from tx (share_of node.old tx)) }
{
    let Some(share) = node.share(&tx) else {
        return Ok(());
    };
    match share.askers.as_slice() {
        [] => Ok(()),
        [_, ..] => stop_awaiting(node, tx, from),
    }
}

/// BackupFinished, where this node is the share's primary.
pub fn on_own_backup_finished(node: &mut Node, from: NodeId, tx: TxId, primary: NodeId) -> Mem<()>
    ensures { OnOk result (node.new ≡ after_backup_finished_at_primary node.old from tx primary) }
{
    if primary == node.me() {
        backup_finished(node, from, tx)
    } else {
        Ok(())
    }
}

/// NearDone: the reader is no longer awaited.
#[tactic(auto, using(act_rows::proofs::TableLaws::tx_put_put))]
pub fn on_near_done(node: &mut Node, from: NodeId, tx: TxId, key: Key) -> Mem<()>
    ensures { OnOk result (node.new ≡ after_near_done node.old from tx key) }
{
    let Some(mut share) = node.take_share(tx) else {
        return Ok(());
    };
    share.near.remove(&NearWait { key, node: from });
    node.put_share(tx, share)
}

/// No finish is in work any more.
#[tactic(auto, using(act_rows::proofs::TableLaws::tx_put_put))]
fn end_finish(node: &mut Node, tx: TxId) -> Mem<()>
    ensures { OnOk result (node.new ≡ with_finish_ended node.old tx) }
{
    let Some(mut share) = node.take_share(tx) else {
        return Ok(());
    };
    share.askers = Set::new(node.alloc);
    node.put_share(tx, share)
}

/// A finished share stays as Committed, or is dropped.
fn leave_share(node: &mut Node, tx: TxId, state: ShareState) -> Mem<()>
    ensures { OnOk result (node.new ≡ after_finished_share node.old tx state) }
{
    match state {
        ShareState::Undoing => {
            node.drop_share(&tx);
            Ok(())
        }
        _ => end_finish(node, tx),
    }
}

/// The end of a finish: the places are left, and each node that asked is told.
fn finish_over(node: &mut Node, tx: TxId, state: ShareState, told: List<Out>) -> Mem<()>
    ensures { OnOk result (node.new ≡ with_outs (after_finished_share (after_release_all node.old tx) tx state) told) }
{
    release_all(node, tx)?;
    leave_share(node, tx, state)?;
    node.send_all(told)
}

#[tactic(auto, using(act_rows::proofs::TableLaws::tx_put_put))]
fn set_prepared(node: &mut Node, tx: TxId) -> Mem<()>
    ensures { OnOk result (node.new ≡ on_share node.old tx (λ h. record h { state = Prepared }) (share_of node.old tx)) }
{
    let Some(mut share) = node.take_share(tx) else {
        return Ok(());
    };
    share.state = ShareState::Prepared;
    node.put_share(tx, share)
}

/// The share is prepared, and its starter is told.
fn be_prepared(node: &mut Node, tx: TxId) -> Mem<()>
    ensures { OnOk result (node.new ≡ after_share_prepared node.old tx) }
{
    set_prepared(node, tx)?;
    node.send(tx.node, Message::Prepared { tx })
}

/// A share that awaits no answer goes on: it is prepared, or its finish is over.
fn share_goes_on(node: &mut Node, tx: TxId) -> Mem<()>
    ensures { OnOk result (node.new ≡ after_advance_share node.old tx (share_of node.old tx)) }
{
    let Some(share) = node.share(&tx) else {
        return Ok(());
    };
    let askers = share.askers.as_slice();
    match (
        share.awaited.as_slice(),
        share.near.as_slice(),
        askers,
        share.state,
    ) {
        ([], [], [_, ..], state) => {
            let told = outs_to(node.alloc, askers, &Message::Finished { tx })?;
            finish_over(node, tx, state, told)
        }
        ([], _, [], ShareState::Preparing) => be_prepared(node, tx),
        _ => Ok(()),
    }
}

fn each_share_goes_on(node: &mut Node, txs: &[TxId]) -> Mem<()>
    ensures { OnOk result (node.new ≡ after_advance_shares node.old txs.now) }
{
    for tx in txs {
        share_goes_on(node, *tx)?;
    }
    Ok(())
}

/// The transactions of the own shares.
fn own_txs(node: &Node) -> Mem<List<TxId>>
    ensures { IfOk result (λ txs. txs ≡ own_txs node.now) }
{
    let mut txs = List::new(node.alloc);
    for (tx, _) in node.shares() {
        txs.push(*tx)?;
    }
    Ok(txs)
}

/// Each share that awaits no answer goes on, by transaction.
pub fn shares_go_on(node: &mut Node) -> Mem<()>
    ensures { OnOk result (node.new ≡ after_advance_shares node.old (own_txs node.old)) }
{
    let txs = own_txs(node)?;
    each_share_goes_on(node, txs.as_slice())
}

/// Those of these waits that are for other nodes.
fn waits_without(alloc: Global, waits: &[NearWait], node: NodeId) -> Mem<List<NearWait>>
    ensures { IfOk result (λ others. others ≡ filter (λ w. not (same_node w.node node)) waits.now) }
{
    let mut others = List::new(alloc);
    for wait in waits {
        if wait.node != node {
            others.push(*wait)?;
        }
    }
    Ok(others)
}

/// The share no longer awaits a node that has left.
fn stop_waiting(alloc: Global, share: &mut OwnShare, left: NodeId) -> Mem<()>
    ensures { OnOk result (share.new ≡ share_without_node left share.old) }
{
    let near = waits_without(alloc, share.near.as_slice(), left)?;
    share.awaited.remove(&left);
    share.near = Set::from_list(near);
    Ok(())
}

#[tactic(auto, using(act_rows::proofs::TableLaws::tx_put_put))]
fn share_saw_leave(node: &mut Node, left: NodeId, tx: TxId) -> Mem<()>
    ensures { OnOk result (node.new ≡ on_share node.old tx (share_without_node left) (share_of node.old tx)) }
{
    let Some(mut share) = node.take_share(tx) else {
        return Ok(());
    };
    stop_waiting(node.alloc, &mut share, left)?;
    node.put_share(tx, share)
}

fn shares_saw_leave(node: &mut Node, left: NodeId, txs: &[TxId]) -> Mem<()>
    ensures { OnOk result (node.new ≡ after_left_at_shares node.old left txs.now) }
{
    for tx in txs {
        share_saw_leave(node, left, *tx)?;
    }
    Ok(())
}

/// A primary sees a node leave: it is awaited no more, and is no reader.
pub fn primary_saw_leave(node: &mut Node, left: NodeId) -> Mem<()>
    ensures { OnOk result (node.new ≡ after_left_at_primary node.old left) }
{
    let txs = own_txs(node)?;
    shares_saw_leave(node, left, txs.as_slice())?;
    node.forget_reader(left);
    Ok(())
}
