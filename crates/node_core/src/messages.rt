//! The message table.

ghost use Rattle.std.specs.Prelude.{◌≡◌, OnOk};
ghost use Rattle.act_rows.specs.Acts.{after_backup_finished, after_finished, after_holder_message, after_message, after_topology_message};

use backup_sync::{on_backup_finish, on_backup_prepare};
use deadlock_search::{on_edges, on_edges_ok};
use ignite_types::{List, Mem, Message, NodeId, TxId};
use near_side::{
    on_get_ok, on_lock_ok, on_near_backup_finished, on_near_finished, on_near_update,
    on_prepare_fail, on_prepared,
};
use node_steps::Node;
use optimistic_tx::on_get;
use partition_exchange::{on_full, on_installed, on_opens, on_single};
use pessimistic_tx::on_lock;
use plain_copies::Duplicate;
use prepare_finish::{
    on_backup_prepared, on_finish, on_near_done, on_own_backup_finished, on_prepare,
};
use rebalance::{on_complete, on_demand, on_supply};
use tx_recovery::{on_orphans, on_recovery_backup_finished, on_recovery_finished};

fn on_finished(node: &mut Node, from: NodeId, tx: TxId) -> Mem<()>
    ensures { OnOk result (node.new ≡ after_finished node.old from tx) }
{
    on_near_finished(node, from, tx)?;
    on_recovery_finished(node, from, tx);
    Ok(())
}

/// BackupFinished: to the primary, to the starter, or to the recoverer.
fn on_backup_finished(node: &mut Node, from: NodeId, tx: TxId, primary: NodeId) -> Mem<()>
    ensures { OnOk result (node.new ≡ after_backup_finished node.old from tx primary) }
{
    on_own_backup_finished(node, from, tx, primary)?;
    on_near_backup_finished(node, from, tx, primary)?;
    on_recovery_backup_finished(node, from, tx, primary);
    Ok(())
}

/// The messages of topology and recovery.
fn on_topology(node: &mut Node, from: NodeId, message: &Message) -> Mem<()>
    ensures { OnOk result (node.new ≡ after_topology_message node.old from message.now) }
{
    match message {
        Message::Single { top, map, complete } => {
            let map = map.copy(node.alloc)?;
            let complete = List::from_slice(node.alloc, complete.as_slice())?;
            on_single(node, from, *top, map, complete)
        }
        Message::Full { map } => {
            let map = map.copy(node.alloc)?;
            on_full(node, from, map)
        }
        Message::Installed { top } => on_installed(node, from, *top),
        Message::Opens { top } => on_opens(node, *top),
        Message::Demand { top, part, after } => on_demand(node, from, *top, *part, *after),
        Message::Supply {
            top,
            part,
            entries,
            last,
        } => on_supply(node, from, *top, *part, entries.as_slice(), *last),
        Message::Complete { top } => on_complete(node, from, *top),
        Message::Orphans { round, list } => {
            let list = list.copy(node.alloc)?;
            on_orphans(node, from, *round, list)
        }
        _ => Ok(()),
    }
}

/// The messages between a primary, its backups, movers and readers.
fn on_holder(node: &mut Node, from: NodeId, message: &Message) -> Mem<()>
    ensures { OnOk result (node.new ≡ after_holder_message node.old from message.now) }
{
    match message {
        Message::BackupPrepare {
            tx,
            top,
            shares,
            primary,
            writes,
        } => {
            let shares = List::from_slice(node.alloc, shares.as_slice())?;
            let writes = List::from_slice(node.alloc, writes.as_slice())?;
            on_backup_prepare(node, from, *tx, *top, shares, *primary, writes)
        }
        Message::BackupPrepared { tx } => on_backup_prepared(node, from, *tx),
        Message::BackupFinish {
            tx,
            primary,
            commit,
        } => on_backup_finish(node, from, *tx, *primary, *commit),
        Message::BackupFinished { tx, primary } => on_backup_finished(node, from, *tx, *primary),
        Message::NearUpdate { tx, key, new, ver } => {
            on_near_update(node, from, *tx, key, new, *ver)
        }
        Message::NearDone { tx, key } => on_near_done(node, from, *tx, *key),
        _ => on_topology(node, from, message),
    }
}

/// The message table.
pub(crate) fn on_message(node: &mut Node, from: NodeId, message: &Message) -> Mem<()>
    ensures { OnOk result (node.new ≡ after_message node.old from message.now) }
{
    match message {
        Message::Lock { tx, top, key } => on_lock(node, from, *tx, *top, *key),
        Message::LockOk { tx, key, found } => on_lock_ok(node, *tx, key, found),
        Message::Get { tx, key, near } => on_get(node, from, *tx, *key, *near),
        Message::GetOk { tx, key, found } => on_get_ok(node, *tx, key, found),
        Message::Prepare {
            tx,
            top,
            mode,
            shares,
            wanted,
            writes,
        } => {
            let shares = List::from_slice(node.alloc, shares.as_slice())?;
            let wanted = wanted.as_slice();
            on_prepare(
                node,
                from,
                *tx,
                *top,
                *mode,
                shares,
                wanted,
                writes.as_slice(),
            )
        }
        Message::Prepared { tx } => on_prepared(node, from, *tx),
        Message::PrepareFail { tx, fail } => on_prepare_fail(node, *tx, fail),
        Message::Finish { tx, commit } => on_finish(node, from, *tx, *commit),
        Message::Finished { tx } => on_finished(node, from, *tx),
        Message::Edges { tx, round, of } => on_edges(node, from, *tx, *round, of.as_slice()),
        Message::EdgesOk {
            tx,
            round,
            act,
            waits,
        } => on_edges_ok(node, from, *tx, *round, *act, waits.as_slice()),
        _ => on_holder(node, from, message),
    }
}
