//! What the recoverer awaits.

ghost use Rattle.std.specs.Prelude.{◌≡◌, OnOk, IfOk};
ghost use Rattle.act_rows.specs.Recovery.{after_backup_finished_at_recoverer, after_finished_at_recoverer, with_backup_waits, with_finish_waits, with_verdict_awaited};

use ignite_types::{Mem, NodeId, Share, TxId};
use node_state::{BackupWait, FinishWait};
use node_steps::Node;
use ordered_set::Set;

fn add_finishes(set: &mut Set<FinishWait>, tx: TxId, nodes: &[NodeId]) -> Mem<()>
    ensures { OnOk result (set.new ≡ with_finish_waits set.old tx nodes.now) }
{
    for node in nodes {
        let node = *node;
        set.insert(FinishWait { tx, node })?;
    }
    Ok(())
}

fn add_backups(set: &mut Set<BackupWait>, tx: TxId, shares: &[Share]) -> Mem<()>
    ensures { OnOk result (set.new ≡ with_backup_waits set.old tx shares.now) }
{
    for share in shares {
        set.insert(BackupWait {
            tx,
            primary: share.primary,
            holder: share.holder,
        })?;
    }
    Ok(())
}

/// The answers to a verdict are awaited.
pub(crate) fn await_verdict(
    node: &mut Node,
    tx: TxId,
    nodes: &[NodeId],
    backups: &[Share],
) -> Mem<()>
    ensures { OnOk result (node.new ≡ with_verdict_awaited node.old tx nodes.now backups.now) }
{
    let Some(mut round) = node.take_round() else {
        return Ok(());
    };
    add_finishes(&mut round.finishes, tx, nodes)?;
    add_backups(&mut round.backups, tx, backups)?;
    node.put_round(round);
    Ok(())
}

/// Finished, to the recoverer.
pub fn on_recovery_finished(node: &mut Node, from: NodeId, tx: TxId)
    ensures { node.new ≡ after_finished_at_recoverer node.old from tx }
{
    if let Some(mut round) = node.take_round() {
        round.finishes.remove(&FinishWait { tx, node: from });
        node.put_round(round);
    }
}

/// BackupFinished, to the recoverer.
pub fn on_recovery_backup_finished(node: &mut Node, from: NodeId, tx: TxId, primary: NodeId)
    ensures { node.new ≡ after_backup_finished_at_recoverer node.old from tx primary }
{
    if let Some(mut round) = node.take_round() {
        round.backups.remove(&BackupWait {
            tx,
            primary,
            holder: from,
        });
        node.put_round(round);
    }
}
