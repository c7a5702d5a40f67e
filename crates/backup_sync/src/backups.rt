//! A backup's or mover's part in both phases.

ghost use Rattle.std.specs.Prelude.{◌≡◌, OnOk, IfOk};
ghost use Rattle.act_rows.specs.Backups.{after_backup_finish, after_backup_finish_of, after_backup_prepare, after_commit_backup};
ghost use Rattle.act_rows.specs.Steps.{backup_of};

use crate::forgetting::forget;
use ignite_types::{List, Mem, Message, NodeId, Share, ShareState, Stored, TopVer, TxId};
use node_state::BackupShare;
use node_steps::Node;
use std::alloc::Global;

/// BackupPrepare: the share is Prepared with these writes.
pub fn on_backup_prepare(
    node: &mut Node,
    from: NodeId,
    tx: TxId,
    top: TopVer,
    shares: List<Share>,
    primary: NodeId,
    writes: List<Stored>,
) -> Mem<()>
    ensures { OnOk result (node.new ≡ after_backup_prepare node.old from tx top shares primary writes) }
{
    forget(node, &tx)?;
    let share = BackupShare {
        top,
        shares,
        writes,
        state: ShareState::Prepared,
    };
    node.put_backup(tx, primary, share)?;
    node.send(from, Message::BackupPrepared { tx })
}

fn copy_backup(alloc: Global, share: &BackupShare) -> Mem<BackupShare>
    ensures { IfOk result (λ copy. copy ≡ share.now) }
{
    Ok(BackupShare {
        top: share.top,
        shares: List::from_slice(alloc, share.shares.as_slice())?,
        writes: List::from_slice(alloc, share.writes.as_slice())?,
        state: share.state,
    })
}

/// The writes are done, and the share is kept as Committed.
fn commit_backup(node: &mut Node, tx: TxId, primary: NodeId, share: BackupShare) -> Mem<()>
    ensures { OnOk result (node.new ≡ after_commit_backup node.old tx primary share) }
{
    let mut kept = share;
    node.apply_all(tx, kept.top, primary, kept.writes.as_slice())?;
    kept.state = ShareState::Committed;
    node.put_backup(tx, primary, kept)
}

/// A Prepared share is committed, and any is dropped by a rollback.
fn finish_backup(node: &mut Node, tx: TxId, primary: NodeId, commit: bool) -> Mem<()>
    ensures { OnOk result (node.new ≡ after_backup_finish_of node.old tx primary commit (backup_of node.old tx primary)) }
{
    let Some(share) = node.backup(tx, primary) else {
        return Ok(());
    };
    match (commit, share.state) {
        (true, ShareState::Prepared) => {
            let copy = copy_backup(node.alloc, share)?;
            commit_backup(node, tx, primary, copy)
        }
        (true, _) => Ok(()),
        (false, _) => {
            node.drop_backup(tx, primary);
            Ok(())
        }
    }
}

/// BackupFinish: a Prepared share is committed or dropped; always answered.
pub fn on_backup_finish(
    node: &mut Node,
    from: NodeId,
    tx: TxId,
    primary: NodeId,
    commit: bool,
) -> Mem<()>
    ensures { OnOk result (node.new ≡ after_backup_finish node.old from tx primary commit) }
{
    finish_backup(node, tx, primary, commit)?;
    node.send(from, Message::BackupFinished { tx, primary })
}
