//! Shares that are remembered of ended transactions.

ghost use Rattle.std.specs.Prelude.{◌≡◌, IfOk, OnOk};
ghost use Rattle.act_rows.specs.Primary.{after_forget, is_forgettable};
ghost use Rattle.part_model.specs.Tables.{keys_where};

use ignite_types::{List, Mem, ShareState, TxId};
use node_state::{BackupName, BackupShare, OwnShare};
use node_steps::Node;
use std::alloc::Global;

/// Whether `other` is an earlier transaction of the same session whose share is Committed.
fn is_old(tx: &TxId, other: &TxId, state: ShareState) -> bool
    ensures { result ≡ is_forgettable tx.now other.now state }
{
    match state {
        ShareState::Committed => {
            tx.node == other.node && tx.session == other.session && other.number < tx.number
        }
        _ => false,
    }
}

fn old_shares(alloc: Global, shares: &[(TxId, OwnShare)], tx: &TxId) -> Mem<List<TxId>>
    ensures { IfOk result (λ old. old ≡ keys_where (λ e. is_forgettable tx.now e.0 e.1.state) shares.now) }
{
    let mut old = List::new(alloc);
    for (other, share) in shares {
        if is_old(tx, other, share.state) {
            old.push(*other)?;
        }
    }
    Ok(old)
}

fn old_backups(
    alloc: Global,
    backups: &[(BackupName, BackupShare)],
    tx: &TxId,
) -> Mem<List<BackupName>>
    ensures { IfOk result (λ old. old ≡ keys_where (λ e. is_forgettable tx.now e.0.tx e.1.state) backups.now) }
{
    let mut old = List::new(alloc);
    for (name, share) in backups {
        if is_old(tx, &name.tx, share.state) {
            old.push(*name)?;
        }
    }
    Ok(old)
}

/// The earlier transactions of its session are forgotten where they are Committed.
pub fn forget(node: &mut Node, tx: &TxId) -> Mem<()>
    ensures { OnOk result (node.new ≡ after_forget node.old tx.now) }
{
    let shares = old_shares(node.alloc, node.shares(), tx)?;
    let backups = old_backups(node.alloc, node.backups(), tx)?;
    node.drop_shares(shares.as_slice());
    node.drop_backups(backups.as_slice());
    Ok(())
}
