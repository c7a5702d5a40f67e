//! A map is installed.

ghost use Rattle.std.specs.Prelude.{◌≡◌, IfOk, OnOk, map};
ghost use Rattle.act_rows.specs.Exchange.{after_install, is_kept_commit, kept_copies};
ghost use Rattle.part_model.specs.NextMap.{has_node};
ghost use Rattle.part_model.specs.Tables.{keys_where};

use ignite_types::{List, Mem, NodeId, PartMap, Rec, Row, TxId};
use node_state::{BackupName, BackupShare, OwnShare};
use node_steps::{Node, has_node, is_kept_commit};
use plain_copies::Duplicate;
use std::alloc::Global;

/// Of each row whether a node owns its partition.
fn owned_parts(alloc: Global, me: NodeId, rows: &[Row]) -> Mem<List<bool>>
    ensures { IfOk result (λ owned. owned ≡ map (λ row. has_node row.owners me) rows.now) }
{
    let mut owned = List::new(alloc);
    for row in rows {
        owned.push(has_node(row.owners.as_slice(), me))?;
    }
    Ok(owned)
}

/// The copies of the partitions that the node owns in these rows stay, and the others are emptied.
fn keep_owned(node: &mut Node, rows: &[Row]) -> Mem<()>
    ensures { OnOk result (node.new ≡ record node.old { stores = kept_copies node.old.me node.old.stores rows.now }) }
{
    let owned = owned_parts(node.alloc, node.me(), rows)?;
    node.keep_copies(owned.as_slice());
    Ok(())
}

fn committed_shares(alloc: Global, shares: &[(TxId, OwnShare)]) -> Mem<List<TxId>>
    ensures { IfOk result (λ txs. txs ≡ keys_where (λ e. is_kept_commit e.1.state) shares.now) }
{
    let mut txs = List::new(alloc);
    for (tx, share) in shares {
        if is_kept_commit(share.state) {
            txs.push(*tx)?;
        }
    }
    Ok(txs)
}

fn committed_backups(alloc: Global, backups: &[(BackupName, BackupShare)]) -> Mem<List<BackupName>>
    ensures { IfOk result (λ names. names ≡ keys_where (λ e. is_kept_commit e.1.state) backups.now) }
{
    let mut names = List::new(alloc);
    for (name, share) in backups {
        if is_kept_commit(share.state) {
            names.push(*name)?;
        }
    }
    Ok(names)
}

/// A new map clears the copies that are not owned in it, near caches, readers, remembered commits, and what was filled.
pub fn install(node: &mut Node, map: PartMap) -> Mem<()>
    ensures { OnOk result (node.new ≡ after_install node.old map) }
{
    let alloc = node.alloc;
    let noted = map.copy(alloc)?;
    let txs = committed_shares(alloc, node.shares())?;
    let names = committed_backups(alloc, node.backups())?;
    keep_owned(node, map.rows.as_slice())?;
    node.clear_near();
    node.clear_readers();
    node.set_installed(map);
    node.drop_shares(txs.as_slice());
    node.drop_backups(names.as_slice());
    node.note(Rec::Install { map: noted })
}
