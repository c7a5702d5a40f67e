//! Reads of a primary's entries without a lock.

ghost use Rattle.std.specs.Prelude.{◌≡◌, OnOk};
ghost use Rattle.act_rows.specs.Locks.{after_get};

use ignite_types::{Key, Mem, Message, NodeId, TxId};
use node_steps::Node;

/// Get: what the entry is, without a lock; the sender may become a reader of the key.
pub fn on_get(node: &mut Node, from: NodeId, tx: TxId, key: Key, near: bool) -> Mem<()>
    ensures { OnOk result (node.new ≡ after_get node.old from tx key near) }
{
    node.keep_reader(from, near, &key)?;
    let found = node.found_at(&key);
    node.send(from, Message::GetOk { tx, key, found })
}
