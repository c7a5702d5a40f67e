//! Locks at a primary.

ghost use Rattle.std.specs.Prelude.{◌≡◌, OnOk};
ghost use Rattle.act_rows.specs.Locks.{after_grant, after_lock, after_release, after_release_all, after_release_each};

use ignite_types::{Key, Mem, Message, NodeId, Rec, TopVer, TxId};
use node_steps::Node;

/// The transaction owns the key from now on, and its starter is told what the entry is.
fn grant(node: &mut Node, to: NodeId, tx: TxId, top: TopVer, key: &Key) -> Mem<()>
    ensures { OnOk result (node.new ≡ after_grant node.old to tx top key.now) }
{
    let found = node.found_at(key);
    node.note(Rec::Grant { tx, top, key: *key })?;
    node.send(
        to,
        Message::LockOk {
            tx,
            key: *key,
            found,
        },
    )
}

/// Lock: the first at the key owns it and is told so, any other waits.
pub fn on_lock(node: &mut Node, from: NodeId, tx: TxId, top: TopVer, key: Key) -> Mem<()>
    ensures { OnOk result (node.new ≡ after_lock node.old from tx top key) }
{
    let owner = node.owner(&key);
    node.enqueue(tx, &key)?;
    match owner {
        None => grant(node, from, tx, top, &key),
        Some(holder) => node.note(Rec::Queue { tx, key, holder }),
    }
}

/// The transaction leaves the key's queue; where it owned the key, the next one owns it.
fn release(node: &mut Node, tx: TxId, key: &Key) -> Mem<()>
    ensures { OnOk result (node.new ≡ after_release node.old tx key.now) }
{
    let owned = node.owns(&tx, key);
    node.leave_queue(tx, key);
    node.note(Rec::Drop { tx, key: *key })?;
    match (owned, node.owner(key)) {
        (true, Some(next)) => grant(node, next.node, next, node.installed_top(), key),
        _ => Ok(()),
    }
}

/// The transaction leaves the queues of these keys, one after the other.
fn release_each(node: &mut Node, tx: TxId, keys: &[Key]) -> Mem<()>
    ensures { OnOk result (node.new ≡ after_release_each node.old tx keys.now) }
{
    for key in keys {
        release(node, tx, key)?;
    }
    Ok(())
}

/// The transaction leaves all queues in which it stands, in the keys' order.
pub fn release_all(node: &mut Node, tx: TxId) -> Mem<()>
    ensures { OnOk result (node.new ≡ after_release_all node.old tx) }
{
    let keys = node.keys_of(tx)?;
    release_each(node, tx, keys.as_slice())
}
