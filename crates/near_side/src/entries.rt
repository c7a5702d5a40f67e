//! Small steps on a transaction's entry; nothing where there is none.

ghost use Rattle.std.specs.Prelude.{◌≡◌, OnOk};
ghost use Rattle.act_rows.specs.Accesses.{value_at, with_lock_asked, with_outcome, with_read, with_touched, with_tx_state, with_value_asked, with_write, without_awaited, without_getting};
ghost use Rattle.act_rows.specs.Starts.{with_version};
ghost use Rattle.act_rows.specs.Steps.{entry_of};

use crate::values::value_before;
use ignite_types::{Answer, Key, Mem, NodeId, TopVer, TxId, Value};
use node_state::{Getting, Read, TxState};
use node_steps::Node;

/// The value before an access of the transaction.
pub(crate) fn value_at(node: &Node, tx: &TxId, key: &Key) -> Option<Value>
    ensures { result ≡ value_at (entry_of node.now tx.now) key.now }
{
    match node.entry(tx) {
        Some(entry) => value_before(entry, key),
        None => None,
    }
}

#[tactic(auto, using(act_rows::proofs::TableLaws::tx_put_put))]
pub(crate) fn keep_read(node: &mut Node, tx: TxId, key: &Key, read: Read) -> Mem<()>
    ensures { OnOk result (node.new ≡ with_read node.old tx key.now read) }
{
    let Some(mut entry) = node.take_entry(tx) else {
        return Ok(());
    };
    entry.reads.set(*key, read)?;
    node.put_entry(tx, entry)
}

#[tactic(auto, using(act_rows::proofs::TableLaws::tx_put_put))]
pub(crate) fn keep_write(node: &mut Node, tx: TxId, key: &Key, new: Option<Value>) -> Mem<()>
    ensures { OnOk result (node.new ≡ with_write node.old tx key.now new) }
{
    let Some(mut entry) = node.take_entry(tx) else {
        return Ok(());
    };
    entry.writes.set(*key, new)?;
    node.put_entry(tx, entry)
}

#[tactic(auto, using(act_rows::proofs::TableLaws::tx_put_put))]
pub(crate) fn set_state(node: &mut Node, tx: TxId, state: TxState) -> Mem<()>
    ensures { OnOk result (node.new ≡ with_tx_state node.old tx state) }
{
    let Some(mut entry) = node.take_entry(tx) else {
        return Ok(());
    };
    entry.state = state;
    node.put_entry(tx, entry)
}

/// What a bare access is to be answered.
#[tactic(auto, using(act_rows::proofs::TableLaws::tx_put_put))]
pub(crate) fn set_outcome(node: &mut Node, tx: TxId, answer: &Answer) -> Mem<()>
    ensures { OnOk result (node.new ≡ with_outcome node.old tx answer.now) }
{
    let Some(mut entry) = node.take_entry(tx) else {
        return Ok(());
    };
    entry.outcome = Some(*answer);
    node.put_entry(tx, entry)
}

#[tactic(auto, using(act_rows::proofs::TableLaws::tx_put_put))]
pub(crate) fn touch(node: &mut Node, tx: TxId, key: &Key) -> Mem<()>
    ensures { OnOk result (node.new ≡ with_touched node.old tx key.now) }
{
    let Some(mut entry) = node.take_entry(tx) else {
        return Ok(());
    };
    entry.keys.insert(*key)?;
    node.put_entry(tx, entry)
}

/// The key is touched, and its primary is asked for the lock.
#[tactic(auto, using(act_rows::proofs::TableLaws::tx_put_put))]
pub(crate) fn ask_lock(node: &mut Node, tx: TxId, key: &Key, primary: NodeId) -> Mem<()>
    ensures { OnOk result (node.new ≡ with_lock_asked node.old tx key.now primary) }
{
    let Some(mut entry) = node.take_entry(tx) else {
        return Ok(());
    };
    entry.keys.insert(*key)?;
    entry.asked.insert(primary)?;
    entry.state = TxState::Waiting;
    node.put_entry(tx, entry)
}

/// The key is touched, and its primary is asked for what it has.
#[tactic(auto, using(act_rows::proofs::TableLaws::tx_put_put))]
pub(crate) fn ask_value(node: &mut Node, tx: TxId, key: &Key, near: bool) -> Mem<()>
    ensures { OnOk result (node.new ≡ with_value_asked node.old tx key.now near) }
{
    let Some(mut entry) = node.take_entry(tx) else {
        return Ok(());
    };
    entry.keys.insert(*key)?;
    entry.getting = Some(Getting { key: *key, near });
    node.put_entry(tx, entry)
}

/// No Get is awaited any more.
#[tactic(auto, using(act_rows::proofs::TableLaws::tx_put_put))]
pub(crate) fn got_value(node: &mut Node, tx: TxId) -> Mem<()>
    ensures { OnOk result (node.new ≡ without_getting node.old tx) }
{
    let Some(mut entry) = node.take_entry(tx) else {
        return Ok(());
    };
    entry.getting = None;
    node.put_entry(tx, entry)
}

/// The transaction's topology version is fixed.
#[tactic(auto, using(act_rows::proofs::TableLaws::tx_put_put))]
pub fn fix_version(node: &mut Node, tx: TxId, top: TopVer) -> Mem<()>
    ensures { OnOk result (node.new ≡ with_version node.old tx top) }
{
    let Some(mut entry) = node.take_entry(tx) else {
        return Ok(());
    };
    entry.top = Some(top);
    entry.state = TxState::Active;
    node.put_entry(tx, entry)
}

/// A node's answer is no longer awaited.
#[tactic(auto, using(act_rows::proofs::TableLaws::tx_put_put))]
pub(crate) fn no_longer_await(node: &mut Node, tx: TxId, from: NodeId) -> Mem<()>
    ensures { OnOk result (node.new ≡ without_awaited node.old tx from) }
{
    let Some(mut entry) = node.take_entry(tx) else {
        return Ok(());
    };
    entry.awaited.remove(&from);
    node.put_entry(tx, entry)
}
