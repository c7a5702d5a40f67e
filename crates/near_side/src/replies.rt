//! Answers of the primaries, and updates of the near cache.

ghost use Rattle.std.specs.Prelude.{◌≡◌, OnOk, Some};
ghost use Rattle.act_rows.specs.Accesses.{after_backup_finished_at_starter, after_finished_at_starter, after_get_ok, after_keep_near, after_lock_ok, after_near_update, after_prepare_fail, after_prepared, after_resume, is_pending_access, tx_state_of, with_found_read};
ghost use Rattle.act_rows.specs.Steps.{session_state_of};

use crate::access::do_known;
use crate::entries::{got_value, keep_read, no_longer_await, set_state};
use crate::values::{access_key, read_of};
use ignite_types::{
    CacheVersion, Command, Fail, Fault, Found, Key, Mem, Message, NodeId, Share, TopVer, TxId,
    Value,
};
use node_state::{SessionState, TxState};
use node_steps::Node;
use part_model::NearEntry;
use tx_decisions::fail;

/// A read keeps what was found.
fn keep_found(node: &mut Node, tx: TxId, key: &Key, found: &Found, command: &Command) -> Mem<()>
    ensures { OnOk result (node.new ≡ with_found_read node.old tx key.now found.now command.now) }
{
    match command {
        Command::Get(_) | Command::Add(_, _) => keep_read(node, tx, key, read_of(found)),
        _ => Ok(()),
    }
}

/// The pending command has what it waited for: it is done.
fn go_on(node: &mut Node, tx: TxId, key: &Key, found: &Found, top: Option<TopVer>) -> Mem<()>
    ensures { OnOk result (node.new ≡ after_resume node.old tx key.now found.now top (session_state_of node.old tx.session)) }
{
    let Some(top) = top else {
        return Ok(());
    };
    let Some(session_state) = node.session_state(tx.session) else {
        return Ok(());
    };
    let block = session_state.block;
    match session_state.pending {
        Some(command) => {
            keep_found(node, tx, key, found, &command)?;
            do_known(node, tx, top, block, &command)
        }
        None => Ok(()),
    }
}

/// Whether the pending command is an access of this key.
fn is_pending(key: &Key, session_state: &SessionState) -> bool
    ensures { result ≡ is_pending_access key.now (Some session_state.now) }
{
    match &session_state.pending {
        Some(command) => match access_key(command) {
            Some(other) => *key == other,
            None => false,
        },
        None => false,
    }
}

/// LockOk, dropped where the transaction does not wait for a lock any more.
pub fn on_lock_ok(node: &mut Node, tx: TxId, key: &Key, found: &Found) -> Mem<()>
    ensures { OnOk result (node.new ≡ after_lock_ok node.old tx key.now found.now) }
{
    let Some(entry) = node.entry(&tx) else {
        return Ok(());
    };
    let top = entry.top;
    match entry.state {
        TxState::Waiting => {
            let Some(session_state) = node.session_state(tx.session) else {
                return Ok(());
            };
            if is_pending(key, session_state) {
                set_state(node, tx, TxState::Active)?;
                go_on(node, tx, key, found, top)
            } else {
                Ok(())
            }
        }
        _ => Ok(()),
    }
}

/// What was found goes into the near cache, where it was asked so and there is a value.
fn keep_near(node: &mut Node, key: &Key, near: bool, found: &Found) -> Mem<()>
    ensures { OnOk result (node.new ≡ after_keep_near node.old key.now near found.now) }
{
    match (near, found) {
        (true, Some((value, ver))) => {
            let entry = NearEntry {
                key: *key,
                value: *value,
                ver: *ver,
            };
            node.keep_near(&entry)
        }
        _ => Ok(()),
    }
}

/// GetOk, dropped where it is not awaited any more.
pub fn on_get_ok(node: &mut Node, tx: TxId, key: &Key, found: &Found) -> Mem<()>
    ensures { OnOk result (node.new ≡ after_get_ok node.old tx key.now found.now) }
{
    let Some(entry) = node.entry(&tx) else {
        return Ok(());
    };
    let top = entry.top;
    let Some(getting) = entry.getting else {
        return Ok(());
    };
    if getting.key == *key {
        got_value(node, tx)?;
        keep_near(node, key, getting.near, found)?;
        go_on(node, tx, key, found, top)
    } else {
        Ok(())
    }
}

/// The state of a transaction; Ended where it is not known.
fn state_of(node: &Node, tx: &TxId) -> TxState
    ensures { result ≡ tx_state_of node.now tx.now }
{
    match node.entry(tx) {
        Some(entry) => entry.state,
        None => TxState::Ended,
    }
}

/// Prepared: the sender is no longer awaited.
pub fn on_prepared(node: &mut Node, from: NodeId, tx: TxId) -> Mem<()>
    ensures { OnOk result (node.new ≡ after_prepared node.old from tx) }
{
    match state_of(node, &tx) {
        TxState::Preparing => no_longer_await(node, tx, from),
        _ => Ok(()),
    }
}

/// PrepareFail: the first one is the fault.
pub fn on_prepare_fail(node: &mut Node, tx: TxId, why: &Fail) -> Mem<()>
    ensures { OnOk result (node.new ≡ after_prepare_fail node.old tx why.now) }
{
    match state_of(node, &tx) {
        TxState::Preparing => fail(node, tx, &Fault::Check(*why)),
        _ => Ok(()),
    }
}

/// Finished: the sender is no longer awaited.
pub fn on_near_finished(node: &mut Node, from: NodeId, tx: TxId) -> Mem<()>
    ensures { OnOk result (node.new ≡ after_finished_at_starter node.old from tx) }
{
    match state_of(node, &tx) {
        TxState::Committing => no_longer_await(node, tx, from),
        TxState::RollingBack => no_longer_await(node, tx, from),
        _ => Ok(()),
    }
}

/// BackupFinished for a lost primary's share: its holder is no longer awaited.
#[tactic(auto, using(act_rows::proofs::TableLaws::tx_put_put))]
pub fn on_near_backup_finished(node: &mut Node, from: NodeId, tx: TxId, primary: NodeId) -> Mem<()>
    ensures { OnOk result (node.new ≡ after_backup_finished_at_starter node.old from tx primary) }
{
    let Some(mut entry) = node.take_entry(tx) else {
        return Ok(());
    };
    entry.backups.remove(&Share {
        holder: from,
        primary,
    });
    node.put_entry(tx, entry)
}

/// NearUpdate: a near entry is brought up to date, and the primary is told.
pub fn on_near_update(
    node: &mut Node,
    from: NodeId,
    tx: TxId,
    key: &Key,
    new: &Option<Value>,
    ver: CacheVersion,
) -> Mem<()>
    ensures { OnOk result (node.new ≡ after_near_update node.old from tx key.now new.now ver) }
{
    node.update_near(key, new, ver)?;
    let key = *key;
    node.send(from, Message::NearDone { tx, key })
}
