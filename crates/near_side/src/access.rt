//! Accesses of a transaction whose version is fixed.

ghost use Rattle.std.specs.Prelude.{◌≡◌, OnOk, Some};
ghost use Rattle.part_model.specs.NearEntries.{near_entry};
ghost use Rattle.act_rows.specs.Accesses.{after_access, after_access_at, after_access_done, after_access_refused, after_add, after_known_access, after_near_hit, after_new_access, after_new_key, after_optimistic_access, after_optimistic_read, after_run_command, is_near_kept};
ghost use Rattle.act_rows.specs.Steps.{entry_of, near_of};

use crate::entries::{ask_lock, ask_value, keep_read, keep_write, set_outcome, touch, value_at};
use crate::preparing::commit;
use crate::values::{access_key, answer_of};
use ignite_types::limits::TRANSACTION_KEYS;
use ignite_types::{Answer, Command, Fault, Key, Mem, Message, Mode, NodeId, TopVer, TxId, Value};
use node_state::Read;
use node_steps::Node;
use part_model::NearEntry;
use session_scripts::added;
use tx_decisions::{decide, fail};

/// An access is done: in a block it is answered, a bare one is committed first.
fn access_done(node: &mut Node, tx: TxId, top: TopVer, block: bool, answer: &Answer) -> Mem<()>
    ensures { OnOk result (node.new ≡ after_access_done node.old tx top block answer.now) }
{
    if block {
        node.answer(tx.session, *answer)
    } else {
        set_outcome(node, tx, answer)?;
        commit(node, tx, top)
    }
}

/// An access can't be done: a block goes on, a bare one is rolled back first.
fn access_refused(node: &mut Node, tx: TxId, block: bool, answer: &Answer) -> Mem<()>
    ensures { OnOk result (node.new ≡ after_access_refused node.old tx block answer.now) }
{
    if block {
        node.answer(tx.session, *answer)
    } else {
        set_outcome(node, tx, answer)?;
        decide(node, tx, false)
    }
}

fn add(
    node: &mut Node,
    tx: TxId,
    top: TopVer,
    block: bool,
    key: &Key,
    sum: &Result<Value, Answer>,
) -> Mem<()>
    ensures { OnOk result (node.new ≡ after_add node.old tx top block key.now sum.now) }
{
    match sum {
        Ok(value) => {
            keep_write(node, tx, key, Some(*value))?;
            access_done(node, tx, top, block, &Answer::Found(*value))
        }
        Err(answer) => access_refused(node, tx, block, answer),
    }
}

/// An access of a key that the transaction has, or whose value is known.
pub(crate) fn do_known(
    node: &mut Node,
    tx: TxId,
    top: TopVer,
    block: bool,
    command: &Command,
) -> Mem<()>
    ensures { OnOk result (node.new ≡ after_known_access node.old tx top block command.now) }
{
    match command {
        Command::Get(key) => {
            let answer = answer_of(&value_at(node, &tx, key));
            access_done(node, tx, top, block, &answer)
        }
        Command::Put(key, value) => {
            keep_write(node, tx, key, Some(*value))?;
            access_done(node, tx, top, block, &Answer::Done)
        }
        Command::Remove(key) => {
            keep_write(node, tx, key, None)?;
            access_done(node, tx, top, block, &Answer::Done)
        }
        Command::Add(key, amount) => {
            let sum = added(&value_at(node, &tx, key), *amount);
            add(node, tx, top, block, key, &sum)
        }
        _ => Ok(()),
    }
}

/// Whether what a Get of the key finds is to be kept in the near cache.
fn is_near(node: &Node, key: &Key) -> bool
    ensures { result ≡ is_near_kept node.now key.now }
{
    node.near_size(key) != 0 && !node.holds(node.me(), key)
}

/// A near entry is used: it comes to the front and counts as read.
fn use_near(node: &mut Node, tx: TxId, key: &Key, entry: &NearEntry) -> Mem<()>
    requires there { near_entry (near_of node.old key.now) key.now ≡ Some entry.now }
    ensures { OnOk result (node.new ≡ after_near_hit node.old tx key.now entry.now) }
{
    node.use_near(key, entry);
    let read = Read {
        found: Some(entry.value),
        ver: entry.ver,
    };
    keep_read(node, tx, key, read)
}

/// A value that an optimistic access needs: from the near cache, or from the primary.
#[tactic(auto, using(crate::proofs::Touching::still_near))]
fn optimistic_read(
    node: &mut Node,
    tx: TxId,
    top: TopVer,
    block: bool,
    command: &Command,
    key: &Key,
    primary: NodeId,
) -> Mem<()>
    ensures { OnOk result (node.new ≡ after_optimistic_read node.old tx top block command.now key.now primary
        (near_entry (near_of node.old key.now) key.now)) }
{
    match node.near_entry(key) {
        Some(entry) => {
            touch(node, tx, key)?;
            use_near(node, tx, key, &entry)?;
            do_known(node, tx, top, block, command)
        }
        None => {
            let near = is_near(node, key);
            ask_value(node, tx, key, near)?;
            let key = *key;
            node.send(primary, Message::Get { tx, key, near })
        }
    }
}

fn optimistic_access(
    node: &mut Node,
    tx: TxId,
    top: TopVer,
    block: bool,
    command: &Command,
    key: &Key,
    primary: NodeId,
) -> Mem<()>
    ensures { OnOk result (node.new ≡ after_optimistic_access node.old tx top block command.now key.now primary) }
{
    match command {
        Command::Get(_) | Command::Add(_, _) => {
            optimistic_read(node, tx, top, block, command, key, primary)
        }
        _ => {
            touch(node, tx, key)?;
            do_known(node, tx, top, block, command)
        }
    }
}

/// An access of a new key at its primary, by the transaction's mode.
fn new_access(
    node: &mut Node,
    tx: TxId,
    top: TopVer,
    block: bool,
    command: &Command,
    key: &Key,
    primary: NodeId,
    mode: Mode,
) -> Mem<()>
    ensures { OnOk result (node.new ≡ after_new_access node.old tx top block command.now key.now primary mode) }
{
    match mode {
        Mode::Pessimistic => {
            ask_lock(node, tx, key, primary)?;
            let key = *key;
            node.send(primary, Message::Lock { tx, top, key })
        }
        Mode::Optimistic => optimistic_access(node, tx, top, block, command, key, primary),
    }
}

/// An access of the transaction: of a cache that does not run, of a key that it has, or of a new key.
fn access(
    node: &mut Node,
    tx: TxId,
    top: TopVer,
    block: bool,
    command: &Command,
    key: &Key,
) -> Mem<()>
    ensures { OnOk result (node.new ≡ after_access node.old tx top block command.now key.now (entry_of node.old tx)) }
{
    let Some(entry) = node.entry(&tx) else {
        return Ok(());
    };
    let Some(primary) = node.primary_at(key) else {
        return access_refused(node, tx, block, &Answer::NoCache(key.cache()));
    };
    if entry.keys.contains(key) {
        do_known(node, tx, top, block, command)
    } else if TRANSACTION_KEYS <= entry.keys.len() {
        access_refused(node, tx, block, &Answer::TooManyKeys)
    } else if node.is_live(primary) {
        let mode = entry.mode;
        new_access(node, tx, top, block, command, key, primary, mode)
    } else {
        fail(node, tx, &Fault::NodeLost(primary))
    }
}

/// A command of a transaction whose version is fixed, in a block or bare.
pub fn run_command(
    node: &mut Node,
    tx: TxId,
    top: TopVer,
    block: bool,
    command: &Command,
) -> Mem<()>
    ensures { OnOk result (node.new ≡ after_run_command node.old tx top block command.now) }
{
    match access_key(command) {
        Some(key) => access(node, tx, top, block, command, &key),
        None => match command {
            Command::Commit => commit(node, tx, top),
            _ => Ok(()),
        },
    }
}
