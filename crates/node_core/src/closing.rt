//! What a node does at the end of each act.

ghost use Rattle.std.specs.Prelude.{◌≡◌, OnOk, IfOk};
ghost use Rattle.part_model.specs.Tables.{keys_in};
ghost use Rattle.act_rows.specs.Closing.{after_advance_each_tx, after_advance_starter, after_advance_tx, after_closing_rules, after_send_single, after_single_if_drained, all_committed_backups, all_shares_done, all_txs_over, is_drained, is_tx_over, owes_single, was_sent};
ghost use Rattle.act_rows.specs.Exchange.{is_kept_commit};
ghost use Rattle.act_rows.specs.Steps.{entry_of};

use client_sessions::start_all;
use ignite_types::{List, Mem, Message, PartMap, TopVer, TxId};
use node_state::{BackupName, BackupShare, OwnShare, TxEntry, TxState};
use node_steps::{Node, is_kept_commit};
use plain_copies::Duplicate;
use prepare_finish::shares_go_on;
use tx_decisions::{decide, end, txs_of};
use tx_recovery::is_calm;

/// A transaction that awaits no answer of its phase goes on: it is decided, or it has ended.
fn near_on_entry(node: &mut Node, tx: TxId) -> Mem<()>
    ensures { OnOk result (node.new ≡ after_advance_tx node.old tx (entry_of node.old tx)) }
{
    let Some(entry) = node.entry(&tx) else {
        return Ok(());
    };
    let state = entry.state;
    let outcome = entry.outcome;
    let fault = entry.fault;
    match (entry.awaited.as_slice(), entry.backups.as_slice()) {
        ([], []) => match state {
            TxState::Preparing => decide(node, tx, true),
            TxState::Committing | TxState::RollingBack => { end(node, tx, state, &outcome, &fault) }
            _ => Ok(()),
        },
        _ => Ok(()),
    }
}

fn near_on_each(node: &mut Node, txs: &[TxId]) -> Mem<()>
    ensures { OnOk result (node.new ≡ after_advance_each_tx node.old txs.now) }
{
    for tx in txs {
        near_on_entry(node, *tx)?;
    }
    Ok(())
}

/// The near side's transactions go on, by transaction.
fn near_on(node: &mut Node) -> Mem<()>
    ensures { OnOk result (node.new ≡ after_advance_starter node.old) }
{
    let txs = txs_of(node)?;
    near_on_each(node, txs.as_slice())
}

/// Whether a transaction has no version, or has ended.
fn is_over(entry: &TxEntry) -> bool
    ensures { result ≡ is_tx_over entry.now entry.now.state }
{
    match entry.state {
        TxState::Ended => true,
        _ => entry.top.is_none(),
    }
}

fn all_over(txs: &[(TxId, TxEntry)]) -> bool
    ensures { result ≡ all_txs_over txs.now }
{
    for (_, entry) in txs {
        if !is_over(entry) {
            return false;
        }
    }
    true
}

/// Whether all shares are Committed, with no finish in work.
fn all_done(shares: &[(TxId, OwnShare)]) -> bool
    ensures { result ≡ all_shares_done shares.now }
{
    for (_, share) in shares {
        if !(is_kept_commit(share.state) && share.askers.len() == 0) {
            return false;
        }
    }
    true
}

fn all_committed_backups(backups: &[(BackupName, BackupShare)]) -> bool
    ensures { result ≡ all_committed_backups backups.now }
{
    for (_, backup) in backups {
        if !is_kept_commit(backup.state) {
            return false;
        }
    }
    true
}

/// Whether all older work has ended here.
fn is_drained(node: &Node) -> bool
    ensures { result ≡ is_drained node.now }
{
    all_over(node.entries())
        && node.is_free()
        && all_done(node.shares())
        && all_committed_backups(node.backups())
        && is_calm(node)
}

fn was_sent(top: TopVer, sent: Option<TopVer>) -> bool
    ensures { result ≡ was_sent top sent }
{
    match sent {
        Some(sent) => sent == top,
        None => false,
    }
}

fn owes_single(node: &Node) -> bool
    ensures { result ≡ owes_single node.now }
{
    !node.is_installed(node.seen())
        && !was_sent(node.seen(), node.single_sent())
        && is_drained(node)
}

/// A copy of the installed map.
fn installed_map(node: &Node) -> Mem<Option<PartMap>>
    ensures { IfOk result (λ map. map ≡ node.now.installed) }
{
    match node.installed() {
        Some(map) => Ok(Some(map.copy(node.alloc)?)),
        None => Ok(None),
    }
}

/// A drained node that has not installed the last version seen sends its Single once.
fn send_single(node: &mut Node) -> Mem<()>
    ensures { OnOk result (node.new ≡ after_send_single node.old) }
{
    let top = node.seen();
    let map = installed_map(node)?;
    let complete = List::from_slice(node.alloc, node.complete_parts())?;
    let oldest = node.oldest();
    node.set_single_sent(top);
    node.send_to_oldest(Message::Single { top, map, complete }, oldest)
}

/// The closing rules: the primary's shares go on first, then the near side; what starts goes on in the same act.
pub(crate) fn close(node: &mut Node) -> Mem<()>
    ensures { OnOk result (node.new ≡ after_closing_rules node.old) }
{
    shares_go_on(node)?;
    near_on(node)?;
    start_all(node)?;
    near_on(node)?;
    if owes_single(node) {
        send_single(node)
    } else {
        Ok(())
    }
}
