//! The commit's first phase: Prepare to each primary of a touched key.

ghost use Rattle.std.specs.Prelude.{◌≡◌, ◌++◌, OnOk, IfOk, Some};
ghost use Rattle.act_rows.specs.Accesses.{after_commit, after_send_prepares, prepare_outs, shares_at, shares_for, shares_from, shares_of, wanted_at, with_preparing, writes_at};
ghost use Rattle.act_rows.specs.Steps.{primary_at};
ghost use Rattle.part_model.specs.Orders.{is_node};
ghost use Rattle.std.specs.Prelude.{[]};

use crate::values::version_read;
use ignite_types::{
    Key, List, Mem, Message, NodeId, Out, PartMap, Row, Share, TopVer, TxId, Value, Wanted,
};
use node_state::{TxEntry, TxState};
use node_steps::Node;
use ordered_set::Set;
use std::alloc::Global;
use tx_decisions::{decide, primaries_at};

/// Each of these holders with the primary.
fn add_shares(shares: &mut Set<Share>, holders: &[NodeId], primary: NodeId) -> Mem<()>
    ensures { OnOk result (shares.new ≡ shares_for shares.old holders.now primary) }
{
    for node in holders {
        let holder = *node;
        shares.insert(Share { holder, primary })?;
    }
    Ok(())
}

/// Each holder of the row with its primary, where it has one.
fn add_row(shares: &mut Set<Share>, row: &Row) -> Mem<()>
    ensures { OnOk result (shares.new ≡ shares_at shares.old (Some row.now)) }
{
    match row.first_owner() {
        Some(primary) => {
            add_shares(shares, row.owners.as_slice(), primary)?;
            add_shares(shares, row.movers.as_slice(), primary)
        }
        None => Ok(()),
    }
}

/// All shares of a transaction that touches these keys.
fn shares_in(alloc: Global, map: &PartMap, keys: &[Key]) -> Mem<Set<Share>>
    ensures { IfOk result (λ shares. shares ≡ shares_from map.now [] keys.now) }
{
    let mut shares = Set::new(alloc);
    for key in keys {
        if let Some(row) = map.row_of(key) {
            add_row(&mut shares, row)?;
        }
    }
    Ok(shares)
}

/// For each touched partition each holder, with its primary.
pub fn shares_of(node: &Node, keys: &[Key]) -> Mem<Set<Share>>
    ensures { IfOk result (λ shares. shares ≡ shares_of node.now.installed keys.now) }
{
    match node.installed() {
        Some(map) => shares_in(node.alloc, map, keys),
        None => Ok(Set::new(node.alloc)),
    }
}

/// Whether a key's primary is this node.
fn is_at(node: &Node, primary: NodeId, key: &Key) -> bool
    ensures { result ≡ is_node primary (primary_at node.now key.now) }
{
    match node.primary_at(key) {
        Some(other) => primary == other,
        None => false,
    }
}

/// The primary's touched keys, each with the version that came with its read.
fn wanted_at(node: &Node, entry: &TxEntry, primary: NodeId, keys: &[Key]) -> Mem<List<Wanted>>
    ensures { IfOk result (λ wanted. wanted ≡ wanted_at node.now entry.now primary keys.now) }
{
    let mut wanted = List::new(node.alloc);
    for key in keys {
        if is_at(node, primary, key) {
            wanted.push(Wanted {
                key: *key,
                had: version_read(entry, key),
            })?;
        }
    }
    Ok(wanted)
}

/// The primary's written keys with their last writes.
fn writes_at(
    node: &Node,
    primary: NodeId,
    all: &[(Key, Option<Value>)],
) -> Mem<List<(Key, Option<Value>)>>
    ensures { IfOk result (λ writes. writes ≡ writes_at node.now primary all.now) }
{
    let mut writes = List::new(node.alloc);
    for write in all {
        if is_at(node, primary, &write.0) {
            writes.push(*write)?;
        }
    }
    Ok(writes)
}

/// Prepare, to each of these primaries.
fn prepare_outs(
    node: &Node,
    tx: TxId,
    top: TopVer,
    entry: &TxEntry,
    shares: &[Share],
    primaries: &[NodeId],
) -> Mem<List<Out>>
    ensures { IfOk result (λ outs. outs ≡ prepare_outs node.now tx top entry.now shares.now primaries.now) }
{
    let mut outs = List::new(node.alloc);
    for primary in primaries {
        let to = *primary;
        outs.push(Out {
            to,
            msg: Message::Prepare {
                tx,
                top,
                mode: entry.mode,
                shares: List::from_slice(node.alloc, shares)?,
                wanted: wanted_at(node, entry, to, entry.keys.as_slice())?,
                writes: writes_at(node, to, entry.writes.as_slice())?,
            },
        })?;
    }
    Ok(outs)
}

/// Each primary of a touched key is asked, and awaited.
#[tactic(auto, using(act_rows::proofs::TableLaws::tx_put_put))]
fn begin_prepare(node: &mut Node, tx: TxId, primaries: &Set<NodeId>, shares: &[Share]) -> Mem<()>
    ensures { OnOk result (node.new ≡ with_preparing node.old tx primaries.now shares.now) }
{
    let Some(mut entry) = node.take_entry(tx) else {
        return Ok(());
    };
    entry.state = TxState::Preparing;
    entry.asked = primaries.copy(node.alloc)?;
    entry.awaited = primaries.copy(node.alloc)?;
    entry.shares = List::from_slice(node.alloc, shares)?;
    node.put_entry(tx, entry)
}

/// The commit's first phase; without keys the decision comes at once.
pub fn commit(node: &mut Node, tx: TxId, top: TopVer) -> Mem<()>
    ensures { OnOk result (node.new ≡ after_commit node.old tx top) }
{
    let Some(entry) = node.entry(&tx) else {
        return Ok(());
    };
    match entry.keys.as_slice() {
        [] => decide(node, tx, true),
        keys => {
            let primaries = primaries_at(node, keys)?;
            let shares = shares_of(node, keys)?;
            let outs = prepare_outs(
                node,
                tx,
                top,
                entry,
                shares.as_slice(),
                primaries.as_slice(),
            )?;
            begin_prepare(node, tx, &primaries, shares.as_slice())?;
            node.send_all(outs)
        }
    }
}
