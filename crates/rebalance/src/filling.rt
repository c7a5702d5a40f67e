//! How the copies of movers are filled, and what the oldest member is told of it.

ghost use Rattle.std.specs.Prelude.{◌≡◌, IfOk, OnOk};
ghost use Rattle.std.specs.List.{list_all};
ghost use Rattle.act_rows.specs.Filling.{after_claim_if_all, after_complete, after_complete_part, after_demand, after_supplied, after_supply, all_claimed, all_filled, has_claim, last_key, may_switch, movers_in, with_copy};
ghost use Rattle.part_model.specs.Copies.{batch_of, batch_size, copy_after_supply, copy_at, is_last_batch, without_tombstones};
ghost use Rattle.rebalance.specs.Movers.{all_claim, has_mover};

use crate::demanding::rows;
use ignite_types::limits::BATCH_ENTRIES;
use ignite_types::{Key, List, Mem, Message, NodeId, Row, Stored, TopVer};
use node_steps::{Node, has_node};
use partition_store::Batch;

/// The next entries of a partition's copy after a key, and whether no value stands after them.
fn batch_at(node: &Node, part: u32, after: Option<Key>) -> Mem<Batch>
    ensures entries { IfOk result (λ batch. batch.entries ≡ batch_of (copy_at node.now.stores part) after batch_size) }
    ensures last { IfOk result (λ batch. batch.last ≡ is_last_batch (copy_at node.now.stores part) after batch_size) }
{
    match node.copy_of(part) {
        Some(copy) => copy.supply_batch(after, BATCH_ENTRIES),
        None => Ok(Batch {
            entries: List::new(node.alloc),
            last: true,
        }),
    }
}

/// Demand: the next entries after a key are sent.
pub fn on_demand(
    node: &mut Node,
    from: NodeId,
    top: TopVer,
    part: u32,
    after: Option<Key>,
) -> Mem<()>
    ensures { OnOk result (node.new ≡ after_demand node.old from top part after) }
{
    if !node.is_installed(top) {
        return Ok(());
    }
    let batch = batch_at(node, part, after)?;
    node.send(
        from,
        Message::Supply {
            top,
            part,
            entries: batch.entries,
            last: batch.last,
        },
    )
}

/// Entries are supplied to a partition's copy, where there is one.
#[tactic(auto, using(node_steps::proofs::Copies::set_nowhere))]
fn supply_copy(node: &mut Node, part: u32, entries: &[Stored]) -> Mem<()>
    ensures { OnOk result (node.new ≡ with_copy node.old part (copy_after_supply (copy_at node.old.stores part) entries.now)) }
{
    let Some(copy) = node.copy_mut(part) else {
        return Ok(());
    };
    copy.take_supplied(entries)
}

/// The marks of a partition's copy are dropped, where there is one.
#[tactic(auto, using(node_steps::proofs::Copies::set_nowhere))]
fn drop_copy_tombstones(node: &mut Node, part: u32)
    ensures { node.new ≡ with_copy node.old part (without_tombstones (copy_at node.old.stores part)) }
{
    let Some(copy) = node.copy_mut(part) else {
        return;
    };
    copy.drop_tombstones();
}

/// Whether each partition that this node moves is complete.
fn all_filled(node: &Node) -> bool
    ensures { result ≡ all_filled node.now }
{
    let mut part = 0u32;
    for row in rows(node) {
        if has_node(row.movers.as_slice(), node.me()) && !node.is_complete(part) {
            return false;
        }
        part = part.saturating_add(1);
    }
    true
}

/// Once all that this node moves is complete the oldest member is told so.
fn claim_if_all(node: &mut Node, top: TopVer) -> Mem<()>
    ensures { OnOk result (node.new ≡ after_claim_if_all node.old top) }
{
    if all_filled(node) {
        let oldest = node.oldest();
        node.send_to_oldest(Message::Complete { top }, oldest)
    } else {
        Ok(())
    }
}

/// The partition is complete, and its tombstones are dropped.
fn complete(node: &mut Node, top: TopVer, part: u32) -> Mem<()>
    ensures { OnOk result (node.new ≡ after_complete_part node.old top part) }
{
    drop_copy_tombstones(node, part);
    node.keep_complete(part)?;
    claim_if_all(node, top)
}

#[tactic(auto, using(crate::proofs::KeyLemmas::last_key_there))]
fn last_key(entries: &[Stored]) -> Option<Key>
    ensures { result ≡ last_key entries.now }
{
    match entries.last() {
        Some(entry) => Some(entry.key),
        None => None,
    }
}

/// After the last entries the partition is complete; else the next ones are asked for.
fn go_on(
    node: &mut Node,
    from: NodeId,
    top: TopVer,
    part: u32,
    entries: &[Stored],
    last: bool,
) -> Mem<()>
    ensures { OnOk result (node.new ≡ after_supplied node.old from top part entries.now last) }
{
    if last {
        complete(node, top, part)
    } else {
        let after = last_key(entries);
        node.send(from, Message::Demand { top, part, after })
    }
}

/// Supply: its entries are kept, and the next ones are asked for.
pub fn on_supply(
    node: &mut Node,
    from: NodeId,
    top: TopVer,
    part: u32,
    entries: &[Stored],
    last: bool,
) -> Mem<()>
    ensures { OnOk result (node.new ≡ after_supply node.old from top part entries.now last) }
{
    if node.is_installed(top) {
        supply_copy(node, part, entries)?;
        go_on(node, from, top, part, entries, last)
    } else {
        Ok(())
    }
}

/// Complete: the sender's claim is kept.
pub fn on_complete(node: &mut Node, from: NodeId, top: TopVer) -> Mem<()>
    ensures { OnOk result (node.new ≡ after_complete node.old from top) }
{
    node.keep_claim(from, top)
}

/// Whether a partition has a mover.
fn has_mover(rows: &[Row]) -> bool
    ensures { result ≡ has_mover rows.now }
{
    rows.iter().any(|row| !row.movers.is_empty())
}

/// Whether each of these movers has claimed.
fn claimed_by(node: &Node, movers: &[NodeId]) -> bool
    ensures { result ≡ list_all (has_claim node.now) movers.now }
{
    movers.iter().all(|mover| node.has_claim(*mover))
}

/// Whether each mover of these rows has claimed.
fn all_claim(node: &Node, rows: &[Row]) -> bool
    ensures { result ≡ all_claim node.now rows.now }
{
    rows.iter()
        .all(|row| claimed_by(node, row.movers.as_slice()))
}

/// Whether there are movers and each of them has claimed.
fn all_claimed(node: &Node, rows: &[Row]) -> bool
    ensures { result ≡ all_claimed node.now (movers_in rows.now) }
{
    has_mover(rows) && all_claim(node, rows)
}

/// Whether this node begins the late switch: it is the oldest member, the last version seen is open here, and all movers,
/// of which there are some, have filled their copies.
pub fn may_switch(node: &Node) -> bool
    ensures { result ≡ may_switch node.now }
{
    node.is_oldest()
        && node.is_installed(node.seen())
        && node.is_open()
        && all_claimed(node, rows(node))
}
