//! Prepare at a primary.

ghost use Rattle.std.specs.Prelude.{◌≡◌, IfOk, OnOk, filter, not};
ghost use Rattle.act_rows.specs.Primary.{after_backup_prepared, after_begin_share, after_draw, after_prepare, backup_prepare_outs, backups_for, drawn_writes, last_drawn, writes_held_by};
ghost use Rattle.act_rows.specs.Steps.{on_share, share_of};
ghost use Rattle.ignite_types.specs.Names.{node_cmp, same_node};
ghost use Rattle.ordered_set.specs.Members.{without_member};

use backup_sync::forget;
use ignite_types::{
    CacheVersion, Key, List, Mem, Message, Mode, NodeId, Out, Share, ShareState, Stored, TopVer,
    TxId, Value, Wanted,
};
use node_state::OwnShare;
use node_steps::Node;
use optimistic_tx::{check, own_each};
use ordered_set::Set;

/// The written entries with the versions that are drawn for them, and the last number drawn.
fn draw(node: &Node, top: TopVer, writes: &[(Key, Option<Value>)]) -> Mem<(List<Stored>, u64)>
    ensures entries { IfOk result (λ r. r.0 ≡ drawn_writes top node.now.me node.now.order writes.now) }
    ensures last { IfOk result (λ r. r.1 ≡ last_drawn node.now.order writes.now) }
{
    let mut entries = List::new(node.alloc);
    let mut order = node.last_order();
    let me = node.me();
    for (key, value) in writes {
        order = order.saturating_add(1);
        let ver = CacheVersion {
            top,
            order,
            node: me,
        };
        entries.push(Stored {
            key: *key,
            value: *value,
            ver,
        })?;
    }
    Ok((entries, order))
}

/// Those of these nodes that are not this one.
pub(crate) fn without_me(node: &Node, nodes: &[NodeId]) -> Mem<List<NodeId>>
    ensures { IfOk result (λ others. others ≡ filter (λ n. not (same_node n node.now.me)) nodes.now) }
{
    let mut others = List::new(node.alloc);
    for other in nodes {
        if *other != node.me() {
            others.push(*other)?;
        }
    }
    Ok(others)
}

/// The live holders of this primary's shares but itself.
pub(crate) fn backups_for(node: &Node, shares: &[Share]) -> Mem<List<NodeId>>
    ensures { IfOk result (λ nodes. nodes ≡ backups_for node.now shares.now) }
{
    let holders = node.live_holders(shares, node.me())?;
    without_me(node, holders.as_slice())
}

/// The writes of the partitions that a node holds.
fn writes_held(node: &Node, holder: NodeId, writes: &[Stored]) -> Mem<List<Stored>>
    ensures { IfOk result (λ held. held ≡ writes_held_by node.now holder writes.now) }
{
    let mut held = List::new(node.alloc);
    for write in writes {
        if node.holds(holder, &write.key) {
            held.push(*write)?;
        }
    }
    Ok(held)
}

/// BackupPrepare to each of these holders, with the writes of the partitions that it holds.
fn backup_prepare_outs(
    node: &Node,
    tx: TxId,
    top: TopVer,
    shares: &[Share],
    writes: &[Stored],
    holders: &[NodeId],
) -> Mem<List<Out>>
    ensures { IfOk result (λ outs. outs ≡ backup_prepare_outs node.now tx top shares.now writes.now holders.now) }
{
    let mut outs = List::new(node.alloc);
    let primary = node.me();
    for holder in holders {
        let to = *holder;
        let msg = Message::BackupPrepare {
            tx,
            top,
            shares: List::from_slice(node.alloc, shares)?,
            primary,
            writes: writes_held(node, to, writes)?,
        };
        outs.push(Out { to, msg })?;
    }
    Ok(outs)
}

/// The share is Preparing until each backup has confirmed it.
fn begin_share(
    node: &mut Node,
    tx: TxId,
    top: TopVer,
    shares: List<Share>,
    writes: List<Stored>,
    backups: List<NodeId>,
) -> Mem<()>
    ensures { OnOk result (node.new ≡ after_begin_share node.old tx top shares writes backups) }
{
    let outs = backup_prepare_outs(
        node,
        tx,
        top,
        shares.as_slice(),
        writes.as_slice(),
        backups.as_slice(),
    )?;
    let share = OwnShare {
        top,
        shares,
        writes,
        state: ShareState::Preparing,
        awaited: Set::from_list(backups),
        near: Set::new(node.alloc),
        askers: Set::new(node.alloc),
    };
    node.put_share(tx, share)?;
    node.send_all(outs)
}

/// Draws the versions of the writes, and begins the share.
fn draw_share(
    node: &mut Node,
    tx: TxId,
    top: TopVer,
    shares: List<Share>,
    writes: &[(Key, Option<Value>)],
) -> Mem<()>
    ensures { OnOk result (node.new ≡ after_draw node.old tx top shares writes.now) }
{
    let (entries, order) = draw(node, top, writes)?;
    let backups = backups_for(node, shares.as_slice())?;
    node.set_last_order(order);
    begin_share(node, tx, top, shares, entries, backups)
}

/// Prepare: a check and the locks in optimistic mode, the versions of the writes, and the share.
pub fn on_prepare(
    node: &mut Node,
    from: NodeId,
    tx: TxId,
    top: TopVer,
    mode: Mode,
    shares: List<Share>,
    wanted: &[Wanted],
    writes: &[(Key, Option<Value>)],
) -> Mem<()>
    ensures { OnOk result (node.new ≡ after_prepare node.old from tx top mode shares wanted.now writes.now) }
{
    forget(node, &tx)?;
    match mode {
        Mode::Pessimistic => draw_share(node, tx, top, shares, writes),
        Mode::Optimistic => match check(node, &tx, wanted)? {
            Some(fail) => node.send(from, Message::PrepareFail { tx, fail }),
            None => {
                own_each(node, tx, top, wanted)?;
                draw_share(node, tx, top, shares, writes)
            }
        },
    }
}

/// A holder's or reader's answer is no longer awaited.
#[tactic(auto, using(act_rows::proofs::TableLaws::tx_put_put))]
pub(crate) fn stop_awaiting(node: &mut Node, tx: TxId, from: NodeId) -> Mem<()>
    ensures { OnOk result (node.new ≡ on_share node.old tx
        (λ h. record h { awaited = without_member node_cmp h.awaited from }) (share_of node.old tx)) }
{
    let Some(mut share) = node.take_share(tx) else {
        return Ok(());
    };
    share.awaited.remove(&from);
    node.put_share(tx, share)
}

/// BackupPrepared counts while the share is Preparing.
pub fn on_backup_prepared(node: &mut Node, from: NodeId, tx: TxId) -> Mem<()>
    ensures { OnOk result (node.new ≡ after_backup_prepared node.old from tx) }
{
    let Some(share) = node.share(&tx) else {
        return Ok(());
    };
    match share.state {
        ShareState::Preparing => stop_awaiting(node, tx, from),
        _ => Ok(()),
    }
}
