//! Decisions and faults.

ghost use Rattle.std.specs.Prelude.{◌≡◌, ◌++◌, OnOk, IfOk};
ghost use Rattle.act_rows.specs.Decisions.{after_decide, after_fail, decided_state, decision_outs, finishes_for_lost, orphaned_shares, with_decision, with_fault};
ghost use Rattle.act_rows.specs.Steps.{entry_of};

use ignite_types::{Fault, List, Mem, Message, NodeId, Out, Rec, Share, TxId};
use node_state::{TxEntry, TxState};
use node_steps::{Node, backup_finish_outs, outs_to};
use ordered_set::Set;

fn decided_state(commit: bool) -> TxState
    ensures { result ≡ decided_state commit }
{
    if commit {
        TxState::Committing
    } else {
        TxState::RollingBack
    }
}

/// The shares of lost primaries whose holders are live.
pub fn orphaned(node: &Node, shares: &[Share]) -> Mem<List<Share>>
    ensures { IfOk result (λ left. left ≡ orphaned_shares node.now shares.now) }
{
    let mut left = List::new(node.alloc);
    for share in shares {
        if !node.is_live(share.primary) && node.is_live(share.holder) {
            left.push(*share)?;
        }
    }
    Ok(left)
}

/// BackupFinish for the shares of these lost primaries, to the live holders of each.
pub fn finishes_for_lost(
    node: &Node,
    tx: TxId,
    commit: bool,
    shares: &[Share],
    primaries: &[NodeId],
) -> Mem<List<Out>>
    ensures { IfOk result (λ outs. outs ≡ finishes_for_lost node.now tx commit shares.now primaries.now) }
{
    let mut outs = List::new(node.alloc);
    for primary in primaries {
        let holders = node.live_holders(shares, *primary)?;
        outs.append(backup_finish_outs(node.alloc, tx, *primary, commit, holders.as_slice())?)?;
    }
    Ok(outs)
}

/// Finish to each live primary that was asked, then BackupFinish for those that were lost.
fn decision_outs(node: &Node, tx: TxId, commit: bool, entry: &TxEntry) -> Mem<List<Out>>
    ensures { IfOk result (λ outs. outs ≡ decision_outs node.now tx commit entry.now) }
{
    let asked = entry.asked.as_slice();
    let live = node.live_among(asked)?;
    let lost = node.lost_among(asked)?;
    let mut outs = outs_to(node.alloc, live.as_slice(), &Message::Finish { tx, commit })?;
    outs.append(finishes_for_lost(node, tx, commit, entry.shares.as_slice(), lost.as_slice())?)?;
    Ok(outs)
}

/// From the decision on each live primary that was asked is awaited, and each live holder of a lost one's share.
#[tactic(auto, using(act_rows::proofs::TableLaws::tx_put_put))]
fn take_decision(node: &mut Node, tx: TxId, commit: bool) -> Mem<()>
    ensures { OnOk result (node.new ≡ with_decision node.old tx commit) }
{
    let Some(entry) = node.entry(&tx) else {
        return Ok(());
    };
    let awaited = node.live_among(entry.asked.as_slice())?;
    let backups = orphaned(node, entry.shares.as_slice())?;
    let Some(mut next) = node.take_entry(tx) else {
        return Ok(());
    };
    next.state = decided_state(commit);
    next.awaited = Set::from_list(awaited);
    next.backups = Set::from_list(backups);
    next.getting = None;
    next.search = None;
    node.put_entry(tx, next)
}

/// The decision is noted, and all that hold something of the transaction are told.
pub fn decide(node: &mut Node, tx: TxId, commit: bool) -> Mem<()>
    ensures { OnOk result (node.new ≡ after_decide node.old tx commit) }
{
    let Some(entry) = node.entry(&tx) else {
        return Ok(());
    };
    let outs = decision_outs(node, tx, commit, entry)?;
    take_decision(node, tx, commit)?;
    node.note(Rec::Decide { tx, commit })?;
    node.send_all(outs)
}

#[tactic(auto, using(act_rows::proofs::TableLaws::tx_put_put))]
fn take_fault(node: &mut Node, tx: TxId, fault: &Fault) -> Mem<()>
    ensures { OnOk result (node.new ≡ with_fault node.old tx fault.now) }
{
    let Some(mut entry) = node.take_entry(tx) else {
        return Ok(());
    };
    entry.fault = Some(*fault);
    node.put_entry(tx, entry)
}

/// A fault is noted and rolls the transaction back.
pub fn fail(node: &mut Node, tx: TxId, fault: &Fault) -> Mem<()>
    ensures { OnOk result (node.new ≡ after_fail node.old tx fault.now) }
{
    take_fault(node, tx, fault)?;
    let noted = *fault;
    node.note(Rec::Fault { tx, fault: noted })?;
    decide(node, tx, false)
}
