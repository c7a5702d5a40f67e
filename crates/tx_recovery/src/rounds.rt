//! Rounds of recovery: each loss begins one, and the oldest member decides once it has the lists of all members.

ghost use Rattle.std.specs.Prelude.{◌≡◌, ◌++◌, OnOk, IfOk};
ghost use Rattle.act_rows.specs.Recovery.{after_act_on_round, after_begin_round, after_give_verdict, after_judge, after_judge_each, after_orphans, after_recover_if_all, after_send_orphans, all_reported, finish_nodes, has_locks, has_report, is_recoverer, is_recovery_settled, lockers, names_of, orphan_names, orphans_for, orphans_message, orphans_of_tx, primaries_of, reports_for, verdict_outs, with_new_round, with_round_acted};
ghost use Rattle.ignite_types.specs.Names.{tx_cmp};
ghost use Rattle.ordered_table.specs.Entries.{at};
ghost use Rattle.part_model.specs.Queues.{with_members};

use crate::orphans::orphans_of;
use crate::verdicts::{is_settled, shares_named, verdict};
use crate::waits::await_verdict;
use ignite_types::{List, Mem, Member, Message, NodeId, Orphan, Out, Rec, Share, TxId};
use node_state::{Report, Round};
use node_steps::{Node, add_nodes, oldest_member, outs_to};
use ordered_set::Set;
use plain_copies::Duplicate;
use std::alloc::Global;
use tx_decisions::{finishes_for_lost, orphaned};

/// The lists that came for one round.
fn reports_for(node: &Node, place: u64) -> Mem<List<Report>>
    ensures { IfOk result (λ reports. reports ≡ reports_for node.now.reports place) }
{
    let mut reports = List::new(node.alloc);
    for report in node.reports() {
        if report.round == place {
            reports.push(Report {
                round: report.round,
                from: report.from,
                list: report.list.copy(node.alloc)?,
            })?;
        }
    }
    Ok(reports)
}

fn has_report(reports: &[Report], node: NodeId) -> bool
    ensures { result ≡ has_report reports.now node }
{
    for report in reports {
        if report.from == node {
            return true;
        }
    }
    false
}

/// Whether each of these members has sent its list.
fn all_reported(members: &[Member], reports: &[Report]) -> bool
    ensures { result ≡ all_reported members.now reports.now }
{
    for member in members {
        if !has_report(reports, member.node) {
            return false;
        }
    }
    true
}

fn add_names(set: &mut Set<TxId>, list: &[Orphan]) -> Mem<()>
    ensures { OnOk result (set.new ≡ with_members set.old (orphan_names list.now)) }
{
    for orphan in list {
        set.insert(orphan.tx)?;
    }
    Ok(())
}

/// The transactions that were named, ascending.
fn names_of(alloc: Global, reports: &[Report]) -> Mem<Set<TxId>>
    ensures { IfOk result (λ names. names ≡ names_of reports.now) }
{
    let mut names = Set::new(alloc);
    for report in reports {
        add_names(&mut names, report.list.as_slice())?;
    }
    Ok(names)
}

/// What one list says of a transaction.
fn orphans_of_tx(alloc: Global, tx: &TxId, list: &[Orphan]) -> Mem<List<Orphan>>
    ensures { IfOk result (λ orphans. orphans ≡ orphans_of_tx tx.now list.now) }
{
    let mut orphans = List::new(alloc);
    for orphan in list {
        if orphan.tx == *tx {
            orphans.push(orphan.copy(alloc)?)?;
        }
    }
    Ok(orphans)
}

fn orphans_for(alloc: Global, tx: &TxId, reports: &[Report]) -> Mem<List<Orphan>>
    ensures { IfOk result (λ orphans. orphans ≡ orphans_for tx.now reports.now) }
{
    let mut orphans = List::new(alloc);
    for report in reports {
        orphans.append(orphans_of_tx(alloc, tx, report.list.as_slice())?)?;
    }
    Ok(orphans)
}

/// Whether a list has a lock or a waiting place of the transaction.
fn has_locks(tx: &TxId, report: &Report) -> bool
    ensures { result ≡ has_locks tx.now report.now }
{
    for orphan in report.list.as_slice() {
        if orphan.tx == *tx && orphan.locks {
            return true;
        }
    }
    false
}

/// The nodes that have a lock or a waiting place of the transaction.
fn lockers(alloc: Global, tx: &TxId, reports: &[Report]) -> Mem<List<NodeId>>
    ensures { IfOk result (λ nodes. nodes ≡ lockers tx.now reports.now) }
{
    let mut nodes = List::new(alloc);
    for report in reports {
        if has_locks(tx, report) {
            nodes.push(report.from)?;
        }
    }
    Ok(nodes)
}

fn primaries_of(alloc: Global, shares: &[Share]) -> Mem<Set<NodeId>>
    ensures { IfOk result (λ nodes. nodes ≡ primaries_of shares.now) }
{
    let mut nodes = Set::new(alloc);
    for share in shares {
        nodes.insert(share.primary)?;
    }
    Ok(nodes)
}

/// Each live primary, and each node that has a lock or a waiting place.
fn finish_nodes(node: &Node, shares: &[Share], lockers: &[NodeId]) -> Mem<Set<NodeId>>
    ensures { IfOk result (λ nodes. nodes ≡ finish_nodes node.now shares.now lockers.now) }
{
    let primaries = primaries_of(node.alloc, shares)?;
    let mut nodes = Set::from_list(node.live_among(primaries.as_slice())?);
    add_nodes(&mut nodes, lockers)?;
    Ok(nodes)
}

/// The messages of a verdict: Finish, and BackupFinish for lost primaries.
fn verdict_outs(
    node: &Node,
    tx: TxId,
    commit: bool,
    shares: &[Share],
    nodes: &[NodeId],
) -> Mem<List<Out>>
    ensures { IfOk result (λ outs. outs ≡ verdict_outs node.now tx commit shares.now nodes.now) }
{
    let primaries = primaries_of(node.alloc, shares)?;
    let lost = node.lost_among(primaries.as_slice())?;
    let mut outs = outs_to(node.alloc, nodes, &Message::Finish { tx, commit })?;
    outs.append(finishes_for_lost(node, tx, commit, shares, lost.as_slice())?)?;
    Ok(outs)
}

/// The verdict is kept and noted, and all that hold something of the transaction are told.
fn give_verdict(
    node: &mut Node,
    tx: TxId,
    commit: bool,
    shares: &[Share],
    lockers: &[NodeId],
) -> Mem<()>
    ensures { OnOk result (node.new ≡ after_give_verdict node.old tx commit shares.now lockers.now) }
{
    let nodes = finish_nodes(node, shares, lockers)?;
    let backups = orphaned(node, shares)?;
    let outs = verdict_outs(node, tx, commit, shares, nodes.as_slice())?;
    node.keep_verdict(tx, commit)?;
    node.note(Rec::Decide { tx, commit })?;
    await_verdict(node, tx, nodes.as_slice(), backups.as_slice())?;
    node.send_all(outs)
}

/// One transaction that was named.
fn judge(
    node: &mut Node,
    tx: TxId,
    members: &[Member],
    orphans: &[Orphan],
    lockers: &[NodeId],
) -> Mem<()>
    ensures { OnOk result (node.new ≡ after_judge node.old tx members.now orphans.now lockers.now) }
{
    let settled = is_settled(node.alloc, orphans)?;
    let kept = node.verdict(&tx);
    let commit = verdict(node.alloc, kept, orphans, members)?;
    if settled {
        Ok(())
    } else {
        give_verdict(node, tx, commit, shares_named(orphans), lockers)
    }
}

fn judge_each(node: &mut Node, members: &[Member], reports: &[Report], txs: &[TxId]) -> Mem<()>
    ensures { OnOk result (node.new ≡ after_judge_each node.old members.now reports.now txs.now) }
{
    for tx in txs {
        let orphans = orphans_for(node.alloc, tx, reports)?;
        let lockers = lockers(node.alloc, tx, reports)?;
        judge(node, *tx, members, orphans.as_slice(), lockers.as_slice())?;
    }
    Ok(())
}

/// The recoverer has acted on its round.
fn set_acted(node: &mut Node)
    ensures { node.new ≡ with_round_acted node.old }
{
    if let Some(mut round) = node.take_round() {
        round.acted = true;
        node.put_round(round);
    }
}

fn act_on_round(node: &mut Node, members: &[Member], reports: &[Report]) -> Mem<()>
    ensures { OnOk result (node.new ≡ after_act_on_round node.old members.now reports.now) }
{
    let names = names_of(node.alloc, reports)?;
    set_acted(node);
    judge_each(node, members, reports, names.as_slice())
}

/// The recoverer of a round is the oldest member after its loss.
fn is_recoverer(node: &Node, round: &Round) -> bool
    ensures { result ≡ is_recoverer node.now round.now }
{
    match oldest_member(round.members.as_slice()) {
        Some(oldest) => node.me() == oldest,
        None => false,
    }
}

/// The recoverer acts once it has the lists of all members.
fn recover_if_all(node: &mut Node) -> Mem<()>
    ensures { OnOk result (node.new ≡ after_recover_if_all node.old node.old.round) }
{
    let here = &*node;
    let Some(round) = here.round() else {
        return Ok(());
    };
    if is_recoverer(here, round) && !round.acted {
        let members = List::from_slice(here.alloc, round.members.as_slice())?;
        let reports = reports_for(here, round.place)?;
        if all_reported(members.as_slice(), reports.as_slice()) {
            act_on_round(node, members.as_slice(), reports.as_slice())
        } else {
            Ok(())
        }
    } else {
        Ok(())
    }
}

/// Orphans: kept under its round.
pub fn on_orphans(node: &mut Node, from: NodeId, round: u64, list: List<Orphan>) -> Mem<()>
    ensures { OnOk result (node.new ≡ after_orphans node.old from round list) }
{
    node.keep_report(Report { round, from, list })?;
    recover_if_all(node)
}

/// This node's list for a round.
fn orphans_message(node: &Node, round: u64) -> Mem<Message>
    ensures { IfOk result (λ message. message ≡ orphans_message node.now round) }
{
    let list = orphans_of(node)?;
    Ok(Message::Orphans { round, list })
}

/// This node's list goes to the oldest member.
fn send_orphans(node: &mut Node, round: u64) -> Mem<()>
    ensures { OnOk result (node.new ≡ after_send_orphans node.old round) }
{
    let message = orphans_message(node, round)?;
    let oldest = node.oldest();
    node.send_to_oldest(message, oldest)
}

/// A round after a loss, before any list came.
fn new_round(node: &mut Node, place: u64) -> Mem<()>
    ensures { OnOk result (node.new ≡ with_new_round node.old place) }
{
    let members = List::from_slice(node.alloc, node.members())?;
    let round = Round {
        place,
        members,
        acted: false,
        finishes: Set::new(node.alloc),
        backups: Set::new(node.alloc),
    };
    node.put_round(round);
    Ok(())
}

/// A loss begins a new round: this node's list goes to the oldest member.
pub fn begin_round(node: &mut Node, place: u64) -> Mem<()>
    ensures { OnOk result (node.new ≡ after_begin_round node.old place) }
{
    new_round(node, place)?;
    send_orphans(node, place)
}

/// Whether this node is no recoverer, or its round is settled: it has acted, and nothing is awaited.
pub fn is_calm(node: &Node) -> bool
    ensures { result ≡ is_recovery_settled node.now node.now.round }
{
    match node.round() {
        Some(round) => {
            !is_recoverer(node, round)
                || (round.acted && round.finishes.len() == 0 && round.backups.len() == 0)
        }
        None => true,
    }
}
