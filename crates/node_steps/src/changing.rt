//! The small steps that change one part of what a node keeps.

ghost use Rattle.std.specs.Prelude.{◌≡◌, ◌++◌, ◌∷◌, [], None, OnOk, Some};
ghost use Rattle.act_rows.specs.Acts.{oldest_out, send_act, with_act_begun};
ghost use Rattle.act_rows.specs.Backups.{without_backup};
ghost use Rattle.act_rows.specs.Decisions.{without_tx};
ghost use Rattle.act_rows.specs.Exchange.{after_learn, left_after};
ghost use Rattle.act_rows.specs.Filling.{after_complete};
ghost use Rattle.act_rows.specs.Steps.{backup_cmp};
ghost use Rattle.ignite_types.specs.Names.{tx_cmp};
ghost use Rattle.std.specs.Ordering.{nat_cmp};
ghost use Rattle.ordered_set.specs.Members.{with_member};
ghost use Rattle.ordered_table.specs.Entries.{put, without};
ghost use Rattle.part_model.specs.Tables.{without_each};

use crate::node::Node;
use crate::tables::remove_each;
use discovery_order::{change_members, change_running, version_after};
use ignite_types::{List, Mem, NodeId, Out, PartMap, Rec, Single, TopVer, TopoEvent, TxId};
use node_state::{BackupName, Claim, Exchange, Report, Round};
use ordered_set::Set;
use std::mem;

/// A node that leaves is remembered.
fn change_left(left: &mut Set<NodeId>, event: &TopoEvent) -> Mem<()>
    ensures { OnOk result (left.new ≡ left_after left.old event.now) }
{
    match event {
        TopoEvent::Left(node) => left.insert(*node),
        _ => Ok(()),
    }
}

impl Node {
    /// An act begins: it counts, and nothing is noted yet.
    pub fn begin_act(&mut self)
        ensures { self.new ≡ with_act_begun self.old }
    {
        self.state.acts = self.state.acts.saturating_add(1);
        self.state.noted = List::new(self.alloc);
    }

    /// What the act has noted is taken.
    pub fn take_notes(&mut self) -> List<Rec>
        ensures notes { result ≡ self.old.noted }
        ensures rest { self.new ≡ record self.old { noted = [] } }
    {
        mem::replace(&mut self.state.noted, List::new(self.alloc))
    }

    /// An act of sending: the oldest message is taken out of the outbox.
    pub fn pop_out(&mut self) -> Option<Out>
        ensures out { result ≡ oldest_out self.old }
        ensures rest { self.new ≡ (send_act self.old).state }
    {
        self.begin_act();
        if self.state.outbox.is_empty() {
            None
        } else {
            Some(self.state.outbox.remove(0))
        }
    }

    /// The clock shows this moment.
    pub fn set_clock(&mut self, now: u64)
        ensures { self.new ≡ record self.old { now = now } }
    {
        self.state.now = now;
    }

    /// Reads an event: the last version seen and its members are at once those of the event, and an exchange of an older
    /// version is dropped.
    pub fn learn(&mut self, event: &TopoEvent) -> Mem<()>
        ensures { OnOk result (self.new ≡ after_learn self.old event.now) }
    {
        self.state.read = self.state.read.saturating_add(1);
        self.state.seen = version_after(self.state.seen, event);
        change_members(self.alloc, &mut self.state.members, event)?;
        change_running(&mut self.state.running, event)?;
        change_left(&mut self.state.left, event)?;
        self.state.exchange = None;
        Ok(())
    }

    /// A map is installed; nothing is filled or claimed under it yet.
    pub fn set_installed(&mut self, map: PartMap)
        ensures { self.new ≡ record self.old { installed = Some map; complete = []; claims = [] } }
    {
        self.state.installed = Some(map);
        self.state.complete = Set::new(self.alloc);
        self.state.claims = Set::new(self.alloc);
    }

    /// A version is open here.
    pub fn set_opened(&mut self, top: TopVer)
        ensures { self.new ≡ record self.old { opened = Some top } }
    {
        self.state.opened = Some(top);
    }

    /// A Single of this version is sent.
    pub fn set_single_sent(&mut self, top: TopVer)
        ensures { self.new ≡ record self.old { single_sent = Some top } }
    {
        self.state.single_sent = Some(top);
    }

    /// A Single that came is kept.
    pub fn keep_single(&mut self, single: Single) -> Mem<()>
        ensures { OnOk result (self.new ≡ record self.old { singles = self.old.singles ++ single ∷ [] }) }
    {
        self.state.singles.push(single)
    }

    /// The Singles that came are taken.
    pub fn take_singles(&mut self) -> List<Single>
        ensures singles { result ≡ self.old.singles }
        ensures rest { self.new ≡ record self.old { singles = [] } }
    {
        mem::replace(&mut self.state.singles, List::new(self.alloc))
    }

    /// These are the Singles that came.
    pub fn put_singles(&mut self, singles: List<Single>)
        ensures { self.new ≡ record self.old { singles = singles } }
    {
        self.state.singles = singles;
    }

    /// The exchange that this node coordinates is taken.
    pub fn take_exchange(&mut self) -> Option<Exchange>
        ensures exchange { result ≡ self.old.exchange }
        ensures rest { self.new ≡ record self.old { exchange = None } }
    {
        self.state.exchange.take()
    }

    /// This node coordinates an exchange.
    pub fn put_exchange(&mut self, exchange: Exchange)
        ensures { self.new ≡ record self.old { exchange = Some exchange } }
    {
        self.state.exchange = Some(exchange);
    }

    /// This node coordinates no exchange any more.
    pub fn drop_exchange(&mut self)
        ensures { self.new ≡ record self.old { exchange = None } }
    {
        self.state.exchange = None;
    }

    /// The copy of a partition is filled.
    pub fn keep_complete(&mut self, part: u32) -> Mem<()>
        ensures { OnOk result (self.new ≡ record self.old { complete = with_member nat_cmp self.old.complete part }) }
    {
        self.state.complete.insert(part)
    }

    /// A mover's claim is kept.
    pub fn keep_claim(&mut self, from: NodeId, top: TopVer) -> Mem<()>
        ensures { OnOk result (self.new ≡ after_complete self.old from top) }
    {
        self.state.claims.insert(Claim { top, node: from })
    }

    /// The entry of a transaction is dropped.
    pub fn drop_entry(&mut self, tx: &TxId)
        ensures { self.new ≡ without_tx self.old tx.now }
    {
        let _gone = self.state.txs.remove(tx);
    }

    /// This is the last number that was drawn.
    pub fn set_last_order(&mut self, order: u64)
        ensures { self.new ≡ record self.old { order = order } }
    {
        self.state.order = order;
    }

    /// An own share is dropped.
    pub fn drop_share(&mut self, tx: &TxId)
        ensures { self.new ≡ record self.old { shares = without tx_cmp self.old.shares tx.now } }
    {
        let _dropped = self.state.shares.remove(tx);
    }

    /// The own shares of these transactions are dropped.
    pub fn drop_shares(&mut self, txs: &[TxId])
        ensures { self.new ≡ record self.old { shares = without_each tx_cmp self.old.shares txs.now } }
    {
        remove_each(&mut self.state.shares, txs);
    }

    /// A share that is held for another primary is dropped.
    pub fn drop_backup(&mut self, tx: TxId, primary: NodeId)
        ensures { self.new ≡ without_backup self.old tx primary }
    {
        let _dropped = self.state.backups.remove(&BackupName { tx, primary });
    }

    /// These shares that are held for other primaries are dropped.
    pub fn drop_backups(&mut self, names: &[BackupName])
        ensures { self.new ≡ record self.old { backups = without_each backup_cmp self.old.backups names.now } }
    {
        remove_each(&mut self.state.backups, names);
    }

    /// The round of recovery is taken, to be put back changed.
    pub fn take_round(&mut self) -> Option<Round>
        ensures round { result ≡ self.old.round }
        ensures rest { self.new ≡ record self.old { round = None } }
    {
        self.state.round.take()
    }

    /// This is the round of recovery.
    pub fn put_round(&mut self, round: Round)
        ensures { self.new ≡ record self.old { round = Some round } }
    {
        self.state.round = Some(round);
    }

    /// A list of orphans that came is kept.
    pub fn keep_report(&mut self, report: Report) -> Mem<()>
        ensures { OnOk result (self.new ≡ record self.old { reports = self.old.reports ++ report ∷ [] }) }
    {
        self.state.reports.push(report)
    }

    /// A verdict that this node gives is kept.
    pub fn keep_verdict(&mut self, tx: TxId, commit: bool) -> Mem<()>
        ensures { OnOk result (self.new ≡ record self.old { verdicts = put tx_cmp self.old.verdicts tx commit }) }
    {
        self.state.verdicts.set(tx, commit)
    }
}
