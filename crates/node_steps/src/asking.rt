//! What a node is asked: its number, its clock, and what its tables and lists hold.

ghost use Rattle.std.specs.Prelude.{◌≡◌};
ghost use Rattle.std.specs.Option.{option_copied};
ghost use Rattle.act_rows.specs.Acts.{oldest_out};
ghost use Rattle.act_rows.specs.Exchange.{is_kept_commit};
ghost use Rattle.act_rows.specs.Filling.{has_claim};
ghost use Rattle.act_rows.specs.Steps.{backup_of};
ghost use Rattle.ignite_types.specs.Names.{tx_cmp};
ghost use Rattle.std.specs.Ordering.{nat_cmp};
ghost use Rattle.ordered_set.specs.Members.{has};
ghost use Rattle.ordered_table.specs.Entries.{at};

use crate::node::Node;
use ignite_types::{Cache, Member, NodeId, Out, PartMap, ShareState, Single, TopVer, TxId};
use node_state::{BackupName, BackupShare, Claim, OwnShare, Report, Round, SessionState, TxEntry};

/// Whether a share is kept of a commit that has ended.
pub fn is_kept_commit(state: ShareState) -> bool
    ensures { result ≡ is_kept_commit state }
{
    match state {
        ShareState::Committed => true,
        _ => false,
    }
}

impl Node {
    /// The node's number.
    pub fn me(&self) -> NodeId
        ensures { result ≡ self.now.me }
    {
        self.state.me
    }

    /// How many acts the node has done.
    pub fn acts(&self) -> u64
        ensures { result ≡ self.now.acts }
    {
        self.state.acts
    }

    /// What the node's clock shows.
    pub fn clock(&self) -> u64
        ensures { result ≡ self.now.now }
    {
        self.state.now
    }

    /// The caches of the scenario, by their number.
    pub fn caches(&self) -> &[Cache]
        ensures { result.now ≡ self.now.caches }
    {
        self.state.caches.as_slice()
    }

    /// How many topology events the node has read, or learned when it joined.
    pub fn events_read(&self) -> u64
        ensures { result ≡ self.now.read }
    {
        self.state.read
    }

    /// The last topology version that the node has seen.
    pub fn seen(&self) -> TopVer
        ensures { result ≡ self.now.seen }
    {
        self.state.seen
    }

    /// The members of the last version seen, by age.
    pub fn members(&self) -> &[Member]
        ensures { result.now ≡ self.now.members }
    {
        self.state.members.as_slice()
    }

    /// The caches that run in the last version seen, ascending.
    pub fn running(&self) -> &[u32]
        ensures { result.now ≡ self.now.running }
    {
        self.state.running.as_slice()
    }

    /// The installed map.
    pub fn installed(&self) -> Option<&PartMap>
        ensures { option_copied result ≡ self.now.installed }
    {
        self.state.installed.as_ref()
    }

    /// The node's sessions, by their number.
    pub fn session_states(&self) -> &[(u32, SessionState)]
        ensures { result.now ≡ self.now.session_states }
    {
        self.state.session_states.as_slice()
    }

    /// The transactions that were started here, ascending.
    pub fn entries(&self) -> &[(TxId, TxEntry)]
        ensures { result.now ≡ self.now.txs }
    {
        self.state.txs.as_slice()
    }

    /// The last number that was drawn for an entry's version.
    pub fn last_order(&self) -> u64
        ensures { result ≡ self.now.order }
    {
        self.state.order
    }

    /// This primary's own shares, by transaction.
    pub fn shares(&self) -> &[(TxId, OwnShare)]
        ensures { result.now ≡ self.now.shares }
    {
        self.state.shares.as_slice()
    }

    /// The shares held for other primaries, by transaction and primary.
    pub fn backups(&self) -> &[(BackupName, BackupShare)]
        ensures { result.now ≡ self.now.backups }
    {
        self.state.backups.as_slice()
    }

    /// A transaction's share that is held for another primary.
    pub fn backup(&self, tx: TxId, primary: NodeId) -> Option<&BackupShare>
        ensures { option_copied result ≡ backup_of self.now tx primary }
    {
        self.state.backups.get(&BackupName { tx, primary })
    }

    /// The last version for which a Single was sent.
    pub fn single_sent(&self) -> Option<TopVer>
        ensures { result ≡ self.now.single_sent }
    {
        self.state.single_sent
    }

    /// The Singles that came, in their order.
    pub fn singles(&self) -> &[Single]
        ensures { result.now ≡ self.now.singles }
    {
        self.state.singles.as_slice()
    }

    /// The partitions whose copies are filled here under the installed map, ascending.
    pub fn complete_parts(&self) -> &[u32]
        ensures { result.now ≡ self.now.complete }
    {
        self.state.complete.as_slice()
    }

    /// Whether the copy of a partition is filled here under the installed map.
    pub fn is_complete(&self, part: u32) -> bool
        ensures { result ≡ has nat_cmp self.now.complete part }
    {
        self.state.complete.contains(&part)
    }

    /// Whether the node's claim of the last version seen came.
    pub fn has_claim(&self, node: NodeId) -> bool
        ensures { result ≡ has_claim self.now node }
    {
        let top = self.state.seen;
        self.state.claims.contains(&Claim { top, node })
    }

    /// The last round of recovery.
    pub fn round(&self) -> Option<&Round>
        ensures { option_copied result ≡ self.now.round }
    {
        self.state.round.as_ref()
    }

    /// The lists of orphans that came, in their order.
    pub fn reports(&self) -> &[Report]
        ensures { result.now ≡ self.now.reports }
    {
        self.state.reports.as_slice()
    }

    /// The verdict that this node has given on a transaction.
    pub fn verdict(&self, tx: &TxId) -> Option<bool>
        ensures { result ≡ at tx_cmp self.now.verdicts tx.now }
    {
        match self.state.verdicts.get(tx) {
            Some(commit) => Some(*commit),
            None => None,
        }
    }

    /// The oldest message of the outbox.
    pub fn oldest_out(&self) -> Option<&Out>
        ensures { option_copied result ≡ oldest_out self.now }
    {
        self.state.outbox.get(0)
    }
}
