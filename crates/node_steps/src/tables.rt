//! Changing one value of a table: it is taken out, a vacant one stands in its place, and it is put back changed.

ghost use Rattle.std.specs.Prelude.{◌≡◌, OnOk, [], MatchOption, Some};
ghost use Rattle.std.specs.Option.{option_copied};
ghost use Rattle.part_model.specs.Script.{no_progress};
ghost use Rattle.part_model.specs.Tables.{without_each};
ghost use Rattle.act_rows.specs.Commands.{new_entry, new_session_state};
ghost use Rattle.act_rows.specs.Steps.{backup_name, entry_of, session_state_of, share_of, with_answer_ready, with_backup, with_entry, with_session_state, with_share};
ghost use Rattle.node_steps.specs.Taking.{TakesSessionState, TakesEntry, TakesNoSessionState, TakesNoEntry, TakesNoShare, TakesShare, vacant_share};

use crate::node::Node;
use ignite_types::{Answer, Item, List, Mem, Mode, NodeId, ShareState, TopVer, TxId};
use node_state::{BackupName, BackupShare, OwnShare, SessionState, TxEntry, TxState};
use ordered_set::Set;
use ordered_table::Table;
use part_model::{Phase, Progress};
use std::alloc::Global;

/// Takes these keys out of a table.
pub(crate) fn remove_each<K: Ord + Copy, V: Drop>(table: &mut Table<K, V>, keys: &[K])
    ensures { table.new ≡ without_each K.cmp table.old keys.now }
{
    for key in keys {
        let _gone = table.remove(key);
    }
}

/// Before the first answer.
pub fn new_progress(alloc: Global) -> Progress
    ensures { result ≡ no_progress }
{
    Progress {
        place: 0,
        phase: Phase::Fresh,
        ranges: Table::new(alloc),
    }
}

/// A session before its first command; it takes no memory.
pub fn new_session_state(alloc: Global, script: List<Item>) -> SessionState
    ensures { result ≡ new_session_state script }
{
    SessionState {
        script,
        progress: new_progress(alloc),
        pending: None,
        wake: None,
        ready: None,
        block: false,
        skipping: false,
        tx: None,
        started: 0,
    }
}

/// A transaction before its first command; it takes no memory.
pub fn new_entry(alloc: Global, mode: Mode, deadline: Option<u64>) -> TxEntry
    ensures { result ≡ new_entry mode deadline }
{
    TxEntry {
        mode,
        deadline,
        top: None,
        state: TxState::Idle,
        keys: Set::new(alloc),
        reads: Table::new(alloc),
        writes: Table::new(alloc),
        asked: Set::new(alloc),
        shares: List::new(alloc),
        awaited: Set::new(alloc),
        backups: Set::new(alloc),
        getting: None,
        search: None,
        fault: None,
        outcome: None,
    }
}

fn vacant_share(alloc: Global) -> OwnShare
    ensures { result ≡ vacant_share }
{
    OwnShare {
        top: TopVer { major: 0, minor: 0 },
        shares: List::new(alloc),
        writes: List::new(alloc),
        state: ShareState::Preparing,
        awaited: Set::new(alloc),
        near: Set::new(alloc),
        askers: Set::new(alloc),
    }
}

impl Node {
    pub fn session_state(&self, session: u32) -> Option<&SessionState>
        ensures { option_copied result ≡ session_state_of self.now session }
    {
        self.state.session_states.get(&session)
    }

    /// Takes a session's state, to be put back changed.
    pub fn take_session_state(&mut self, session: u32) -> Option<SessionState>
        ensures { MatchOption result (TakesNoSessionState self.old self.new session)
            (TakesSessionState self.old self.new session) }
    {
        if self.state.session_states.get(&session).is_some() {
            let vacant = new_session_state(self.alloc, List::new(self.alloc));
            Some(self.state.session_states.replace(session, vacant))
        } else {
            None
        }
    }

    pub fn put_session_state(&mut self, session: u32, session_state: SessionState) -> Mem<()>
        ensures { OnOk result (self.new ≡ with_session_state self.old session session_state) }
    {
        self.state.session_states.set(session, session_state)
    }

    /// Makes the answer of a session's pending command ready.
    #[tactic(auto, using(act_rows::proofs::TableLaws::nat_put_put))]
    pub fn answer(&mut self, session: u32, answer: Answer) -> Mem<()>
        ensures { OnOk result (self.new ≡ with_answer_ready self.old session answer) }
    {
        let Some(mut session_state) = self.take_session_state(session) else {
            return Ok(());
        };
        session_state.ready = Some(answer);
        self.put_session_state(session, session_state)
    }

    pub fn entry(&self, tx: &TxId) -> Option<&TxEntry>
        ensures { option_copied result ≡ entry_of self.now tx.now }
    {
        self.state.txs.get(tx)
    }

    /// Takes a transaction's entry, to be put back changed.
    pub fn take_entry(&mut self, tx: TxId) -> Option<TxEntry>
        ensures { MatchOption result (TakesNoEntry self.old self.new tx) (TakesEntry self.old self.new tx) }
    {
        if self.state.txs.get(&tx).is_some() {
            let vacant = new_entry(self.alloc, Mode::Pessimistic, None);
            Some(self.state.txs.replace(tx, vacant))
        } else {
            None
        }
    }

    pub fn put_entry(&mut self, tx: TxId, entry: TxEntry) -> Mem<()>
        ensures { OnOk result (self.new ≡ with_entry self.old tx entry) }
    {
        self.state.txs.set(tx, entry)
    }

    pub fn share(&self, tx: &TxId) -> Option<&OwnShare>
        ensures { option_copied result ≡ share_of self.now tx.now }
    {
        self.state.shares.get(tx)
    }

    /// Takes an own share, to be put back changed.
    pub fn take_share(&mut self, tx: TxId) -> Option<OwnShare>
        ensures { MatchOption result (TakesNoShare self.old self.new tx) (TakesShare self.old self.new tx) }
    {
        if self.state.shares.get(&tx).is_some() {
            Some(self.state.shares.replace(tx, vacant_share(self.alloc)))
        } else {
            None
        }
    }

    pub fn put_share(&mut self, tx: TxId, share: OwnShare) -> Mem<()>
        ensures { OnOk result (self.new ≡ with_share self.old tx share) }
    {
        self.state.shares.set(tx, share)
    }

    pub fn put_backup(&mut self, tx: TxId, primary: NodeId, share: BackupShare) -> Mem<()>
        ensures { OnOk result (self.new ≡ with_backup self.old tx primary share) }
    {
        self.state.backups.set(BackupName { tx, primary }, share)
    }
}
