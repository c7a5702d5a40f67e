//! How the sessions stand.

ghost use Rattle.std.specs.Prelude.{◌≡◌, map, None, Some, IfOk};
ghost use Rattle.std.specs.Option.{option_copied};
ghost use Rattle.act_rows.specs.Steps.{entry_of};
ghost use Rattle.tx_model.specs.Outlooks.{earlier_tx, first_older, held_link, held_link_from, holds_up, is_earlier, is_kept_back, older_among, or_standing, outlook, standing_at, standing_before_start, standing_by_tx, standing_of, standing_of_session_state, standing_of_waiting, standing_queued_at, standing_queued_in, standing_unless_lost, standing_unopened};
ghost use Rattle.tx_model.specs.World.{node_ids, sessions};

use crate::parts::{Part, is_alive};
use crate::world::World;
use client_sessions::session_state_over;
use ignite_types::{List, Mem, NodeId, TopVer, TxId};
use link_memory::Inbox;
use node_core::Node;
use node_state::{Life, TxEntry, TxState};
use tx_model::{Outlook, Standing};

/// Whether the transaction has started in an older version, and has not ended.
fn holds_up(seen: TopVer, entry: &TxEntry) -> bool
    ensures { result ≡ holds_up seen entry.now }
{
    match entry.state {
        TxState::Ended => false,
        _ => match entry.top {
            Some(top) => top < seen,
            None => false,
        },
    }
}

/// Whether the first one comes before the other, by session, and then by number.
fn is_earlier(a: &TxId, b: &TxId) -> bool
    ensures { result ≡ is_earlier a.now b.now }
{
    if a.session == b.session {
        a.number < b.number
    } else {
        a.session < b.session
    }
}

fn earlier(best: Option<TxId>, tx: &TxId) -> Option<TxId>
    ensures { result ≡ earlier_tx best tx.now }
{
    match best {
        Some(found) => {
            if is_earlier(tx, &found) {
                Some(*tx)
            } else {
                best
            }
        }
        None => Some(*tx),
    }
}

/// The first of this one and those of these transactions that hold the version up.
fn first_older(seen: TopVer, best: Option<TxId>, txs: &[(TxId, TxEntry)]) -> Option<TxId>
    ensures { result ≡ first_older seen best txs.now }
{
    let mut first = best;
    for (tx, entry) in txs {
        if holds_up(seen, entry) {
            first = earlier(first, tx);
        }
    }
    first
}

impl Part {
    /// The transaction's wait here, if this node is alive.
    #[tactic(auto, using(crate::proofs::FirstWaits::first_wait_in))]
    fn queued(&self, tx: &TxId) -> Option<Standing>
        ensures { result ≡ standing_queued_at tx.now self.now }
    {
        if !is_alive(self.life) {
            return None;
        }
        match self.node.first_wait(tx) {
            Some(wait) => Some(Standing::Queued(self.node.me(), wait)),
            None => None,
        }
    }
}

/// The transaction's wait at the first of these nodes that is alive and has it in a queue.
fn queued_in(tx: &TxId, parts: &[Part]) -> Option<Standing>
    ensures { result ≡ standing_queued_in tx.now parts.now }
{
    for part in parts {
        if let Some(standing) = part.queued(tx) {
            return Some(standing);
        }
    }
    None
}

/// The first transaction that holds the version up at one of these nodes that are alive.
fn older_in(seen: TopVer, parts: &[Part]) -> Option<TxId>
    ensures { result ≡ older_among seen None parts.now }
{
    let mut first = None;
    for part in parts {
        if is_alive(part.life) {
            first = first_older(seen, first, part.node.entries());
        }
    }
    first
}

/// What holds up the last version that a node has seen.
fn unopened(seen: TopVer, parts: &[Part]) -> Option<Standing>
    ensures { result ≡ standing_unopened seen parts.now }
{
    match older_in(seen, parts) {
        Some(tx) => Some(Standing::Unopened(seen, tx)),
        None => None,
    }
}

/// Whether the sender's link is held and has a message.
fn keeps_back(from: NodeId, inbox: Option<&Inbox>) -> bool
    ensures { result ≡ is_kept_back from (option_copied inbox.entry) }
{
    match inbox {
        Some(inbox) => inbox.is_held(from) && inbox.oldest(from).is_some(),
        None => false,
    }
}

impl World {
    /// The first addressee to which this sender's link is held and has a message.
    fn held_from(&self, from: NodeId) -> Option<Standing>
        ensures { result ≡ held_link_from self.now.now from (node_ids self.now.now) }
    {
        for part in self.parts.as_slice() {
            let to = part.node.me();
            if keeps_back(from, self.inbox_on(self.place_of(to))) {
                return Some(Standing::Held(from, to));
            }
        }
        None
    }

    /// The least held link with a message, by sender and addressee.
    fn held_link(&self) -> Option<Standing>
        ensures { result ≡ held_link self.now.now (node_ids self.now.now) }
    {
        for part in self.parts.as_slice() {
            if let Some(standing) = self.held_from(part.node.me()) {
                return Some(standing);
            }
        }
        None
    }

    fn waits_to_start(&self, node: &Node, entry: Option<&TxEntry>) -> Option<Standing>
        ensures { result ≡ standing_before_start self.now.now node.now (option_copied entry.entry) }
    {
        match entry {
            Some(entry) => {
                if entry.top.is_none() {
                    unopened(node.seen(), self.parts.as_slice())
                } else {
                    None
                }
            }
            None => None,
        }
    }

    fn waits_by_tx(&self, node: &Node, tx: &Option<TxId>) -> Option<Standing>
        ensures { result ≡ standing_by_tx self.now.now node.now tx.now }
    {
        match tx {
            Some(tx) => match queued_in(tx, self.parts.as_slice()) {
                Some(standing) => Some(standing),
                None => self.waits_to_start(node, node.entry(tx)),
            },
            None => None,
        }
    }

    /// What a session that has not ended waits for.
    fn waits_for(&self, node: &Node, tx: &Option<TxId>) -> Standing
        ensures { result ≡ standing_of_waiting self.now.now node.now tx.now }
    {
        match self.waits_by_tx(node, tx) {
            Some(standing) => standing,
            None => match self.held_link() {
                Some(standing) => standing,
                None => Standing::Busy,
            },
        }
    }

    fn unless_lost(&self, node: &Node, life: Life, tx: &Option<TxId>) -> Standing
        ensures { result ≡ standing_unless_lost self.now.now node.now life tx.now }
    {
        match life {
            Life::Gone => Standing::Lost(node.me()),
            _ => self.waits_for(node, tx),
        }
    }

    fn standing_in(&self, session: u32, part: &Part) -> Standing
        ensures { result ≡ standing_at self.now.now session (Some part.now) }
    {
        match part.node.session_state(session) {
            Some(session_state) => {
                if session_state_over(session_state) {
                    Standing::Ended
                } else {
                    self.unless_lost(&part.node, part.life, &session_state.tx)
                }
            }
            None => Standing::Ended,
        }
    }

    fn standing_of(&self, session: u32) -> Standing
        ensures { result ≡ standing_of self.now.now session }
    {
        match self.session_nodes.get(&session) {
            Some(id) => match self.part_on(self.place_of(*id)) {
                Some(part) => self.standing_in(session, part),
                None => Standing::Ended,
            },
            None => Standing::Ended,
        }
    }

    fn standings(&self) -> Mem<List<Standing>>
        ensures { IfOk result (λ standings. standings ≡ map (standing_of self.now.now) (sessions self.now.now)) }
    {
        let mut standings = List::with_capacity(self.alloc, self.session_nodes.len())?;
        for (session, _) in self.session_nodes.as_slice() {
            standings.push(self.standing_of(*session))?;
        }
        Ok(standings)
    }

    /// How the sessions stand, and the topology events.
    pub fn outlook(&self) -> Mem<Outlook>
        ensures { IfOk result (λ shown. shown ≡ outlook self.now.now) }
    {
        Ok(Outlook {
            standings: self.standings()?,
            events: List::from_slice(self.alloc, self.directory.events())?,
        })
    }
}
