//! Whether one event can be, and whether the sessions are over.

ghost use Rattle.std.specs.Prelude.{◌≡◌};
ghost use Rattle.std.specs.Option.{option_copied};
ghost use Rattle.ignite_types.specs.declared.journal.Event.TheVariants as event;
ghost use Rattle.tx_model.specs.World.{all_sessions_over, can_be, can_take, inbox_on, is_session_over, is_session_over_at, live_place};

use crate::parts::Part;
use crate::world::World;
use deadlock_search::is_overdue;
use ignite_types::{Event, NodeId, TxId};
use link_memory::Inbox;
use node_core::{may_answer, may_call, may_send, session_over};
use node_state::Life;
use rebalance::may_switch;

/// Whether a message of the sender can be taken out of the inbox.
pub(crate) fn can_take(from: NodeId, inbox: Option<&Inbox>) -> bool
    ensures { result ≡ can_take from (option_copied inbox.entry) }
{
    match inbox {
        Some(inbox) => !inbox.is_held(from) && inbox.oldest(from).is_some(),
        None => false,
    }
}

/// Whether the session on this node is over; one on a lost node has ended.
fn over_in(session: u32, part: &Part) -> bool
    ensures { result ≡ is_session_over_at session part.now.node part.now.life }
{
    match part.life {
        Life::Gone => true,
        _ => session_over(&part.node, session),
    }
}

impl World {
    fn can_answer(&self, session: u32) -> bool
        ensures { result ≡ can_be self.now.now (event.Answer session) }
    {
        match self.home_at(session) {
            Some(node) => may_answer(node, session),
            None => false,
        }
    }

    fn can_call(&self, session: u32) -> bool
        ensures { result ≡ can_be self.now.now (event.Call session) }
    {
        match self.home_at(session) {
            Some(node) => may_call(node, session),
            None => false,
        }
    }

    fn can_send(&self, id: NodeId) -> bool
        ensures { result ≡ can_be self.now.now (event.Send id) }
    {
        match self.node_at(id) {
            Some(node) => may_send(node),
            None => false,
        }
    }

    fn can_see(&self, id: NodeId) -> bool
        ensures { result ≡ can_be self.now.now (event.See id) }
    {
        match self.node_at(id) {
            Some(node) => self.directory.event(node.events_read()).is_some(),
            None => false,
        }
    }

    fn can_expire(&self, tx: TxId) -> bool
        ensures { result ≡ can_be self.now.now (event.Expire tx) }
    {
        match self.node_at(tx.node) {
            Some(node) => is_overdue(node, &tx),
            None => false,
        }
    }

    fn can_switch(&self, id: NodeId) -> bool
        ensures { result ≡ can_be self.now.now (event.Minor id) }
    {
        match self.node_at(id) {
            Some(node) => may_switch(node) && node.seen() == self.directory.last(),
            None => false,
        }
    }

    fn can_tick(&self) -> bool
        ensures { result ≡ can_be self.now.now event.Tick }
    {
        !self.directory.step_due() && self.least_moment().is_some()
    }

    /// The inbox of the node, where it is alive.
    pub(crate) fn inbox_of(&self, id: NodeId) -> Option<&Inbox>
        ensures { option_copied result ≡ inbox_on self.now.now (live_place self.now.now id) }
    {
        self.inbox_on(self.live_place(id))
    }

    /// Whether the event can be without regard to other events.
    pub(crate) fn can_be(&self, event: &Event) -> bool
        ensures { result ≡ can_be self.now.now event.now }
    {
        match event {
            Event::Answer(session) => self.can_answer(*session),
            Event::Act(id, from) => can_take(*from, self.inbox_of(*id)),
            Event::Send(id) => self.can_send(*id),
            Event::See(id) => self.can_see(*id),
            Event::Expire(tx) => self.can_expire(*tx),
            Event::Minor(id) => self.can_switch(*id),
            Event::Call(session) => self.can_call(*session),
            Event::Plan => self.directory.step_due(),
            Event::Tick => self.can_tick(),
            Event::Memory(id) => self.live_place(*id).is_some(),
        }
    }

    fn session_over(&self, session: u32) -> bool
        ensures { result ≡ is_session_over self.now.now session }
    {
        let Some(id) = self.session_nodes.get(&session) else {
            return true;
        };
        match self.part_on(self.place_of(*id)) {
            Some(part) => over_in(session, part),
            None => true,
        }
    }

    /// Whether every session is at the end of its script, or was lost with its node.
    pub fn all_over(&self) -> bool
        ensures { result ≡ all_sessions_over self.now.now }
    {
        for (session, _) in self.session_nodes.as_slice() {
            if !self.session_over(*session) {
                return false;
            }
        }
        true
    }
}
