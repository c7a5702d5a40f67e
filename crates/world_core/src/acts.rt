//! The events at a node.

ghost use Rattle.std.specs.Prelude.{◌≡◌, [], OnOk, OnErr, IfOk};
ghost use Rattle.ignite_types.specs.declared.journal.Event.TheVariants as event;
ghost use Rattle.tx_model.specs.World.{act_outcome, call_outcome, expire_outcome, inbox_on, outcome, part_on, see_outcome, with_inbox_push};
ghost use Rattle.world_core.specs.Run.{KeepsPast, next_for};

use crate::world::World;
use ignite_types::{List, Mem, Message, NodeId, Out, Rec, TopoEvent, TxId};
use node_core::{begin_minor, expire, give_answer, may_answer, see, take_call, take_message};
use plain_copies::Duplicate;

impl World {
    pub(crate) fn no_records(&self) -> List<Rec>
        ensures { result ≡ [] }
    {
        List::new(self.alloc)
    }

    /// A session's ready answer is given.
    pub(crate) fn answers(&mut self, session: u32) -> Mem<List<Rec>>
        ensures world { OnOk result (self.new ≡ record self.old { now = (outcome self.old.now (event.Answer session)).world }) }
        ensures recs { IfOk result (λ recs. recs ≡ (outcome self.old.now (event.Answer session)).recs) }
        ensures err { OnErr result (KeepsPast self.old self.new) }
    {
        let Some(place) = self.live_home(session) else {
            return Ok(self.no_records());
        };
        if self.parts.len() <= place {
            return Ok(self.no_records());
        }
        if !may_answer(&self.parts[place].node, session) {
            return Ok(self.no_records());
        }
        self.directory.count_answer();
        let part = &mut self.parts[place];
        give_answer(&mut part.node, session)
    }

    /// A session on the node at this place gives its next command.
    fn call_at(&mut self, session: u32, place: Option<usize>) -> Mem<List<Rec>>
        ensures world { OnOk result
            (self.new ≡ record self.old {
              now = (call_outcome self.old.now session place (part_on self.old.now place)).world;
            }) }
        ensures recs { IfOk result (λ recs. recs ≡ (call_outcome self.old.now session place (part_on self.old.now place)).recs) }
        ensures err { OnErr result (KeepsPast self.old self.new) }
    {
        let Some(place) = place else {
            return Ok(self.no_records());
        };
        if self.parts.len() <= place {
            return Ok(self.no_records());
        }
        let recs = take_call(&mut self.parts[place].node, session)?;
        Ok(recs)
    }

    /// A session gives its next command.
    pub(crate) fn calls(&mut self, session: u32) -> Mem<List<Rec>>
        ensures world { OnOk result (self.new ≡ record self.old { now = (outcome self.old.now (event.Call session)).world }) }
        ensures recs { IfOk result (λ recs. recs ≡ (outcome self.old.now (event.Call session)).recs) }
        ensures err { OnErr result (KeepsPast self.old self.new) }
    {
        let place = self.live_home(session);
        self.call_at(session, place)
    }

    /// The node at this place takes the oldest message of a sender.
    fn take_at(&mut self, from: NodeId, place: Option<usize>) -> Mem<List<Rec>>
        ensures world { OnOk result
            (self.new ≡ record self.old {
              now =
                  (act_outcome self.old.now from place (part_on self.old.now place) (inbox_on self.old.now place)).world;
            }) }
        ensures recs { IfOk result
            (λ recs. recs ≡ (act_outcome self.old.now from place (part_on self.old.now place)
            (inbox_on self.old.now place)).recs) }
        ensures err { OnErr result (KeepsPast self.old self.new) }
    {
        let Some(place) = place else {
            return Ok(self.no_records());
        };
        if self.parts.len() <= place {
            return Ok(self.no_records());
        }
        if self.inboxes.len() <= place {
            return Ok(self.no_records());
        }
        if self.inboxes[place].oldest(from).is_none() {
            return Ok(self.no_records());
        }
        let inbox = &mut self.inboxes[place];
        match inbox.pop(from) {
            Some(message) => {
                let recs = take_message(&mut self.parts[place].node, from, message)?;
                Ok(recs)
            }
            None => Ok(self.no_records()),
        }
    }

    /// A node takes the oldest message of a sender.
    pub(crate) fn takes(&mut self, id: NodeId, from: NodeId) -> Mem<List<Rec>>
        ensures world { OnOk result (self.new ≡ record self.old { now = (outcome self.old.now (event.Act id from)).world }) }
        ensures recs { IfOk result (λ recs. recs ≡ (outcome self.old.now (event.Act id from)).recs) }
        ensures err { OnErr result (KeepsPast self.old self.new) }
    {
        let place = self.live_place(id);
        self.take_at(from, place)
    }

    /// A message goes into the inbox at this place.
    fn reach(&mut self, from: NodeId, message: Message, place: Option<usize>) -> Mem<()>
        ensures ok { OnOk result
            (self.new ≡ record self.old {
              now = with_inbox_push self.old.now from message place (inbox_on self.old.now place);
            }) }
        ensures err { OnErr result (KeepsPast self.old self.new) }
    {
        let Some(place) = place else {
            return Ok(());
        };
        if self.inboxes.len() <= place {
            return Ok(());
        }
        let inbox = &mut self.inboxes[place];
        inbox.push(from, message)
    }

    /// The oldest message of a node's outbox goes to its addressee.
    pub(crate) fn sends(&mut self, id: NodeId) -> Mem<List<Rec>>
        ensures world { OnOk result (self.new ≡ record self.old { now = (outcome self.old.now (event.Send id)).world }) }
        ensures recs { IfOk result (λ recs. recs ≡ (outcome self.old.now (event.Send id)).recs) }
        ensures err { OnErr result (KeepsPast self.old self.new) }
    {
        let Some(place) = self.live_place(id) else {
            return Ok(self.no_records());
        };
        if self.parts.len() <= place {
            return Ok(self.no_records());
        }
        let addressee = match self.parts[place].node.oldest_out() {
            Some(out) => self.place_of(out.to),
            None => None,
        };
        let part = &mut self.parts[place];
        let from = part.node.me();
        match part.node.pop_out() {
            Some(Out { to, msg }) => {
                let message = msg.copy(self.alloc)?;
                self.reach(from, msg, addressee)?;
                let mut recs = List::with_capacity(self.alloc, 1)?;
                recs.push(Rec::Sent { to, message })?;
                Ok(recs)
            }
            None => Ok(self.no_records()),
        }
    }

    /// The topology event that the node at this place has to read next.
    fn next_for(&self, place: Option<usize>) -> Option<TopoEvent>
        ensures { result ≡ next_for self.now.now (part_on self.now.now place) }
    {
        match self.part_on(place) {
            Some(part) => self.directory.event(part.node.events_read()).copied(),
            None => None,
        }
    }

    /// The node at this place reads the next topology event.
    fn see_at(&mut self, place: Option<usize>) -> Mem<List<Rec>>
        ensures world { OnOk result
            (self.new ≡ record self.old { now = (see_outcome self.old.now place (part_on self.old.now place)).world }) }
        ensures recs { IfOk result (λ recs. recs ≡ (see_outcome self.old.now place (part_on self.old.now place)).recs) }
        ensures err { OnErr result (KeepsPast self.old self.new) }
    {
        let Some(event) = self.next_for(place) else {
            return Ok(self.no_records());
        };
        let Some(place) = place else {
            return Ok(self.no_records());
        };
        if self.parts.len() <= place {
            return Ok(self.no_records());
        }
        let recs = see(&mut self.parts[place].node, &event)?;
        Ok(recs)
    }

    /// A node reads the next topology event.
    pub(crate) fn sees(&mut self, id: NodeId) -> Mem<List<Rec>>
        ensures world { OnOk result (self.new ≡ record self.old { now = (outcome self.old.now (event.See id)).world }) }
        ensures recs { IfOk result (λ recs. recs ≡ (outcome self.old.now (event.See id)).recs) }
        ensures err { OnErr result (KeepsPast self.old self.new) }
    {
        let place = self.live_place(id);
        self.see_at(place)
    }

    /// The deadline of a transaction was reached at the node at this place.
    fn expire_at(&mut self, tx: TxId, place: Option<usize>) -> Mem<List<Rec>>
        ensures world { OnOk result
            (self.new ≡ record self.old { now = (expire_outcome self.old.now tx place (part_on self.old.now place)).world }) }
        ensures recs { IfOk result (λ recs. recs ≡ (expire_outcome self.old.now tx place (part_on self.old.now place)).recs) }
        ensures err { OnErr result (KeepsPast self.old self.new) }
    {
        let Some(place) = place else {
            return Ok(self.no_records());
        };
        if self.parts.len() <= place {
            return Ok(self.no_records());
        }
        let recs = expire(&mut self.parts[place].node, tx)?;
        Ok(recs)
    }

    /// The deadline of a transaction was reached.
    pub(crate) fn expires(&mut self, tx: TxId) -> Mem<List<Rec>>
        ensures world { OnOk result (self.new ≡ record self.old { now = (outcome self.old.now (event.Expire tx)).world }) }
        ensures recs { IfOk result (λ recs. recs ≡ (outcome self.old.now (event.Expire tx)).recs) }
        ensures err { OnErr result (KeepsPast self.old self.new) }
    {
        let place = self.live_place(tx.node);
        self.expire_at(tx, place)
    }

    /// A node begins the late switch of owners.
    pub(crate) fn switches(&mut self, id: NodeId) -> Mem<List<Rec>>
        ensures world { OnOk result (self.new ≡ record self.old { now = (outcome self.old.now (event.Minor id)).world }) }
        ensures recs { IfOk result (λ recs. recs ≡ (outcome self.old.now (event.Minor id)).recs) }
        ensures err { OnErr result (KeepsPast self.old self.new) }
    {
        let Some(place) = self.live_place(id) else {
            return Ok(self.no_records());
        };
        if self.parts.len() <= place {
            return Ok(self.no_records());
        }
        self.directory.append(self.alloc, &TopoEvent::Minor)?;
        let part = &mut self.parts[place];
        begin_minor(&mut part.node);
        Ok(self.no_records())
    }
}
