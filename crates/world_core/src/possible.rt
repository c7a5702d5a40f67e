//! Which events are possible, in their order.

ghost use Rattle.std.specs.Prelude.{◌≡◌, ◌++◌, map, OnOk, IfOk};
ghost use Rattle.std.specs.Option.{option_copied};
ghost use Rattle.ignite_types.specs.declared.journal.Event.TheVariants as event;
ghost use Rattle.tx_model.specs.World.{is_enabled, is_quiet, node_events, node_ids, open_txs, plan_events, possible, possible_acts, possible_of, session_node_at, sessions, tick_events, tx_of_session};

use crate::showing::can_take;
use crate::world::World;
use ignite_types::{Event, List, Mem, NodeId, TxId};

impl World {
    fn add_answers(&self, events: &mut List<Event>) -> Mem<()>
        ensures { OnOk result (events.new ≡ events.old ++ possible_of self.now.now (map event.Answer (sessions self.now.now))) }
    {
        for (session, _) in self.session_nodes.as_slice() {
            let event = Event::Answer(*session);
            if self.can_be(&event) {
                events.push(event)?;
            }
        }
        Ok(())
    }

    fn add_calls(&self, events: &mut List<Event>) -> Mem<()>
        ensures { OnOk result (events.new ≡ events.old ++ possible_of self.now.now (map event.Call (sessions self.now.now))) }
    {
        for (session, _) in self.session_nodes.as_slice() {
            let event = Event::Call(*session);
            if self.can_be(&event) {
                events.push(event)?;
            }
        }
        Ok(())
    }

    fn add_sends(&self, events: &mut List<Event>) -> Mem<()>
        ensures { OnOk result (events.new ≡ events.old ++ possible_of self.now.now (map event.Send (node_ids self.now.now))) }
    {
        for part in self.parts.as_slice() {
            let event = Event::Send(part.node.me());
            if self.can_be(&event) {
                events.push(event)?;
            }
        }
        Ok(())
    }

    fn add_sees(&self, events: &mut List<Event>) -> Mem<()>
        ensures { OnOk result (events.new ≡ events.old ++ possible_of self.now.now (map event.See (node_ids self.now.now))) }
    {
        for part in self.parts.as_slice() {
            let event = Event::See(part.node.me());
            if self.can_be(&event) {
                events.push(event)?;
            }
        }
        Ok(())
    }

    fn add_switches(&self, events: &mut List<Event>) -> Mem<()>
        ensures { OnOk result (events.new ≡ events.old ++ possible_of self.now.now (map event.Minor (node_ids self.now.now))) }
    {
        for part in self.parts.as_slice() {
            let event = Event::Minor(part.node.me());
            if self.can_be(&event) {
                events.push(event)?;
            }
        }
        Ok(())
    }

    /// The session's transaction at its node.
    fn tx_at(&self, session: u32) -> Option<TxId>
        ensures { result ≡ tx_of_session session (session_node_at self.now.now session) }
    {
        match self.home_at(session) {
            Some(node) => match node.session_state(session) {
                Some(session_state) => session_state.tx,
                None => None,
            },
            None => None,
        }
    }

    fn add_expiries(&self, events: &mut List<Event>) -> Mem<()>
        ensures { OnOk result (events.new ≡ events.old ++ possible_of self.now.now (map event.Expire (open_txs self.now.now))) }
    {
        for (session, _) in self.session_nodes.as_slice() {
            if let Some(tx) = self.tx_at(*session) {
                let event = Event::Expire(tx);
                if self.can_be(&event) {
                    events.push(event)?;
                }
            }
        }
        Ok(())
    }

    /// The messages that one node can take.
    fn add_acts_of(&self, events: &mut List<Event>, id: NodeId) -> Mem<()>
        ensures { OnOk result (events.new ≡ events.old ++ possible_of self.now.now (map (event.Act id) (node_ids self.now.now))) }
    {
        let inbox = self.inbox_of(id);
        for part in self.parts.as_slice() {
            let from = part.node.me();
            if can_take(from, inbox) {
                events.push(Event::Act(id, from))?;
            }
        }
        Ok(())
    }

    fn add_acts(&self, events: &mut List<Event>) -> Mem<()>
        ensures { OnOk result (events.new ≡ events.old ++ possible_acts self.now.now (node_ids self.now.now)
            (node_ids self.now.now)) }
    {
        for part in self.parts.as_slice() {
            self.add_acts_of(events, part.id())?;
        }
        Ok(())
    }

    /// The possible events at nodes.
    fn node_events(&self) -> Mem<List<Event>>
        ensures { IfOk result (λ events. events ≡ node_events self.now.now) }
    {
        let mut events = List::new(self.alloc);
        self.add_answers(&mut events)?;
        self.add_acts(&mut events)?;
        self.add_sends(&mut events)?;
        self.add_sees(&mut events)?;
        self.add_expiries(&mut events)?;
        self.add_switches(&mut events)?;
        self.add_calls(&mut events)?;
        Ok(events)
    }

    fn add_plan(&self, events: &mut List<Event>) -> Mem<()>
        ensures { OnOk result (events.new ≡ events.old ++ plan_events self.now.now) }
    {
        if self.can_be(&Event::Plan) {
            events.push(Event::Plan)?;
        }
        Ok(())
    }

    fn add_tick(&self, events: &mut List<Event>, quiet: bool) -> Mem<()>
        ensures { OnOk result (events.new ≡ events.old ++ tick_events self.now.now quiet) }
    {
        if quiet {
            if self.can_be(&Event::Tick) {
                events.push(Event::Tick)?;
            }
        }
        Ok(())
    }

    /// Whether nothing is possible at nodes.
    fn is_quiet(&self) -> Mem<bool>
        ensures { IfOk result (λ quiet. quiet ≡ is_quiet self.now.now) }
    {
        let events = self.node_events()?;
        Ok(events.len() == 0)
    }

    /// Whether the event is possible now. The clock moves only where all is quiet.
    pub fn enabled(&self, event: &Event) -> Mem<bool>
        ensures { IfOk result (λ yes. yes ≡ is_enabled self.now.now event.now) }
    {
        if self.broken {
            return Ok(false);
        }
        if !self.can_be(event) {
            return Ok(false);
        }
        match event {
            Event::Tick => self.is_quiet(),
            _ => Ok(true),
        }
    }

    /// The possible events in their order, want of memory left out.
    pub fn possible(&self) -> Mem<List<Event>>
        ensures { IfOk result (λ events. events ≡ possible self.now.now) }
    {
        if self.broken {
            return Ok(List::new(self.alloc));
        }
        let mut events = self.node_events()?;
        let quiet = events.len() == 0;
        self.add_plan(&mut events)?;
        self.add_tick(&mut events, quiet)?;
        Ok(events)
    }
}
