//! What an event does.

ghost use Rattle.std.specs.Prelude.{◌≡◌, OnOk, OnErr, IfOk};
ghost use Rattle.ignite_types.specs.declared.journal.Event.TheVariants as event;
ghost use Rattle.tx_model.specs.World.{outcome};
ghost use Rattle.world_core.specs.Run.{KeepsPast, run_after};

use crate::world::World;
use ignite_types::{Event, Group, List, Mem, NodeId, Rec};

impl World {
    /// A node has no memory left: its act counts, and nothing is possible any more.
    fn breaks(&mut self, id: NodeId) -> Mem<List<Rec>>
        ensures world { OnOk result (self.new ≡ record self.old { now = (outcome self.old.now (event.Memory id)).world }) }
        ensures recs { IfOk result (λ recs. recs ≡ (outcome self.old.now (event.Memory id)).recs) }
        ensures err { OnErr result (KeepsPast self.old self.new) }
    {
        let mut recs = List::with_capacity(self.alloc, 1)?;
        recs.push(Rec::Memory)?;
        self.broken = true;
        let Some(place) = self.live_place(id) else {
            return Ok(recs);
        };
        if self.parts.len() <= place {
            return Ok(recs);
        }
        let part = &mut self.parts[place];
        part.node.begin_act();
        Ok(recs)
    }

    fn happens(&mut self, event: &Event) -> Mem<List<Rec>>
        ensures world { OnOk result (self.new ≡ record self.old { now = (outcome self.old.now event.now).world }) }
        ensures recs { IfOk result (λ recs. recs ≡ (outcome self.old.now event.now).recs) }
        ensures err { OnErr result (KeepsPast self.old self.new) }
    {
        match event {
            Event::Answer(session) => self.answers(*session),
            Event::Act(id, from) => self.takes(*id, *from),
            Event::Send(id) => self.sends(*id),
            Event::See(id) => self.sees(*id),
            Event::Expire(tx) => self.expires(*tx),
            Event::Minor(id) => self.switches(*id),
            Event::Call(session) => self.calls(*session),
            Event::Plan => self.plans(),
            Event::Tick => self.ticks(),
            Event::Memory(id) => self.breaks(*id),
        }
    }

    /// One event happens, and its group is added to the journal. After want of memory the groups so far stay, and the
    /// world is of no further use.
    pub fn step(&mut self, event: Event) -> Mem<()>
        ensures ok { OnOk result (self.new ≡ run_after self.old event) }
        ensures err { OnErr result (KeepsPast self.old self.new) }
    {
        let recs = self.happens(&event)?;
        self.groups.push(Group { event, recs })
    }
}
