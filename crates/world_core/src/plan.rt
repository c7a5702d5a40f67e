//! The plan.

ghost use Rattle.std.specs.Prelude.{◌≡◌, [], None, Some, OnOk, OnErr, IfOk};
ghost use Rattle.ignite_types.specs.declared.journal.Event.TheVariants as event;
ghost use Rattle.tx_model.specs.World.{join_outcome, outcome, part_on, plan_outcome_with, step_outcome, with_hold_between};
ghost use Rattle.world_core.specs.Run.{KeepsPast};

use crate::world::World;
use ignite_types::{List, Mem, Member, NoLoss, NodeId, Rec, Step, TopoEvent};

impl World {
    /// The plan step at hand is done or refused.
    pub(crate) fn pass(&mut self, refused: Option<NoLoss>, recs: List<Rec>) -> Mem<List<Rec>>
        ensures world { OnOk result
            (self.new ≡ record self.old { now = (plan_outcome_with self.old.now self.old.now.directory refused recs).world }) }
        ensures recs { IfOk result (λ all. all ≡ (plan_outcome_with self.old.now self.old.now.directory refused recs).recs) }
        ensures err { OnErr result (KeepsPast self.old self.new) }
    {
        let mut all = List::with_capacity(self.alloc, recs.len() + 1)?;
        all.push(Rec::Planned {
            place: self.directory.done() as usize,
            refused,
        })?;
        all.append(recs)?;
        self.directory.pass_step();
        Ok(all)
    }

    /// A declared node joins.
    fn joins(&mut self, member: Member, place: Option<usize>) -> Mem<List<Rec>>
        ensures world { OnOk result
            (self.new ≡ record self.old {
              now =
                  (join_outcome self.old.now member self.old.now.directory place (part_on self.old.now place)).world;
            }) }
        ensures recs { IfOk result
            (λ recs. recs ≡ (join_outcome self.old.now member self.old.now.directory place (part_on self.old.now place)).recs) }
        ensures err { OnErr result (KeepsPast self.old self.new) }
    {
        let Some(place) = place else {
            let none = self.no_records();
            return self.pass(None, none);
        };
        if self.parts.len() <= place {
            let none = self.no_records();
            return self.pass(None, none);
        }
        let clock = self.directory.clock();
        let own = TopoEvent::Join(member);
        let recs = self.parts[place].join(self.directory.events(), clock, &own)?;
        self.directory.append_join(self.alloc, member)?;
        self.pass(None, recs)
    }

    /// The link is held from now on, or goes on.
    fn holds(&mut self, from: NodeId, to: NodeId, held: bool)
        ensures { self.new ≡ record self.old { now = with_hold_between self.old.now from to held } }
    {
        let Some(place) = self.place_of(to) else {
            return;
        };
        if self.inboxes.len() <= place {
            return;
        }
        let inbox = &mut self.inboxes[place];
        inbox.hold(from, held);
    }

    /// A step of the plan is done or refused.
    fn does_step(&mut self, step: Step) -> Mem<List<Rec>>
        ensures world { OnOk result
            (self.new ≡ record self.old { now = (step_outcome self.old.now self.old.now.directory step).world }) }
        ensures recs { IfOk result (λ recs. recs ≡ (step_outcome self.old.now self.old.now.directory step).recs) }
        ensures err { OnErr result (KeepsPast self.old self.new) }
    {
        match step {
            Step::Join(member) => {
                let place = self.place_of(member.node);
                self.joins(member, place)
            }
            Step::Lose(id) => {
                let refused = self.loss_refused(id);
                self.loses(id, refused)
            }
            Step::Hold(from, to) => {
                self.holds(from, to, true);
                let none = self.no_records();
                self.pass(None, none)
            }
            Step::Release(from, to) => {
                self.holds(from, to, false);
                let none = self.no_records();
                self.pass(None, none)
            }
            Step::Start(cache) => {
                self.directory.append(self.alloc, &TopoEvent::Start(cache))?;
                let none = self.no_records();
                self.pass(None, none)
            }
            Step::Stop(cache) => {
                self.directory.append(self.alloc, &TopoEvent::Stop(cache))?;
                let none = self.no_records();
                self.pass(None, none)
            }
        }
    }

    /// The next plan step is done or refused.
    pub(crate) fn plans(&mut self) -> Mem<List<Rec>>
        ensures world { OnOk result (self.new ≡ record self.old { now = (outcome self.old.now event.Plan).world }) }
        ensures recs { IfOk result (λ recs. recs ≡ (outcome self.old.now event.Plan).recs) }
        ensures err { OnErr result (KeepsPast self.old self.new) }
    {
        let step = match self.directory.next_step() {
            Some(step) => step.step,
            None => return Ok(self.no_records()),
        };
        self.does_step(step)
    }
}
