//! The clock.

ghost use Rattle.std.specs.Prelude.{◌≡◌, OnOk, OnErr, IfOk};
ghost use Rattle.ignite_types.specs.declared.journal.Event.TheVariants as event;
ghost use Rattle.tx_model.specs.World.{least_moment, live_moments, outcome, plan_moment};
ghost use Rattle.world_core.specs.Run.{KeepsPast};

use crate::parts::{is_alive, tick_each};
use crate::world::World;
use deadlock_search::{next_moment, sooner};
use ignite_types::{List, Mem, Rec};

impl World {
    /// The moment of the next plan step.
    fn plan_moment(&self) -> Option<u64>
        ensures { result ≡ plan_moment self.now.now.directory }
    {
        match self.directory.next_step() {
            Some(step) => Some(step.moment),
            None => None,
        }
    }

    /// The least deadline, sleep end or plan moment after the clock.
    pub(crate) fn least_moment(&self) -> Option<u64>
        ensures { result ≡ least_moment self.now.now }
    {
        let clock = self.directory.clock();
        let mut best = sooner(clock, None, self.plan_moment());
        for part in self.parts.as_slice() {
            if is_alive(part.life) {
                best = sooner(clock, best, next_moment(&part.node));
            }
        }
        best
    }

    /// The clock goes to the least moment after it.
    pub(crate) fn ticks(&mut self) -> Mem<List<Rec>>
        ensures world { OnOk result (self.new ≡ record self.old { now = (outcome self.old.now event.Tick).world }) }
        ensures recs { IfOk result (λ recs. recs ≡ (outcome self.old.now event.Tick).recs) }
        ensures err { OnErr result (KeepsPast self.old self.new) }
    {
        let Some(to) = self.least_moment() else {
            return Ok(self.no_records());
        };
        let mut recs = List::with_capacity(self.alloc, 1)?;
        recs.push(Rec::Tick { to })?;
        self.directory.tick(to);
        tick_each(&mut self.parts, to);
        Ok(recs)
    }
}
