//! The directory.

ghost use Rattle.std.specs.Prelude.{◌≡◌, [], OnOk, OnErr, IfOk};
ghost use Rattle.std.specs.Option.{option_copied};
ghost use Rattle.ignite_types.specs.Names.{node_cmp};
ghost use Rattle.ordered_set.specs.Members.{has};
ghost use Rattle.part_model.specs.Directory.{at_moment, directory_after_join, event_at, is_due, next_step, opening_directory, step_due, with_answer_given, with_event, with_step_done};

use crate::topology::{change_members, first_top, node_set, version_after};
use ignite_types::{List, Mem, Member, NodeId, PlanStep, Scenario, TopVer, TopoEvent};
use ordered_set::Set;
use std::alloc::Global;
use std::marker::Model;

/// The directory of the cluster. Every node reads its topology events at its own pace.
#[derive(Debug, Drop)]
pub struct Directory {
    events: List<TopoEvent>,
    ever: Set<NodeId>,
    members: List<Member>,
    last: TopVer,
    clock: u64,
    /// How many answers were given.
    answered: u64,
    plan: List<PlanStep>,
    done: u64,
}

impl Model for Directory {
    ghost use Rattle.part_model.specs.Directory.{Directory as DirectoryValue};

    ghost Value = { DirectoryValue };

    ghost view = { λ d. record { events = d.events; ever = d.ever; members = d.members; last = d.last; clock = d.clock; answered = d.answered; plan = d.plan; done = d.done } };
}

impl Directory {
    /// The directory of a scenario before the first event.
    pub fn new(alloc: Global, scenario: &Scenario) -> Mem<Directory>
        ensures { IfOk result (λ directory. directory ≡ opening_directory scenario.now) }
    {
        Ok(Directory {
            events: List::new(alloc),
            ever: node_set(alloc, scenario.nodes.as_slice())?,
            members: List::from_slice(alloc, scenario.nodes.as_slice())?,
            last: first_top(),
            clock: 0,
            answered: 0,
            plan: List::from_slice(alloc, scenario.plan.as_slice())?,
            done: 0,
        })
    }

    /// Appends a topology event.
    pub fn append(&mut self, alloc: Global, event: &TopoEvent) -> Mem<()>
        ensures ok { OnOk result (self.new ≡ with_event self.old event.now) }
        ensures err { OnErr result (self.new ≡ self.old) }
    {
        let mut members = List::from_slice(alloc, self.members.as_slice())?;
        change_members(alloc, &mut members, event)?;
        self.events.push(*event)?;
        self.members = members;
        self.last = version_after(self.last, event);
        Ok(())
    }

    /// Appends the join of a member.
    pub fn append_join(&mut self, alloc: Global, member: Member) -> Mem<()>
        ensures ok { OnOk result (self.new ≡ directory_after_join self.old member) }
        ensures err { OnErr result (self.new ≡ self.old) }
    {
        let mut ever = self.ever.copy(alloc)?;
        ever.insert(member.node)?;
        self.append(alloc, &TopoEvent::Join(member))?;
        self.ever = ever;
        Ok(())
    }

    /// Whether the number was ever in.
    pub fn was_ever_in(&self, node: NodeId) -> bool
        ensures { result ≡ has node_cmp self.now.ever node }
    {
        self.ever.contains(&node)
    }

    /// The same directory once more.
    pub fn copy(&self, alloc: Global) -> Mem<Directory>
        ensures { IfOk result (λ copy. copy ≡ self.now) }
    {
        Ok(Directory {
            events: List::from_slice(alloc, self.events.as_slice())?,
            ever: self.ever.copy(alloc)?,
            members: List::from_slice(alloc, self.members.as_slice())?,
            last: self.last,
            clock: self.clock,
            answered: self.answered,
            plan: List::from_slice(alloc, self.plan.as_slice())?,
            done: self.done,
        })
    }

    /// The clock.
    pub fn clock(&self) -> u64
        ensures { result ≡ self.now.clock }
    {
        self.clock
    }

    /// The last version.
    pub fn last(&self) -> TopVer
        ensures { result ≡ self.now.last }
    {
        self.last
    }

    /// The members, by age.
    pub fn members(&self) -> &[Member]
        ensures { result.now ≡ self.now.members }
    {
        self.members.as_slice()
    }

    /// All topology events.
    pub fn events(&self) -> &[TopoEvent]
        ensures { result.now ≡ self.now.events }
    {
        self.events.as_slice()
    }

    /// How many plan steps were done or refused.
    pub fn done(&self) -> u64
        ensures { result ≡ self.now.done }
    {
        self.done
    }

    /// The topology event at a place, counted from 0.
    pub fn event(&self, place: u64) -> Option<&TopoEvent>
        ensures { option_copied result ≡ event_at self.now place }
    {
        self.events.get(place as usize)
    }

    /// The next plan step.
    pub fn next_step(&self) -> Option<&PlanStep>
        ensures { option_copied result ≡ next_step self.now }
    {
        self.plan.get(self.done as usize)
    }

    /// Whether the next plan step's moment is reached.
    pub fn step_due(&self) -> bool
        ensures { result ≡ step_due self.now }
    {
        match self.next_step() {
            Some(step) => step.moment <= self.clock,
            None => false,
        }
    }

    /// The next plan step was done or refused.
    pub fn pass_step(&mut self)
        ensures { self.new ≡ with_step_done self.old }
    {
        self.done = self.done.saturating_add(1);
    }

    /// The clock goes to this moment.
    pub fn tick(&mut self, to: u64)
        ensures { self.new ≡ at_moment self.old to }
    {
        self.clock = to;
    }

    /// One more answer was given.
    pub fn count_answer(&mut self)
        ensures { self.new ≡ with_answer_given self.old }
    {
        self.answered = self.answered.saturating_add(1);
    }
}
