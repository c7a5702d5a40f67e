//! The calls of an object over memory: which of them fail, and how many did.

ghost use Rattle.std.specs.Prelude.{◌≡◌, ◌≤◌};
ghost use Rattle.host_io.specs.Faults.{Faulted};
ghost use Rattle.host_io.specs.Plan.{fails_next, faulted, fresh_plan, plan_after_call};

use std::marker::Model;

/// The numbers of the calls that fail, counted from 1, with the counts of the calls and the faults so
/// far. A count stands still at 2^64 - 1, and a call past that number does not fail.
#[derive(Drop)]
pub(crate) struct CallPlan {
    fails: Vec<u64>,
    made: u64,
    faults: u64,
}

impl Model for CallPlan {
    ghost use Rattle.host_io.specs.Plan.{Plan};

    ghost Value = { Plan };

    ghost view = { λ p. record { fails = p.fails.items; made = p.made; faults = p.faults } };
}

impl CallPlan {
    pub(crate) fn new(fails: Vec<u64>) -> CallPlan
        ensures { result ≡ fresh_plan fails.items }
    {
        CallPlan {
            fails,
            made: 0,
            faults: 0,
        }
    }

    /// Counts a call, and answers whether it is one that fails.
    pub(crate) fn begin(&mut self) -> bool
        ensures answer { result ≡ fails_next self.old }
        ensures after { self.new ≡ plan_after_call self.old }
    {
        if self.made == u64::MAX {
            return false;
        }
        self.made += 1;
        self.fails.contains(&self.made)
    }

    /// Counts a fault.
    pub(crate) fn count_fault(&mut self)
        ensures after { self.new ≡ faulted self.old }
        ensures counted { Faulted self.old.faults self.new.faults }
        ensures rises { self.old.faults ≤ self.new.faults }
    {
        self.faults = self.faults.saturating_add(1);
    }
}
