//! The law of lock queues: what the records of a run tell of them.
#![tactic(auto)]

ghost use Rattle.lock_laws.specs.Carrying.{OneHolder};

/// At every moment of every legal run, whatever the order of events, joins and losses, at most one transaction holds a key at
/// one node: a key is granted where each other transaction that it was granted to there has dropped it since.
pub fn one_holder_at_a_time()
    ensures { (j : _) → OneHolder j }
{}
