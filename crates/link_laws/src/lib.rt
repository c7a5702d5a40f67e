//! The law of links: what a node takes is what was sent to it, in that order.
#![tactic(auto)]

ghost use Rattle.std.specs.Prelude.{IsTrue, true, ◌≡◌};
ghost use Rattle.ignite_types.specs.Good.{good};
ghost use Rattle.journal_statements.specs.LinkRecords.{links};
ghost use Rattle.tx_model.specs.Runs.{IsLegal};

/// In every legal run of a good scenario each message that a node takes is the next one sent on its link. Nothing is taken from
/// a held link, or from or at a lost node, and a lost node notes nothing any more.
pub fn links_in_order()
    ensures law { (j : _) → IsTrue (good j.scenario) → IsLegal j → links j ≡ true }
{}
