//! The laws of what starters ask and are told: wherever a request is sent or taken it comes from its transaction's starter, and the
//! answer goes to it; and so what is found for a transaction is delivered to its starter.
//!
//! They hold with joins and losses.
#![tactic(auto)]

ghost use Rattle.std.specs.Prelude.{◌≡◌, true};
ghost use Rattle.journal_statements.specs.Told.{finds_reach_starters};
ghost use Rattle.scenes.specs.EachRun.{IsRunOf, is_short_run};
ghost use Rattle.told_laws.specs.ToldLaws.{starters_ask};

use transaction_laws::names_rise;

/// Whether the law covers runs of so many events: wherever one is sent or taken, a Lock, a Get or a Prepare comes from its
/// transaction's starter, and a LockOk, a GetOk, a Prepared or a PrepareFail goes to it.
pub fn requests_are_of_starters(events: u64) -> bool
    ensures covered { result ≡ is_short_run events }
    ensures law { result ≡ true → (j : _) → IsRunOf events j → starters_ask j ≡ true }
{
    names_rise(events)
}

/// Whether the law covers runs of so many events: what is found for a transaction is delivered to its starter.
pub fn finds_are_for_starters(events: u64) -> bool
    ensures covered { result ≡ is_short_run events }
    ensures law { result ≡ true → (j : _) → IsRunOf events j → finds_reach_starters j ≡ true }
{
    requests_are_of_starters(events)
}
