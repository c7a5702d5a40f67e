//! The law of refusals: which steps of the plan are refused, and why.
#![tactic(auto)]

ghost use Rattle.std.specs.Prelude.{◌≡◌, true};
ghost use Rattle.journal_statements.specs.Refusals.{refusals_fit};
ghost use Rattle.scenes.specs.EachRun.{IsRunOf, is_short_run};

use survivor_laws::maps_are_whole;

/// Whether the law covers runs of so many events: a loss is refused exactly where its node is not in, or where the highest map
/// that a survivor has installed would keep a partition without an owner among the members, the first one being named; no other
/// step is.
pub fn refusals_are_due(events: u64) -> bool
    ensures covered { result ≡ is_short_run events }
    ensures law { result ≡ true → (j : _) → IsRunOf events j → refusals_fit j ≡ true }
{
    maps_are_whole(events)
}
