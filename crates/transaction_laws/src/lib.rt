//! The laws of decisions and starts: a starter decides each of its transactions at most once, another node only where the starter
//! is lost; a transaction starts once, in a version that is open at its node; and the numbers of a session's transactions rise.
//!
//! They hold with joins and losses. That a commit stands is shown here as far as no starter is lost.
#![tactic(auto)]

ghost use Rattle.std.specs.Prelude.{◌≡◌, true};
ghost use Rattle.journal_statements.specs.Versions.{commits_stand};
ghost use Rattle.scenes.specs.EachRun.{IsRunOf, is_short_run};
ghost use Rattle.transaction_laws.specs.TransactionLaws.{commits_stand_or_lost, decided_once, has_no_loss, recovered_after_loss, rising_names, started_once};

use scenes::events_are_told;

/// Whether the law covers runs of so many events: a starter decides each of its transactions at most once.
pub fn starters_decide_once(events: u64) -> bool
    ensures covered { result ≡ is_short_run events }
    ensures law { result ≡ true → (j : _) → IsRunOf events j → decided_once j ≡ true }
{
    events_are_told(events)
}

/// Whether the law covers runs of so many events: where another node than its starter decides a transaction, the starter is lost.
pub fn others_decide_after_loss(events: u64) -> bool
    ensures covered { result ≡ is_short_run events }
    ensures law { result ≡ true → (j : _) → IsRunOf events j → recovered_after_loss j ≡ true }
{
    starters_decide_once(events)
}

/// Whether the law covers runs of so many events: a rollback decision stands behind a commit decision only where the starter is
/// lost.
pub fn commits_stand_unless_lost(events: u64) -> bool
    ensures covered { result ≡ is_short_run events }
    ensures law { result ≡ true → (j : _) → IsRunOf events j → commits_stand_or_lost j ≡ true }
{
    others_decide_after_loss(events)
}

/// Whether the law covers runs of so many events: where no step of the plan loses a node, no rollback decision stands behind a
/// commit decision.
pub fn commits_stand_without_losses(events: u64) -> bool
    ensures covered { result ≡ is_short_run events }
    ensures law { result ≡ true → (j : _) → IsRunOf events j → has_no_loss j.scenario ≡ true → commits_stand j ≡ true }
{
    commits_stand_unless_lost(events)
}

/// Whether the law covers runs of so many events: a transaction starts once, at its own node, in a version that is open there.
pub fn transactions_start_once(events: u64) -> bool
    ensures covered { result ≡ is_short_run events }
    ensures law { result ≡ true → (j : _) → IsRunOf events j → started_once j ≡ true }
{
    commits_stand_without_losses(events)
}

/// Whether the law covers runs of so many events: the numbers of a session's transactions rise, in the order in which they start.
pub fn names_rise(events: u64) -> bool
    ensures covered { result ≡ is_short_run events }
    ensures law { result ≡ true → (j : _) → IsRunOf events j → rising_names j ≡ true }
{
    transactions_start_once(events)
}
