//! The law of applied writes: each write that a node applies, as a primary, a backup or a mover, stands behind a commit decision
//! of its transaction, by the transaction's starter or by a recoverer.
//!
//! It holds with joins and losses.
#![tactic(auto)]

ghost use Rattle.std.specs.Prelude.{◌≡◌, true};
ghost use Rattle.commit_laws.specs.CommitLaws.{applies_are_committed};
ghost use Rattle.scenes.specs.EachRun.{IsRunOf, is_short_run};

use transaction_laws::names_rise;

/// Whether the law covers runs of so many events: wherever a write is applied, its transaction was decided to commit before.
pub fn applies_follow_commits(events: u64) -> bool
    ensures covered { result ≡ is_short_run events }
    ensures law { result ≡ true → (j : _) → IsRunOf events j → applies_are_committed j ≡ true }
{
    names_rise(events)
}
