//! What is proved of every run, in one place: one function, whose contract gives one record with a named field for each promise.
#![tactic(auto)]

ghost use Rattle.std.specs.Prelude.{◌≡◌, true};
ghost use Rattle.run_promises.specs.RunPromises.{RunPromises};
ghost use Rattle.scenes.specs.EachRun.{IsRunOf, is_short_run};

use transaction_laws::names_rise;

/// Whether the laws cover runs of so many events: each promise is kept by every legal run of a good scenario with as many.
pub fn promises_kept(events: u64) -> bool
    ensures covered { result ≡ is_short_run events }
    ensures law { result ≡ true → (j : _) → IsRunOf events j → RunPromises j }
{
    names_rise(events)
}
