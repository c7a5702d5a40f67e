//! The laws of owners, where topology stands still: no step of the plan is a join or a loss, or starts or stops a cache. Links may be
//! held and released, deadlines met, deadlocks searched for.
#![tactic(auto)]

ghost use Rattle.std.specs.Prelude.{◌≡◌, true};
ghost use Rattle.owner_laws.specs.OwnerLaws.{LocksAreTokens, OwnsItsKeys, topology_stands};
ghost use Rattle.scenes.specs.EachRun.{IsRunOf, is_short_run, last_scene};

use transaction_laws::names_rise;

/// Whether the law covers runs of so many events: where topology stands still an undecided pessimistic transaction owns each key that
/// it has accessed, at the key's primary, or it waits for it.
pub fn keys_are_owned_in_still_topology(events: u64) -> bool
    ensures covered { result ≡ is_short_run events }
    ensures law { result ≡ true → (j : _) → IsRunOf events j → topology_stands j.scenario ≡ true → OwnsItsKeys (last_scene j) }
{
    names_rise(events)
}

/// Whether the law covers runs of so many events: where topology stands still, an undecided transaction's Lock of a key, its place in
/// the key's queue and its LockOk are one token.
pub fn locks_are_tokens_in_still_topology(events: u64) -> bool
    ensures covered { result ≡ is_short_run events }
    ensures law { result ≡ true → (j : _) → IsRunOf events j → topology_stands j.scenario ≡ true → LocksAreTokens (last_scene j) }
{
    keys_are_owned_in_still_topology(events)
}
