//! The laws of votes and ends, where topology stands still: no step of the plan is a join or a loss, or starts or stops a cache.
//! Links may be held and released, deadlines met, deadlocks searched for.
#![tactic(auto)]

ghost use Rattle.std.specs.Prelude.{◌≡◌, true};
ghost use Rattle.owner_laws.specs.OwnerLaws.{topology_stands};
ghost use Rattle.scenes.specs.EachRun.{IsRunOf, is_short_run, last_scene};
ghost use Rattle.vote_laws.specs.VoteLaws.{EndsStand, VotesStand};

use owner_laws::keys_are_owned_in_still_topology;

/// Whether the law covers runs of so many events: where topology stands still, a primary that has voted for a commit keeps its own
/// share Prepared, and so does each other holder, for as long as the transaction is undecided.
pub fn votes_stand_in_still_topology(events: u64) -> bool
    ensures covered { result ≡ is_short_run events }
    ensures law { result ≡ true → (j : _) → IsRunOf events j → topology_stands j.scenario ≡ true → VotesStand (last_scene j) }
{
    keys_are_owned_in_still_topology(events)
}

/// Whether the law covers runs of so many events: where topology stands still, each Finish and BackupFinish carries what the
/// transaction's starter has decided, a commit meets a Prepared share, and only committed transactions have Committed shares.
pub fn ends_are_decided_in_still_topology(events: u64) -> bool
    ensures covered { result ≡ is_short_run events }
    ensures law { result ≡ true → (j : _) → IsRunOf events j → topology_stands j.scenario ≡ true → EndsStand (last_scene j) }
{
    votes_stand_in_still_topology(events)
}
