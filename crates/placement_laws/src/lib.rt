//! The laws of placement: where partitions have owners.
#![tactic(auto)]

ghost use Rattle.std.specs.Prelude.{◌≡◌, IsTrue, true};
ghost use Rattle.ignite_types.specs.Good.{good};
ghost use Rattle.journal_statements.specs.Maps.{opening_map_fits};
ghost use Rattle.placement_laws.specs.PlacementLaws.{held_by_members, owned_only_where_run};
ghost use Rattle.scenes.specs.EachRun.{IsRunOf, is_short_run};

use map_laws::maps_are_next_maps;

/// In the map that a good scenario begins with each partition has a row, and an owner exactly where its cache runs from the start.
pub fn opening_maps_fit()
    ensures law { (s : _) → IsTrue (good s) → opening_map_fits s ≡ true }
{}

/// Whether the law covers runs of so many events: each map that is installed has a row for each partition of each cache, and an owner
/// only where the cache is one of its version.
pub fn stopped_caches_have_no_owner(events: u64) -> bool
    ensures covered { result ≡ is_short_run events }
    ensures law { result ≡ true → (j : _) → IsRunOf events j → owned_only_where_run j ≡ true }
{
    maps_are_next_maps(events)
}

/// Whether the law covers runs of so many events: in each map that is installed all owners and movers are members of its version.
pub fn members_hold_partitions(events: u64) -> bool
    ensures covered { result ≡ is_short_run events }
    ensures law { result ≡ true → (j : _) → IsRunOf events j → held_by_members j ≡ true }
{
    stopped_caches_have_no_owner(events)
}
