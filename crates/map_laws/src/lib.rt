//! The laws of maps: each map is the next map of the highest one, and the maps of a node rise.
//!
//! They stand on the laws of topology, whose invariant says at the act of computing a map that no node which is alive has a map
//! above those that the Singles brought.
#![tactic(auto)]

ghost use Rattle.std.specs.Prelude.{◌≡◌, true};
ghost use Rattle.map_laws.specs.MapLaws.{highest_bases, next_maps, rising_maps};
ghost use Rattle.scenes.specs.EachRun.{IsRunOf, is_short_run};

use topology_laws::versions_have_one_map;

/// Whether the law covers runs of so many events: each map that a node installs has a higher version than those that it installed
/// before, and, at an initial node, than the first version.
pub fn maps_rise(events: u64) -> bool
    ensures covered { result ≡ is_short_run events }
    ensures law { result ≡ true → (j : _) → IsRunOf events j → rising_maps j ≡ true }
{
    versions_have_one_map(events)
}

/// Whether the law covers runs of so many events: each map that is installed is the one that its version has, or the next map that
/// the oldest member of its version makes of one Single from each member, as they were brought to it.
pub fn maps_are_next_maps(events: u64) -> bool
    ensures covered { result ≡ is_short_run events }
    ensures law { result ≡ true → (j : _) → IsRunOf events j → next_maps j ≡ true }
{
    maps_rise(events)
}

/// Whether the law covers runs of so many events: where the first map of a version is made, the Singles that it is made of have a
/// map no lower than any that a node which is not lost has installed.
pub fn maps_rest_on_highest(events: u64) -> bool
    ensures covered { result ≡ is_short_run events }
    ensures law { result ≡ true → (j : _) → IsRunOf events j → highest_bases j ≡ true }
{
    maps_are_next_maps(events)
}
