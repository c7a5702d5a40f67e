//! The law of coordinators: who hands out the map of a version, and tells that it is open.
#![tactic(auto)]

ghost use Rattle.std.specs.Prelude.{◌≡◌, true};
ghost use Rattle.journal_statements.specs.MapLaws.{one_coordinator};
ghost use Rattle.scenes.specs.EachRun.{IsRunOf, is_short_run};

use map_laws::maps_are_next_maps;

/// Whether the law covers runs of so many events: a Full and an Opens are sent by the oldest member of their version alone, and the
/// map of a Full is the one that was installed of that version.
pub fn coordinators_are_one(events: u64) -> bool
    ensures covered { result ≡ is_short_run events }
    ensures law { result ≡ true → (j : _) → IsRunOf events j → one_coordinator j ≡ true }
{
    maps_are_next_maps(events)
}
