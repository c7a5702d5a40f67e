//! The laws of living owners: joins, losses and new maps leave each partition that has owners one that is not lost.
//!
//! They stand on the refusal of losses, and on the maps that an exchange makes: such a map rests on the highest one, and its
//! members have all sent their Singles, so that none of them is lost.
#![tactic(auto)]

ghost use Rattle.std.specs.Prelude.{◌≡◌, true};
ghost use Rattle.journal_statements.specs.MapLaws.{owners_left};
ghost use Rattle.journal_statements.specs.Maps.{maps};
ghost use Rattle.scenes.specs.EachRun.{IsRunOf, is_short_run};

use placement_laws::members_hold_partitions;

/// Whether the law covers runs of so many events: at each loss and each installed map, in the highest map that is installed at a node
/// which is not lost, each partition that has owners has one that is not lost.
pub fn live_owners_are_left(events: u64) -> bool
    ensures covered { result ≡ is_short_run events }
    ensures law { result ≡ true → (j : _) → IsRunOf events j → owners_left j ≡ true }
{
    members_hold_partitions(events)
}

/// Whether the law covers runs of so many events: each map that is installed is the one of its version, or the next map that the oldest
/// member makes of one Single from each member; in that map, and in the one that the run begins with, each partition has a row, and an
/// owner exactly where its cache is one of the version.
pub fn maps_are_whole(events: u64) -> bool
    ensures covered { result ≡ is_short_run events }
    ensures law { result ≡ true → (j : _) → IsRunOf events j → maps j ≡ true }
{
    live_owners_are_left(events)
}
