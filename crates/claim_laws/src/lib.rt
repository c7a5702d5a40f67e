//! The law of late switches: owners change without a loss or a join only where each mover has told that its copies are full.
#![tactic(auto)]

ghost use Rattle.std.specs.Prelude.{◌≡◌, true};
ghost use Rattle.journal_statements.specs.MapLaws.{switches_claimed};
ghost use Rattle.scenes.specs.EachRun.{IsRunOf, is_short_run};

use survivor_laws::maps_are_whole;

/// Whether the law covers runs of so many events: a late switch begins only at a node that has taken, from each mover of the
/// highest map that it has installed, a Complete of that map's version.
pub fn switches_are_claimed(events: u64) -> bool
    ensures covered { result ≡ is_short_run events }
    ensures law { result ≡ true → (j : _) → IsRunOf events j → switches_claimed j ≡ true }
{
    maps_are_whole(events)
}
