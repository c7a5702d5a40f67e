//! The laws of topology: each version has one map, it is opened once at a node, and not before its members have installed that
//! map.
#![tactic(auto)]

ghost use Rattle.std.specs.Prelude.{◌≡◌, true};
ghost use Rattle.scenes.specs.EachRun.{IsRunOf, is_short_run};
ghost use Rattle.topology_laws.specs.TopologyLaws.{OpensOnce, one_map, opens_after_all};

use scenes::kept_tests_hold;

/// Whether the law covers runs of so many events: all maps of one version that nodes install are one map.
pub fn versions_have_one_map(events: u64) -> bool
    ensures covered { result ≡ is_short_run events }
    ensures law { result ≡ true → (j : _) → IsRunOf events j → one_map j ≡ true }
{
    kept_tests_hold(events)
}

/// Whether the law covers runs of so many events: no node opens a version twice.
pub fn versions_open_once(events: u64) -> bool
    ensures covered { result ≡ is_short_run events }
    ensures law { result ≡ true → (j : _) → IsRunOf events j → OpensOnce j }
{
    versions_have_one_map(events)
}

/// Whether the law covers runs of so many events: where a version is opened, each of its members is lost or has installed its map
/// before.
pub fn versions_open_after_all(events: u64) -> bool
    ensures covered { result ≡ is_short_run events }
    ensures law { result ≡ true → (j : _) → IsRunOf events j → opens_after_all j ≡ true }
{
    versions_open_once(events)
}
