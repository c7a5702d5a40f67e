//! The world of a run as laws over every run see it: functions of node numbers; each event as an equation between such scenes;
//! and the theorem on which these laws stand.
//!
//! What holds at the opening of a good scenario, and is kept by each event, holds at each moment of every legal run. The theorem
//! (`legal_holds` of the proofs) is about any statement; the contracts here name it for the statements that can be computed, and
//! the laws of the crates above are what it says of theirs.
#![tactic(auto)]

ghost use Rattle.std.specs.Prelude.{◌≡◌, true};
ghost use Rattle.journal_statements.specs.Topologies.{topology_events};
ghost use Rattle.node_state.specs.declared.life.Life.TheVariants as life;
ghost use Rattle.scenes.specs.EachRun.{IsKeptTest, IsKeptViewTest, IsRunOf, StaysLost, is_short_run, last_scene, scene_at};
ghost use Rattle.scenes.specs.Events.{IsSound};
ghost use Rattle.scenes.specs.Views.{flight_view};

/// So many events are too many for the laws over every run.
const LONG_RUN: u64 = 1 << 62;

/// Whether a run of so many events is short enough for the laws over every run. Each run that a simulator makes is.
pub fn is_short(events: u64) -> bool
    ensures { result ≡ is_short_run events }
{
    events < LONG_RUN
}

/// Whether the law covers runs of so many events: what a test says of scenes, if good scenarios pass it at their opening and each
/// event keeps it, it says of the scene in which a legal run ends.
pub fn kept_tests_hold(events: u64) -> bool
    ensures covered { result ≡ is_short_run events }
    ensures law { result ≡ true → (test : _) (j : _) → IsKeptTest test → IsRunOf events j → test (last_scene j) ≡ true }
{
    scenes_are_sound(events)
}

/// The same for tests of views, in which a message is on its way from the step that sends it until it is taken, wherever it lies:
/// they owe nothing for the event that moves a message from an outbox to an inbox.
pub fn kept_view_tests_hold(events: u64) -> bool
    ensures covered { result ≡ is_short_run events }
    ensures law { result ≡ true → (test : _) (j : _) → IsKeptViewTest test → IsRunOf events j →
        test (flight_view (last_scene j)) ≡ true }
{
    kept_tests_hold(events)
}

/// Whether the law covers runs of so many events: the nodes that are alive are the members of the directory, those that are gone
/// are lost by the records, one that has not joined is as at the opening, and nothing lies on a link of a lost node.
pub fn scenes_are_sound(events: u64) -> bool
    ensures covered { result ≡ is_short_run events }
    ensures law { result ≡ true → (j : _) → IsRunOf events j → IsSound (last_scene j) }
{
    is_short(events)
}

/// Whether the law covers runs of so many events: a node that is lost stays lost, and its state stays as it was.
pub fn lost_nodes_stay(events: u64) -> bool
    ensures covered { result ≡ is_short_run events }
    ensures law { result ≡ true → (j : _) (k : _) (n : _) → IsRunOf events j → (scene_at j k).life n ≡ life.Gone →
        StaysLost n (scene_at j k) (last_scene j) }
{
    kept_view_tests_hold(events)
}

/// Whether the law covers runs of so many events: the topology events of the directory are those that the journal tells, by its
/// records of plan steps and its late switches.
pub fn events_are_told(events: u64) -> bool
    ensures covered { result ≡ is_short_run events }
    ensures law { result ≡ true → (j : _) → IsRunOf events j →
        (last_scene j).directory.events ≡ topology_events j.scenario j.groups }
{
    lost_nodes_stay(events)
}
