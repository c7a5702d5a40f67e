//! Driving a run: the possible event that the schedule picks, again and again.

ghost use Rattle.std.specs.Prelude.{◌≡◌, ◌≢◌, [], length, min, slice_get, ◌-◌, ◌^◌, OnOk, OnErr, OnSome, IfNone, IfOk, MatchBool};
ghost use Rattle.sched_seed.specs.Picks.{after_pick, next_pick};
ghost use Rattle.tx_model.specs.World.{possible};
ghost use Rattle.world_core.specs.Run.{KeepsPast};
ghost use Rattle.sim_top.specs.Drive.{Follows, Moves, PastFollows, counted};

use crate::options::Options;
use ignite_types::{Event, List, Mem};
use sched_seed::Picker;
use world_core::World;

/// So many events as a pick counts.
fn counted(events: usize) -> u32
    ensures { result ≡ counted events }
{
    if events <= 4_294_967_295 {
        events as u32
    } else {
        4_294_967_295
    }
}

/// The event that the picker picks of these, if there is one.
fn picked(picker: &mut Picker, events: &List<Event>) -> Option<Event>
    ensures event { result ≡ slice_get events.now (next_pick picker.old (counted (length events.now))) }
    ensures rest { OnSome result (picker.new ≡ after_pick picker.old) }
    ensures none { IfNone result (events.now ≡ []) }
{
    if events.is_empty() {
        return None;
    }
    let place = picker.pick(counted(events.len()));
    events.get(place as usize).copied()
}

/// The event that the picker picks happens, if one is possible. Answers whether one did.
fn advance(world: &mut World, picker: &mut Picker) -> Mem<bool>
    ensures moves { IfOk result (λ more. Moves picker.old picker.new more world.old world.new) }
    ensures err { OnErr result (KeepsPast world.old world.new) }
{
    let events = world.possible()?;
    match picked(picker, &events) {
        Some(event) => {
            world.step(event)?;
            Ok(true)
        }
        None => Ok(false),
    }
}

/// Drives the run until no event is possible or it has as many events as it may. Answers whether another is possible.
pub fn drive(world: &mut World, options: Options) -> Mem<bool>
    requires follows { Follows options.seed world.old }
    requires fresh { world.old.past ≡ [] }
    ensures scenario { world.new.scenario ≡ world.old.scenario }
    ensures follows { OnOk result (Follows options.seed world.new) }
    ensures ended { IfOk result (λ more. MatchBool more ((length world.new.past ≡ options.steps)
        × (possible world.new.now ≢ [])) (possible world.new.now ≡ [])) }
    ensures err { OnErr result (PastFollows options.seed world.new) }
{
    let mut picker = Picker::new(options.seed);
    for _done in 0..options.steps {
        if !advance(world, &mut picker)? {
            return Ok(false);
        }
    }
    let events = world.possible()?;
    Ok(!events.is_empty())
}
