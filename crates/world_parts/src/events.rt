//! The events of a world as steps of its parts.

ghost use Rattle.std.specs.Prelude.{◌≡◌, true};
ghost use Rattle.tx_model.specs.Runs.{is_memory};
ghost use Rattle.world_parts.specs.Laws.{IsPossibleByParts, ReadsNoOther, StepsOfPartsAreWhole, WholeStepsAreOfParts, is_of_parts};

use ignite_types::Event;

fn is_want_of_memory(event: &Event) -> bool
    ensures { result ≡ is_memory event.now }
{
    match event {
        Event::Memory(_) => true,
        _ => false,
    }
}

/// Whether the event is a step of parts: each is but a want of memory, of which no worker makes an event.
///
/// At any world of a run, a step of parts is a step of the machine, and one that it names. What it makes of the parts that it
/// touches is what the world has there after it, and no other part changes. Each listed step of the machine is such a step of
/// parts. It is possible by the values of the parts that it touches just where the machine says so, whatever the others are.
pub fn is_of_parts(event: &Event) -> bool
    ensures test { result ≡ is_of_parts event.now }
    ensures whole { StepsOfPartsAreWhole event.now }
    ensures parts { result ≡ true → WholeStepsAreOfParts event.now }
    ensures possible { result ≡ true → IsPossibleByParts event.now }
    ensures no_other { result ≡ true → ReadsNoOther event.now }
{
    !is_want_of_memory(event)
}
