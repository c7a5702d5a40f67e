//! Laws of scenario texts: what is printed of a scenario is read as that scenario.
#![tactic(auto)]

ghost use Rattle.std.specs.Prelude.{◌≡◌, ◌<◌, length, IfOk, IsTrue, MatchOption};
ghost use Rattle.ignite_types.specs.Good.{good};
ghost use Rattle.scen_print.specs.Printing.{scenario_text};
ghost use Rattle.text_laws.specs.RoundTrip.{ReadsBack};

mod longs;

use ignite_types::limits::TEXT_BYTES;
use ignite_types::{Mem, NoMemory, Scenario};
pub use longs::integers_are_long;
use scen_print::print_scenario;
use scen_text::{ReadFault, read_scenario};
use std::alloc::Global;

/// The canonical text of each good scenario, if it is no longer than a text may be, is read as that scenario.
pub fn printed_is_read_back()
    ensures { ReadsBack }
{}

/// Prints a good scenario and reads the text: that scenario, or none where the text is longer than a text may be.
pub fn read_printed(alloc: Global, scenario: &Scenario) -> Mem<Option<Scenario>>
    requires { IsTrue (good scenario.now) }
    ensures { IfOk result (λ read. MatchOption read (TEXT_BYTES < length (scenario_text scenario.now))
        (λ again. again ≡ scenario.now)) }
{
    integers_are_long(scenario);
    let text = print_scenario(alloc, scenario)?;
    if text.len() > TEXT_BYTES {
        return Ok(None);
    }
    match read_scenario(alloc, text.as_slice()) {
        Ok(again) => Ok(Some(again)),
        Err(ReadFault::Refused { line: _, cause: _ }) => unreachable!(),
        Err(ReadFault::NoMemory) => Err(NoMemory),
    }
}

#[cfg(test)]
mod tests;
