//! The integers of a scenario that a program holds have 64 bits.

ghost use Rattle.std.specs.Prelude.{IsTrue};
ghost use Rattle.std.specs.List.{list_all};
ghost use Rattle.text_laws.specs.RoundTrip.{is_long, has_long, has_longs};

use ignite_types::{Command, Item, Scenario};

/// Each integer has, as its type says.
fn is_long(number: i64)
    ensures { IsTrue (is_long number) }
{}

/// The integer of an item has.
fn has_long(item: &Item)
    ensures { IsTrue (has_long item.now) }
{
    match item {
        Item::Plain(Command::Add(_, number)) => is_long(*number),
        Item::Incr(_, number) => is_long(*number),
        _ => {}
    }
}

/// Those of items have.
fn have_longs(items: &[Item])
    ensures { IsTrue (list_all has_long items.now) }
{
    for item in items {
        has_long(item);
    }
}

/// Those of a scenario have.
pub fn integers_are_long(scenario: &Scenario)
    ensures { IsTrue (has_longs scenario.now) }
{
    for session in scenario.sessions.as_slice() {
        have_longs(session.commands.as_slice());
    }
}
