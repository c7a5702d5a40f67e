//! The plain command that an item needs next.

ghost use Rattle.std.specs.Prelude.{◌≡◌};
ghost use Rattle.part_model.specs.Script.{command_at, command_of, offer_command, poll_command};

use crate::keys::{head_key, item_key, tail_key};
use ignite_types::{Command, Item, Key, Mode, Value};
use part_model::{Phase, Progress};

fn offer_command(object: &Key, value: &Value, phase: &Phase) -> Command
    ensures { result ≡ offer_command object.now value.now phase.now }
{
    match phase {
        Phase::Fresh => Command::Begin(Mode::Pessimistic, 0),
        Phase::OfferBegun => Command::Add(tail_key(object), 1),
        Phase::OfferNumbered(number) => Command::Put(item_key(object, *number), *value),
        Phase::OfferPut => Command::Commit,
        _ => Command::Rollback,
    }
}

fn poll_command(object: &Key, phase: &Phase) -> Command
    ensures { result ≡ poll_command object.now phase.now }
{
    match phase {
        Phase::Fresh => Command::Begin(Mode::Pessimistic, 0),
        Phase::PollBegun => Command::Get(head_key(object)),
        Phase::PollHead(head) => Command::Get(item_key(object, head.saturating_add(1))),
        Phase::PollEmpty => Command::Commit,
        Phase::PollFound(_, _) => Command::Add(head_key(object), 1),
        Phase::PollCounted(head, _) => Command::Remove(item_key(object, head.saturating_add(1))),
        Phase::PollTaken(_) => Command::Commit,
        _ => Command::Rollback,
    }
}

/// The plain command that an item needs next, having come so far.
pub fn command_of(item: &Item, phase: &Phase) -> Command
    ensures { result ≡ command_of item.now phase.now }
{
    match item {
        Item::Plain(command) => *command,
        Item::Incr(object, amount) => Command::Add(*object, *amount),
        Item::Next(object) => Command::Add(*object, 10),
        Item::Offer(object, value) => offer_command(object, value, phase),
        Item::Poll(object) => poll_command(object, phase),
    }
}

/// The plain command that a session needs next, nothing at its script's end.
pub fn command_at(script: &[Item], progress: &Progress) -> Option<Command>
    ensures { result ≡ command_at script.now progress.now }
{
    match script.get(progress.place as usize) {
        Some(item) => Some(command_of(item, &progress.phase)),
        None => None,
    }
}
