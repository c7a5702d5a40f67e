//! What an answer of a plain command does to the item at hand.

ghost use Rattle.std.specs.Prelude.{◌≡◌};
ghost use Rattle.part_model.specs.Script.{answer_number, first_number, head_after, if_committed, item_end, number_between, offer_after, offer_end, phase_after, phase_or_undone, poll_after, poll_end};

use crate::numbers::{number_of, number_value};
use ignite_types::{Answer, Item};
use part_model::{Phase, Told};

/// The number that was found.
pub fn answer_number(answer: &Answer) -> Option<i64>
    ensures { result ≡ answer_number answer.now }
{
    match answer {
        Answer::Found(value) => number_of(value),
        _ => None,
    }
}

fn number_between(least: u64, most: u64, number: Option<i64>) -> Option<u64>
    ensures { result ≡ number_between least most number }
{
    let number = number?;
    if number < 0 {
        return None;
    }
    let number = number as u64;
    if least <= number && number <= most {
        Some(number)
    } else {
        None
    }
}

fn offer_after(phase: &Phase, answer: &Answer) -> Option<Phase>
    ensures { result ≡ offer_after phase.now answer.now }
{
    match phase {
        Phase::Fresh => match answer {
            Answer::Done => Some(Phase::OfferBegun),
            _ => None,
        },
        Phase::OfferBegun => match number_between(1, 999999, answer_number(answer)) {
            Some(number) => Some(Phase::OfferNumbered(number)),
            None => None,
        },
        Phase::OfferNumbered(_) => match answer {
            Answer::Done => Some(Phase::OfferPut),
            _ => None,
        },
        _ => None,
    }
}

/// How a poll goes on after the number of the last item taken was read.
fn head_after(answer: &Answer) -> Option<Phase>
    ensures { result ≡ head_after answer.now }
{
    match answer {
        Answer::Absent => Some(Phase::PollHead(0)),
        _ => match number_between(0, 999998, answer_number(answer)) {
            Some(number) => Some(Phase::PollHead(number)),
            None => None,
        },
    }
}

fn poll_after(phase: &Phase, answer: &Answer) -> Option<Phase>
    ensures { result ≡ poll_after phase.now answer.now }
{
    match phase {
        Phase::Fresh => match answer {
            Answer::Done => Some(Phase::PollBegun),
            _ => None,
        },
        Phase::PollBegun => head_after(answer),
        Phase::PollHead(head) => match answer {
            Answer::Absent => Some(Phase::PollEmpty),
            Answer::Found(value) => Some(Phase::PollFound(*head, *value)),
            _ => None,
        },
        Phase::PollFound(head, value) => match answer_number(answer) {
            Some(_) => Some(Phase::PollCounted(*head, *value)),
            None => None,
        },
        Phase::PollCounted(_, value) => match answer {
            Answer::Done => Some(Phase::PollTaken(*value)),
            _ => None,
        },
        _ => None,
    }
}

fn or_undone(answer: &Answer, next: &Option<Phase>) -> Phase
    ensures { result ≡ phase_or_undone answer.now next.now }
{
    match next {
        Some(next) => *next,
        None => Phase::Undone(*answer),
    }
}

/// How far an item has come after an answer that does not end it.
pub fn phase_after(item: &Item, phase: &Phase, answer: &Answer) -> Phase
    ensures { result ≡ phase_after item.now phase.now answer.now }
{
    match item {
        Item::Offer(_, _) => or_undone(answer, &offer_after(phase, answer)),
        Item::Poll(_) => or_undone(answer, &poll_after(phase, answer)),
        _ => Phase::Fresh,
    }
}

fn if_committed(answer: &Answer, told: &Told) -> Told
    ensures { result ≡ if_committed answer.now told.now }
{
    match answer {
        Answer::Committed => *told,
        _ => Told::Plain(*answer),
    }
}

/// The first of ten numbers, of which the sum is the last.
fn first_number(answer: &Answer) -> Answer
    ensures { result ≡ first_number answer.now (answer_number answer.now) }
{
    match answer_number(answer) {
        Some(sum) if 10 <= sum => Answer::Found(number_value(sum - 9)),
        _ => *answer,
    }
}

fn offer_end(phase: &Phase, answer: &Answer) -> Option<Told>
    ensures { result ≡ offer_end phase.now answer.now }
{
    match phase {
        Phase::OfferPut => Some(if_committed(answer, &Told::Plain(Answer::Done))),
        Phase::Undone(why) => Some(Told::Plain(*why)),
        _ => None,
    }
}

fn poll_end(phase: &Phase, answer: &Answer) -> Option<Told>
    ensures { result ≡ poll_end phase.now answer.now }
{
    match phase {
        Phase::PollEmpty => Some(if_committed(answer, &Told::Empty)),
        Phase::PollTaken(value) => Some(if_committed(answer, &Told::Plain(Answer::Found(*value)))),
        Phase::Undone(why) => Some(Told::Plain(*why)),
        _ => None,
    }
}

/// What an item is answered, where this answer of a plain command ends it.
pub fn item_end(item: &Item, phase: &Phase, answer: &Answer) -> Option<Told>
    ensures { result ≡ item_end item.now phase.now answer.now }
{
    match item {
        Item::Plain(_) => Some(Told::Plain(*answer)),
        Item::Incr(_, _) => Some(Told::Plain(*answer)),
        Item::Next(_) => Some(Told::Plain(first_number(answer))),
        Item::Offer(_, _) => offer_end(phase, answer),
        Item::Poll(_) => poll_end(phase, answer),
    }
}
