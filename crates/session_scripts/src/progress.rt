//! How far a session comes in its script.

ghost use Rattle.std.specs.Prelude.{◌≡◌, IfOk, OnOk};
ghost use Rattle.part_model.specs.Script.{advance, advance_past_numbers};

use crate::answers::{item_end, phase_after};
use crate::numbers::number_value;
use crate::ranges::{copied, keep_range, left_for, take_first};
use ignite_types::{Answer, Item, List, Mem};
use part_model::{Phase, Progress, Told};
use std::alloc::Global;

/// Passes over the items that need no command, and tells their numbers.
fn pass_over(items: &[Item], progress: &mut Progress, told: &mut List<Told>) -> Mem<()>
    ensures progress { OnOk result (progress.new ≡ (advance_past_numbers items.now progress.old told.old).progress) }
    ensures told { OnOk result (told.new ≡ (advance_past_numbers items.now progress.old told.old).told) }
{
    for item in items {
        let Some((object, range)) = left_for(item, &progress.ranges) else {
            return Ok(());
        };
        take_first(&mut progress.ranges, &object, &range)?;
        progress.place = progress.place.saturating_add(1);
        progress.phase = Phase::Fresh;
        told.push(Told::Plain(Answer::Found(number_value(range.next))))?;
    }
    Ok(())
}

/// How far a session has come after one more answer of a plain command, and what the items that ended were answered.
pub fn advance_told(
    alloc: Global,
    script: &[Item],
    progress: &Progress,
    answer: &Answer,
) -> Mem<(Progress, List<Told>)>
    ensures progress { IfOk result (λ r. r.0 ≡ (advance script.now progress.now answer.now).progress) }
    ensures told { IfOk result (λ r. r.1 ≡ (advance script.now progress.now answer.now).told) }
{
    let mut next = Progress {
        place: progress.place,
        phase: progress.phase,
        ranges: copied(alloc, &progress.ranges)?,
    };
    let mut told = List::new(alloc);
    let place = progress.place as usize;
    let Some(item) = script.get(place) else {
        return Ok((next, told));
    };
    match item_end(item, &progress.phase, answer) {
        None => next.phase = phase_after(item, &progress.phase, answer),
        Some(end) => {
            keep_range(item, &mut next.ranges, answer)?;
            next.place = progress.place.saturating_add(1);
            next.phase = Phase::Fresh;
            told.push(end)?;
            pass_over(&script[place + 1..], &mut next, &mut told)?;
        }
    }
    Ok((next, told))
}

/// How far a session has come after one more answer of a plain command.
pub fn advance(
    alloc: Global,
    script: &[Item],
    progress: &Progress,
    answer: &Answer,
) -> Mem<Progress>
    ensures { IfOk result (λ next. next ≡ (advance script.now progress.now answer.now).progress) }
{
    let (next, _told) = advance_told(alloc, script, progress, answer)?;
    Ok(next)
}
