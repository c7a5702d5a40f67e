//! What the sessions were answered.

ghost use Rattle.std.specs.Prelude.{◌≡◌, ◌+◌, [], ◌++◌, slice_get, IfOk, OnOk};
ghost use Rattle.std.specs.Option.{option_copied};
ghost use Rattle.part_model.specs.Script.{advance, no_progress};
ghost use Rattle.report_text.specs.Sessions as sessions;

use crate::answers::{write_node, write_told};
use crate::digest::Given;
use ignite_types::{Answer, Item, List, Mem, Scenario, Session};
use ordered_table::Table;
use part_model::{Phase, Progress, Told};
use scen_print::{TextOut, write_item};
use session_scripts::advance_told;
use std::alloc::Global;
use tx_model::{Outlook, Standing};

/// The answers to the session of this number.
pub fn answers_to(alloc: Global, number: usize, all: &[Given]) -> Mem<List<Answer>>
    ensures { IfOk result (λ answers. answers ≡ sessions.answers_given_to number all.now) }
{
    let mut answers = List::new(alloc);
    for given in all {
        if given.session as usize == number {
            answers.push(given.answer)?;
        }
    }
    Ok(answers)
}

/// How far the session has come after an answer, and what it tells of the item at hand; past the script it is that
/// of the close.
fn told_by(
    alloc: Global,
    script: &[Item],
    progress: &Progress,
    answer: &Answer,
) -> Mem<(Progress, List<Told>)>
    ensures progress { IfOk result (λ r. r.0 ≡ (advance script.now progress.now answer.now).progress) }
    ensures told { IfOk result (λ r. r.1 ≡ sessions.told_by script.now progress.now answer.now
        (slice_get script.now progress.now.place)) }
{
    let (next, mut told) = advance_told(alloc, script, progress, answer)?;
    if script.get(progress.place as usize).is_none() {
        told.push(Told::Plain(*answer))?;
    }
    Ok((next, told))
}

/// What the items, and the close behind them, were answered.
pub fn all_told(alloc: Global, script: &[Item], answers: &[Answer]) -> Mem<List<Told>>
    ensures { IfOk result (λ all. all ≡ sessions.all_told script.now no_progress answers.now) }
{
    let mut all = List::new(alloc);
    let mut progress = Progress {
        place: 0,
        phase: Phase::Fresh,
        ranges: Table::new(alloc),
    };
    for answer in answers {
        let (next, told) = told_by(alloc, script, &progress, answer)?;
        all.append(told)?;
        progress = next;
    }
    Ok(all)
}

/// Writes an item of a script, or the close behind its end.
fn write_answered(out: &mut TextOut, scenario: &Scenario, item: Option<&Item>) -> Mem<()>
    ensures { OnOk result (out.new ≡ out.old ++ sessions.answered_item scenario.now (option_copied item.entry)) }
{
    match item {
        Some(item) => write_item(out, scenario, item),
        None => out.text("close"),
    }
}

/// Writes the line of what an item was answered, the first of them having number 1.
fn write_told_line(
    out: &mut TextOut,
    scenario: &Scenario,
    number: u64,
    item: Option<&Item>,
    told: &Told,
) -> Mem<()>
    ensures { OnOk result (out.new ≡ out.old ++ sessions.told_line scenario.now number (option_copied item.entry) told.now) }
{
    out.number(number)?;
    out.byte(b' ')?;
    write_answered(out, scenario, item)?;
    out.text(": ")?;
    write_told(out, scenario, told)?;
    out.byte(b'\n')
}

/// Writes the lines of what the items were answered.
fn write_told_lines(
    out: &mut TextOut,
    scenario: &Scenario,
    session: &Session,
    all: &[Told],
) -> Mem<()>
    ensures { OnOk result (out.new ≡ out.old ++ sessions.session_told_lines scenario.now session.now.commands 0 all.now) }
{
    for (place, told) in all.iter().enumerate() {
        let item = session.commands.get(place);
        write_told_line(out, scenario, place as u64 + 1, item, told)?;
    }
    Ok(())
}

/// Writes a session's name and node, as a line.
fn write_session_line(out: &mut TextOut, session: &Session) -> Mem<()>
    ensures { OnOk result (out.new ≡ out.old ++ sessions.session_head_line session.now) }
{
    out.text("session ")?;
    out.bytes(session.name.as_slice())?;
    write_node(out, " on ", session.node)?;
    out.byte(b'\n')
}

/// Writes with which node the session was lost, if it was.
fn write_lost(out: &mut TextOut, stands: Option<&Standing>) -> Mem<()>
    ensures { OnOk result (out.new ≡ out.old ++ sessions.lost_line (option_copied stands.entry)) }
{
    match stands {
        Some(Standing::Lost(node)) => {
            write_node(out, "lost: node ", *node)?;
            out.byte(b'\n')
        }
        _ => Ok(()),
    }
}

/// Writes the line of a session, and those of its answers and its loss.
fn write_session(
    alloc: Global,
    out: &mut TextOut,
    scenario: &Scenario,
    session: &Session,
    answers: &[Answer],
    stands: Option<&Standing>,
) -> Mem<()>
    ensures { OnOk result (out.new ≡ out.old ++ sessions.session_lines scenario.now session.now answers.now
        (option_copied stands.entry)) }
{
    let all = all_told(alloc, session.commands.as_slice(), answers)?;
    write_session_line(out, session)?;
    write_told_lines(out, scenario, session, all.as_slice())?;
    write_lost(out, stands)
}

/// Writes the lines of all of the sessions.
pub fn write_sessions(
    alloc: Global,
    out: &mut TextOut,
    scenario: &Scenario,
    given: &[Given],
    shown: &Outlook,
) -> Mem<()>
    ensures { OnOk result (out.new ≡ out.old ++ sessions.sessions_lines scenario.now given.now shown.now.standings 0
        scenario.now.sessions) }
{
    for (place, session) in scenario.sessions.as_slice().iter().enumerate() {
        let answers = answers_to(alloc, place + 1, given)?;
        let stands = shown.standings.get(place);
        write_session(alloc, out, scenario, session, answers.as_slice(), stands)?;
    }
    Ok(())
}
