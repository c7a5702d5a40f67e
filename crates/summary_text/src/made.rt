//! The summary of a run whose scenario was made up.

ghost use Rattle.std.specs.Prelude.{◌≡◌, [], ◌++◌, decimal, pos, IfOk, OnOk};
ghost use Rattle.part_model.specs.Numbers.{number_of};
ghost use Rattle.part_model.specs.Script.{no_progress};
ghost use Rattle.report_text.specs.Sessions as sessions;
ghost use Rattle.summary_text.specs.Summary as summaries;

use ignite_types::{Answer, Command, Item, Journal, Key, List, Mem, Session, Value};
use part_model::Told;
use report_text::{
    Given, all_told, answers_to, digest_of, end_status, shown_map, write_count, write_top_line,
};
use scen_print::TextOut;
use session_scripts::number_of;
use std::alloc::Global;
use tx_model::{CommitEntry, Outlook};

/// How a scenario was made up: so many sessions of so many transactions, by this seed.
#[derive(Clone, Copy, Debug, PartialEq, Eq)]
pub struct Made {
    pub seed: u64,
    pub sessions: u32,
    pub txs: u32,
}

/// Whether the item is a commit command.
fn is_commit(item: &Item) -> bool
    ensures { result ≡ summaries.is_commit_item item.now }
{
    matches!(item, Item::Plain(Command::Commit))
}

/// Whether it was told that its transaction is committed.
fn is_committed(told: &Told) -> bool
    ensures { result ≡ summaries.is_committed_told told.now }
{
    matches!(told, Told::Plain(Answer::Committed))
}

/// What the commit commands among these items were told.
fn commits_told(alloc: Global, script: &[Item], tolds: &[Told]) -> Mem<List<Told>>
    ensures { IfOk result (λ found. found ≡ summaries.commits_told script.now tolds.now) }
{
    let mut found = List::new(alloc);
    for (place, item) in script.iter().enumerate() {
        let Some(told) = tolds.get(place) else {
            return Ok(found);
        };
        if is_commit(item) {
            found.push(*told)?;
        }
    }
    Ok(found)
}

/// What the commit commands of a session were told, which has this number.
fn session_told(alloc: Global, given: &[Given], number: usize, session: &Session) -> Mem<List<Told>>
    ensures { IfOk result (λ found. found ≡ summaries.commits_told session.now.commands
        (sessions.all_told session.now.commands no_progress (sessions.answers_given_to number given.now))) }
{
    let answers = answers_to(alloc, number, given)?;
    let tolds = all_told(alloc, session.commands.as_slice(), answers.as_slice())?;
    commits_told(alloc, session.commands.as_slice(), tolds.as_slice())
}

/// What the commit commands of all sessions were told.
fn sessions_told(alloc: Global, given: &[Given], sessions: &[Session]) -> Mem<List<Told>>
    ensures { IfOk result (λ found. found ≡ summaries.sessions_told given.now 0 sessions.now) }
{
    let mut found = List::new(alloc);
    for (place, session) in sessions.iter().enumerate() {
        found.append(session_told(alloc, given, place + 1, session)?)?;
    }
    Ok(found)
}

/// How many were told that their transaction is committed.
fn committed(tolds: &[Told]) -> usize
    ensures { result ≡ summaries.committed_count tolds.now }
{
    tolds.iter().filter(|told| is_committed(told)).count()
}

/// How many were told something else.
fn failed(tolds: &[Told]) -> usize
    ensures { result ≡ summaries.failed tolds.now }
{
    tolds.iter().filter(|told| !is_committed(told)).count()
}

/// The sum with one number more.
fn with_number(sum: i64, number: Option<i64>) -> i64
    ensures { result ≡ summaries.with_number sum number }
{
    match number {
        Some(number) => sum.saturating_add(number),
        None => sum,
    }
}

/// The sum of the values that are numbers; it stands still at the ends of its type.
fn total(entries: &[(Key, Value)]) -> i64
    ensures { result ≡ summaries.total entries.now }
{
    let mut sum = 0i64;
    for entry in entries {
        sum = with_number(sum, number_of(&entry.1));
    }
    sum
}

/// Writes a word and a number.
fn write_number(out: &mut TextOut, word: &str, number: u64) -> Mem<()>
    ensures { OnOk result (out.new ≡ out.old ++ summaries.number_text word.now number) }
{
    out.text(word)?;
    out.number(number)
}

/// Writes how many sessions and transactions were made.
fn write_sizes(out: &mut TextOut, made: Made) -> Mem<()>
    ensures { OnOk result (out.new ≡ out.old ++ summaries.sizes_text made) }
{
    write_number(out, "made sessions ", u64::from(made.sessions))?;
    write_number(out, " txs ", u64::from(made.txs))
}

/// Writes how the scenario was made.
fn write_made(out: &mut TextOut, made: Made) -> Mem<()>
    ensures { OnOk result (out.new ≡ out.old ++ summaries.made_line made) }
{
    write_sizes(out, made)?;
    write_number(out, " seed ", made.seed)?;
    out.byte(b'\n')
}

/// Writes how many transactions were committed, and how many were not.
fn write_told(out: &mut TextOut, tolds: &[Told]) -> Mem<()>
    ensures { OnOk result (out.new ≡ out.old ++ summaries.summary_told_lines tolds.now) }
{
    write_count(out, "committed", committed(tolds) as u64)?;
    write_count(out, "failed", failed(tolds) as u64)
}

/// Writes the sum of the values that are numbers.
fn write_total(out: &mut TextOut, entries: &[(Key, Value)]) -> Mem<()>
    ensures { OnOk result (out.new ≡ out.old ++ summaries.total_line entries.now) }
{
    out.text("total ")?;
    out.integer(total(entries))?;
    out.byte(b'\n')
}

/// The summary of a journal with these commits, whose scenario was made so and whose world shows this at its end.
pub fn summary(
    alloc: Global,
    journal: &Journal,
    made: Made,
    shown: &Outlook,
    commits: &[CommitEntry],
) -> Mem<Vec<u8>>
    ensures { IfOk result (λ bytes. bytes.items ≡ summaries.summary journal.now made shown.now commits.now) }
{
    let found = digest_of(alloc, journal.groups.as_slice())?;
    let sessions = journal.scenario.sessions.as_slice();
    let tolds = sessions_told(alloc, found.answers.as_slice(), sessions)?;
    let events = shown.events.as_slice();
    let map = shown_map(alloc, &journal.scenario, events, found.top, commits)?;
    let mut out = TextOut::new(alloc);
    write_made(&mut out, made)?;
    write_told(&mut out, tolds.as_slice())?;
    write_total(&mut out, map.as_slice())?;
    write_top_line(&mut out, &found.top)?;
    write_count(&mut out, "end", end_status(journal.end))?;
    Ok(out.into_vec())
}
