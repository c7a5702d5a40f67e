//! The report.

ghost use Rattle.std.specs.Prelude.{◌≡◌, ◌++◌, IfOk, OnOk};
ghost use Rattle.report_text.specs.Report as reports;

use crate::digest::{Digest, digest_of};
use crate::endings::{end_status, write_stalled_part, write_top_line};
use crate::history::{write_history, write_map_of};
use crate::plans::{write_count, write_deadlocks, write_plan};
use crate::sessions::write_sessions;
use crate::traces::write_trace;
use ignite_types::{Journal, Mem, Scenario};
use scen_print::TextOut;
use std::alloc::Global;
use tx_model::{CommitEntry, Outlook};

/// Writes the sessions, the plan and the deadlocks.
fn write_first(
    alloc: Global,
    out: &mut TextOut,
    scenario: &Scenario,
    found: &Digest,
    shown: &Outlook,
) -> Mem<()>
    ensures { OnOk result (out.new ≡ out.old ++ reports.first_parts scenario.now found.now shown.now) }
{
    write_sessions(alloc, out, scenario, found.answers.as_slice(), shown)?;
    write_plan(out, scenario, found.steps.as_slice())?;
    write_deadlocks(out, scenario, found.deadlocks.as_slice())
}

/// Writes the history and the map after it.
fn write_middle(
    alloc: Global,
    out: &mut TextOut,
    scenario: &Scenario,
    found: &Digest,
    shown: &Outlook,
    commits: &[CommitEntry],
) -> Mem<()>
    ensures { OnOk result (out.new ≡ out.old ++ reports.middle_parts scenario.now found.now shown.now commits.now) }
{
    write_history(out, scenario, commits)?;
    write_map_of(
        alloc,
        out,
        scenario,
        shown.events.as_slice(),
        found.top,
        commits,
    )
}

/// Writes the highest version, what the sessions wait for, the trace and the end.
fn write_last(
    out: &mut TextOut,
    journal: &Journal,
    found: &Digest,
    shown: &Outlook,
    trace: bool,
) -> Mem<()>
    ensures { OnOk result (out.new ≡ out.old ++ reports.last_parts journal.now found.now shown.now trace) }
{
    write_top_line(out, &found.top)?;
    write_stalled_part(out, &journal.scenario, shown, journal.end)?;
    write_trace(out, &journal.scenario, journal.groups.as_slice(), trace)?;
    write_count(out, "end", end_status(journal.end))
}

/// The report of a journal with these commits, whose world shows this at its end; the trace if it is asked for.
pub fn report(
    alloc: Global,
    journal: &Journal,
    shown: &Outlook,
    commits: &[CommitEntry],
    trace: bool,
) -> Mem<Vec<u8>>
    ensures { IfOk result (λ bytes. bytes.items ≡ reports.report journal.now shown.now commits.now trace) }
{
    let mut out = TextOut::new(alloc);
    let found = digest_of(alloc, journal.groups.as_slice())?;
    write_first(alloc, &mut out, &journal.scenario, &found, shown)?;
    write_middle(alloc, &mut out, &journal.scenario, &found, shown, commits)?;
    write_last(&mut out, journal, &found, shown, trace)?;
    Ok(out.into_vec())
}
