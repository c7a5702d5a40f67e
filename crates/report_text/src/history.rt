//! The history and the map after it.

ghost use Rattle.std.specs.Prelude.{◌≡◌, ◌+◌, [], ◌∷◌, ◌++◌, decimal, IfOk, OnOk};
ghost use Rattle.tx_model.specs.History.{map_after_commits, map_with_write, map_with_writes};
ghost use Rattle.report_text.specs.Histories.{caches_of, change_text, changes_text, commit_name, footprint_text, history_line, history_lines, history_part, is_shown, map_line, map_lines, map_of_commits, map_part, more_changes, shown_entries, value_text};

use crate::answers::{write_top, write_tx};
use crate::plans::write_count;
use discovery_order::{change_running, first_top, running_from, version_after};
use ignite_types::{Key, List, Mem, Scenario, TopVer, TopoEvent, Value};
use ordered_set::Set;
use ordered_table::Table;
use scen_print::{TextOut, write_key};
use std::alloc::Global;
use tx_model::CommitEntry;

/// Writes a value, or `~` for an absent or a removed one.
fn write_value(out: &mut TextOut, value: &Option<Value>) -> Mem<()>
    ensures { OnOk result (out.new ≡ out.old ++ value_text value.now) }
{
    match value {
        Some(value) => out.bytes(value.bytes()),
        None => out.text("~"),
    }
}

/// Writes a key and what was read or written there.
fn write_change(out: &mut TextOut, scenario: &Scenario, change: &(Key, Option<Value>)) -> Mem<()>
    ensures { OnOk result (out.new ≡ out.old ++ change_text scenario.now change.now) }
{
    write_key(out, scenario, &change.0)?;
    out.byte(b'=')?;
    write_value(out, &change.1)
}

/// Writes the changes after the first, each behind a comma.
fn write_more(out: &mut TextOut, scenario: &Scenario, changes: &[(Key, Option<Value>)]) -> Mem<()>
    ensures { OnOk result (out.new ≡ out.old ++ more_changes scenario.now changes.now) }
{
    for change in changes {
        out.byte(b',')?;
        write_change(out, scenario, change)?;
    }
    Ok(())
}

/// Writes the changes joined by commas.
fn write_changes(
    out: &mut TextOut,
    scenario: &Scenario,
    changes: &[(Key, Option<Value>)],
) -> Mem<()>
    ensures { OnOk result (out.new ≡ out.old ++ changes_text scenario.now changes.now) }
{
    match changes {
        [] => out.text("-"),
        [first, more @ ..] => {
            write_change(out, scenario, first)?;
            write_more(out, scenario, more)
        }
    }
}

/// Writes a commit's transaction and its version.
fn write_commit(out: &mut TextOut, scenario: &Scenario, entry: &CommitEntry) -> Mem<()>
    ensures { OnOk result (out.new ≡ out.old ++ commit_name scenario.now entry.now) }
{
    write_tx(out, scenario, &entry.tx)?;
    out.byte(b' ')?;
    write_top(out, &entry.top)
}

/// Writes a commit's reads and writes.
fn write_footprint(out: &mut TextOut, scenario: &Scenario, entry: &CommitEntry) -> Mem<()>
    ensures { OnOk result (out.new ≡ out.old ++ footprint_text scenario.now entry.now) }
{
    out.text(" reads ")?;
    write_changes(out, scenario, entry.reads.as_slice())?;
    out.text(" writes ")?;
    write_changes(out, scenario, entry.writes.as_slice())
}

/// Writes the line of a commit, the first of them having number 1.
fn write_history_line(
    out: &mut TextOut,
    scenario: &Scenario,
    number: u64,
    entry: &CommitEntry,
) -> Mem<()>
    ensures { OnOk result (out.new ≡ out.old ++ history_line scenario.now number entry.now) }
{
    out.number(number)?;
    out.byte(b' ')?;
    write_commit(out, scenario, entry)?;
    write_footprint(out, scenario, entry)?;
    out.byte(b'\n')
}

/// Writes the lines of the commits.
fn write_history_lines(out: &mut TextOut, scenario: &Scenario, commits: &[CommitEntry]) -> Mem<()>
    ensures { OnOk result (out.new ≡ out.old ++ history_lines scenario.now 0 commits.now) }
{
    for (place, entry) in commits.iter().enumerate() {
        write_history_line(out, scenario, place as u64 + 1, entry)?;
    }
    Ok(())
}

/// Writes the history.
pub fn write_history(out: &mut TextOut, scenario: &Scenario, commits: &[CommitEntry]) -> Mem<()>
    ensures { OnOk result (out.new ≡ out.old ++ history_part scenario.now commits.now) }
{
    write_count(out, "history", commits.len() as u64)?;
    write_history_lines(out, scenario, commits)
}

/// Puts a value at the key, or takes the key out.
fn write_one(map: &mut Table<Key, Value>, key: &Key, value: &Option<Value>) -> Mem<()>
    ensures { OnOk result (map.new ≡ map_with_write map.old key.now value.now) }
{
    match value {
        Some(value) => map.set(*key, *value),
        None => {
            let _old = map.remove(key);
            Ok(())
        }
    }
}

/// Does the writes of a commit.
fn write_all(map: &mut Table<Key, Value>, writes: &[(Key, Option<Value>)]) -> Mem<()>
    ensures { OnOk result (map.new ≡ map_with_writes map.old writes.now) }
{
    for write in writes {
        write_one(map, &write.0, &write.1)?;
    }
    Ok(())
}

/// The map that the commits leave, of all caches.
pub fn map_after(alloc: Global, commits: &[CommitEntry]) -> Mem<Table<Key, Value>>
    ensures { IfOk result (λ map. map ≡ map_after_commits [] commits.now) }
{
    let mut map = Table::new(alloc);
    for entry in commits {
        write_all(&mut map, entry.writes.as_slice())?;
    }
    Ok(map)
}

/// Whether the entry's cache is one of these.
fn is_shown(running: &[u32], entry: &(Key, Value)) -> bool
    ensures { result ≡ is_shown running.now entry.now }
{
    let cache = entry.0.cache();
    running.iter().any(|one| cache == *one)
}

/// Writes an entry of the map, as a line.
fn write_map_line(out: &mut TextOut, scenario: &Scenario, entry: &(Key, Value)) -> Mem<()>
    ensures { OnOk result (out.new ≡ out.old ++ map_line scenario.now entry.now) }
{
    write_key(out, scenario, &entry.0)?;
    out.byte(b'=')?;
    out.bytes(entry.1.bytes())?;
    out.byte(b'\n')
}

/// Writes the lines of the map's entries.
fn write_map_lines(out: &mut TextOut, scenario: &Scenario, entries: &[(Key, Value)]) -> Mem<()>
    ensures { OnOk result (out.new ≡ out.old ++ map_lines scenario.now entries.now) }
{
    for entry in entries {
        write_map_line(out, scenario, entry)?;
    }
    Ok(())
}

/// The caches that run in a version.
fn caches_of(alloc: Global, scenario: &Scenario, events: &[TopoEvent], top: TopVer) -> Mem<Set<u32>>
    ensures { IfOk result (λ caches. caches ≡ caches_of scenario.now events.now top) }
{
    let mut running = Set::from_list(running_from(alloc, scenario.caches.as_slice())?);
    let mut version = first_top();
    for event in events {
        version = version_after(version, event);
        if top < version {
            return Ok(running);
        }
        change_running(&mut running, event)?;
    }
    Ok(running)
}

/// The entries of these caches.
fn shown_entries(
    alloc: Global,
    running: &[u32],
    entries: &[(Key, Value)],
) -> Mem<List<(Key, Value)>>
    ensures { IfOk result (λ shown. shown ≡ shown_entries running.now entries.now) }
{
    let mut shown = List::new(alloc);
    for entry in entries {
        if is_shown(running, entry) {
            shown.push(*entry)?;
        }
    }
    Ok(shown)
}

/// Writes a map.
fn write_map(out: &mut TextOut, scenario: &Scenario, entries: &[(Key, Value)]) -> Mem<()>
    ensures { OnOk result (out.new ≡ out.old ++ map_part scenario.now entries.now) }
{
    write_count(out, "map", entries.len() as u64)?;
    write_map_lines(out, scenario, entries)
}

/// The map that the commits leave, of the caches that these topology events leave running in this version.
pub fn shown_map(
    alloc: Global,
    scenario: &Scenario,
    events: &[TopoEvent],
    top: TopVer,
    commits: &[CommitEntry],
) -> Mem<List<(Key, Value)>>
    ensures { IfOk result (λ shown. shown ≡ shown_entries (caches_of scenario.now events.now top)
        (map_after_commits [] commits.now)) }
{
    let running = caches_of(alloc, scenario, events, top)?;
    let map = map_after(alloc, commits)?;
    shown_entries(alloc, running.as_slice(), map.as_slice())
}

/// Writes that map.
pub fn write_map_of(
    alloc: Global,
    out: &mut TextOut,
    scenario: &Scenario,
    events: &[TopoEvent],
    top: TopVer,
    commits: &[CommitEntry],
) -> Mem<()>
    ensures { OnOk result (out.new ≡ out.old ++ map_of_commits scenario.now (caches_of scenario.now events.now top) commits.now) }
{
    let shown = shown_map(alloc, scenario, events, top, commits)?;
    write_map(out, scenario, shown.as_slice())
}
