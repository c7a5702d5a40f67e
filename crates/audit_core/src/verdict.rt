//! The verdict on a history.

ghost use Rattle.std.specs.Prelude.{◌≡◌, IfOk};
ghost use Rattle.audit_core.specs.Verdict.{least_difference, verdict_of_history};

use crate::history::{Change, History};
use crate::ledger::{Ledger, equal_values};
use crate::text::LongText;
use ignite_types::Mem;
use std::alloc::Global;
use std::cmp::Ordering;

/// What is wrong with an entry.
#[derive(Debug, Drop)]
pub enum EntryFault {
    /// The name came before.
    Twice,
    /// The version is lower than the one before it.
    VersionFalls,
    /// This is the first key whose read is not the map's value.
    Read(LongText),
}

/// What there is to say of a JSON value.
#[derive(Debug, Drop)]
pub enum Finding {
    /// It is no history.
    NoShape,
    /// The entry at this place, from 1, has the first fault.
    Entry(usize, EntryFault),
    /// The map after the entries is not the one that is given: this is the least key on which they differ.
    Map(LongText),
    /// It is one serial history of a plain map, with so many entries.
    Yes(usize),
}

/// The least key on which the entries of a map and the given ones differ.
fn least_difference(
    alloc: Global,
    entries: &[(LongText, LongText)],
    given: &[Change],
) -> Mem<Option<LongText>>
    ensures { IfOk result (λ key. key ≡ least_difference entries.now given.now) }
{
    for (place, change) in given.iter().enumerate() {
        match entries.get(place) {
            None => return Ok(Some(change.0.copy(alloc)?)),
            Some(entry) => match entry.0.cmp(&change.0) {
                Ordering::Less => return Ok(Some(entry.0.copy(alloc)?)),
                Ordering::Greater => return Ok(Some(change.0.copy(alloc)?)),
                Ordering::Equal => {
                    if !equal_values(Some(&entry.1), change.1.as_ref()) {
                        return Ok(Some(entry.0.copy(alloc)?));
                    }
                }
            },
        }
    }
    match entries.get(given.len()) {
        Some(entry) => Ok(Some(entry.0.copy(alloc)?)),
        None => Ok(None),
    }
}

/// Whether the history is one serial history of a plain map that ends as the given map, and else the first fault.
pub fn verdict_on(alloc: Global, history: &History) -> Mem<Finding>
    ensures { IfOk result (λ finding. finding ≡ verdict_of_history history.now) }
{
    let mut ledger = Ledger::new(alloc);
    for (place, entry) in history.entries.as_slice().iter().enumerate() {
        if let Some(fault) = ledger.fault_of(alloc, entry)? {
            return Ok(Finding::Entry(place + 1, fault));
        }
        ledger.take(alloc, entry)?;
    }
    let entries = ledger.map.into_entries()?;
    match least_difference(alloc, entries.as_slice(), history.map.as_slice())? {
        Some(key) => Ok(Finding::Map(key)),
        None => Ok(Finding::Yes(history.entries.len())),
    }
}
