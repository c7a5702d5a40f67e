//! The history of a journal.

ghost use Rattle.std.specs.Prelude.{◌≡◌, IfOk, OnOk};
ghost use Rattle.ignite_types.specs.Names.{key_cmp};
ghost use Rattle.ordered_table.specs.Entries.{at};
ghost use Rattle.tx_model.specs.History as history;

use crate::walk::Walk;
use ignite_types::{Group, Journal, Key, List, Mem, Rec, TopVer, TxId, Value};
use ordered_table::Table;
use std::alloc::Global;

/// A committed transaction: what it read and wrote, each by key. A read has nothing for absent, a write for removed.
#[derive(Debug, PartialEq, Drop)]
pub struct CommitEntry {
    pub tx: TxId,
    pub top: TopVer,
    pub reads: List<(Key, Option<Value>)>,
    pub writes: List<(Key, Option<Value>)>,
}

/// The first read that is not the map's value: the place of its entry, from 0, and the key.
#[derive(Clone, Copy, Debug, PartialEq, Eq)]
pub struct BadRead {
    pub place: usize,
    pub key: Key,
}

/// What the walk of a transaction found, once all records are walked; a call that is not answered is counted where it was done.
pub fn entry_of(alloc: Global, walk: &mut Walk, tx: &TxId) -> Mem<CommitEntry>
    ensures { IfOk result (λ entry. entry ≡ history.entry_from tx.now
        (history.walk_with_open_call tx.now walk.old walk.old.called)) }
{
    walk.count_called(tx)?;
    Ok(CommitEntry {
        tx: *tx,
        top: match walk.top {
            Some(top) => top,
            None => TopVer { major: 0, minor: 0 },
        },
        reads: List::from_slice(alloc, walk.reads.as_slice())?,
        writes: List::from_slice(alloc, walk.writes.as_slice())?,
    })
}

fn footprint_in(alloc: Global, groups: &[Group], tx: &TxId) -> Mem<CommitEntry>
    ensures { IfOk result (λ entry. entry ≡ history.footprint groups.now tx.now) }
{
    let mut walk = Walk::new(alloc);
    walk.walk(tx, groups)?;
    entry_of(alloc, &mut walk, tx)
}

/// What the transaction read and wrote.
pub fn footprint(alloc: Global, journal: &Journal, tx: TxId) -> Mem<CommitEntry>
    ensures { IfOk result (λ entry. entry ≡ history.footprint journal.now.groups tx) }
{
    footprint_in(alloc, journal.groups.as_slice(), &tx)
}

/// The transaction that the record says is committed.
pub fn committed(rec: &Rec) -> Option<TxId>
    ensures { result ≡ history.committed_in rec.now }
{
    match rec {
        Rec::Decide { tx, commit } => { if *commit { Some(*tx) } else { None } }
        _ => None,
    }
}

/// Whether the map's value at the key is the one that was read.
fn is_value(map: &Table<Key, Value>, key: &Key, read: &Option<Value>) -> bool
    ensures { result ≡ history.same_value (at key_cmp map.now key.now) read.now }
{
    match map.get(key) {
        Some(value) => match read {
            Some(read) => value == read,
            None => false,
        },
        None => match read {
            Some(_) => false,
            None => true,
        },
    }
}

/// The first read that is not the map's value.
fn bad_read(map: &Table<Key, Value>, reads: &[(Key, Option<Value>)]) -> Option<Key>
    ensures { result ≡ history.bad_read map.now reads.now }
{
    for (key, read) in reads {
        if !is_value(map, key, read) {
            return Some(*key);
        }
    }
    None
}

fn write(map: &mut Table<Key, Value>, key: &Key, new: &Option<Value>) -> Mem<()>
    ensures { OnOk result (map.new ≡ history.map_with_write map.old key.now new.now) }
{
    match new {
        Some(value) => map.set(*key, *value),
        None => {
            let _old = map.remove(key);
            Ok(())
        }
    }
}

fn write_all(map: &mut Table<Key, Value>, writes: &[(Key, Option<Value>)]) -> Mem<()>
    ensures { OnOk result (map.new ≡ history.map_with_writes map.old writes.now) }
{
    for (key, new) in writes {
        write(map, key, new)?;
    }
    Ok(())
}

/// The map after these commits, done one after the other from the empty map, or the first read that is not the map's
/// value.
pub fn serial(alloc: Global, entries: &[CommitEntry]) -> Mem<Result<List<(Key, Value)>, BadRead>>
    ensures { IfOk result (λ answer. answer ≡ history.serial entries.now) }
{
    let mut map = Table::new(alloc);
    for (place, entry) in entries.iter().enumerate() {
        if let Some(key) = bad_read(&map, entry.reads.as_slice()) {
            return Ok(Err(BadRead { place, key }));
        }
        write_all(&mut map, entry.writes.as_slice())?;
    }
    let list = List::from_slice(alloc, map.as_slice())?;
    Ok(Ok(list))
}
