//! From a JSON value to a history.

ghost use Rattle.std.specs.Prelude.{◌≡◌, [], Err, None, Some, IfOk, is_some, option_map};
ghost use Rattle.std.specs.List.{list_all};
ghost use Rattle.serde_json.specs.Find.{as_array, as_str, get};
ghost use Rattle.serde_json.specs.View.{items_view, view};
ghost use Rattle.audit_core.specs.Shape.{ascend_from, both_items, change_of, changes_of, each, printed_entry_of, has_members, history_of, long_text, printed_map_of, value_or_null, version_at};
ghost use Rattle.audit_core.specs.declared.shape.ShapeFault.TheVariants.{NoMemory as WantOfMemory};

use crate::history::{Change, History, HistoryEntry};
use crate::text::LongText;
use crate::version::version_of;
use ignite_types::{List, NoMemory, TopVer};
use serde_json::Value;
use std::alloc::{AllocError, Global};

/// Why no history was made of a JSON value.
#[derive(Clone, Copy, Debug, PartialEq, Eq)]
pub enum ShapeFault {
    /// It is none.
    NoShape,
    /// Memory ran out.
    NoMemory,
}

impl From<NoMemory> for ShapeFault {
    ghost from_gives = { λ _ fault. fault ≡ WantOfMemory };

    fn from(_: NoMemory) -> ShapeFault {
        ShapeFault::NoMemory
    }
}

impl From<AllocError> for ShapeFault {
    ghost from_gives = { λ _ fault. fault ≡ WantOfMemory };

    fn from(_: AllocError) -> ShapeFault {
        ShapeFault::NoMemory
    }
}

/// What is read of a part of a value.
type Shaped<T> = Result<T, ShapeFault>;

/// Whether the value is an object with so many members.
fn has_members(value: &Value, count: usize) -> bool
    ensures { result ≡ has_members count (view value.now) }
{
    match value.as_object() {
        Some(members) => members.len() == count,
        None => false,
    }
}

/// The items of a list.
fn items_in(value: &Value) -> Shaped<&[Value]>
    ensures ok { IfOk result (λ items. as_array (view value.now) ≡ Some (items_view items.now)) }
    ensures err { result ≡ Err ShapeFault.NoShape → as_array (view value.now) ≡ None }
{
    match value.as_array() {
        Some(items) => Ok(items.as_slice()),
        None => Err(ShapeFault::NoShape),
    }
}

/// A text with at least one byte.
fn long_text(alloc: Global, value: &Value) -> Shaped<LongText>
    ensures ok { IfOk result (λ text. long_text (view value.now) ≡ Some text) }
    ensures err { result ≡ Err ShapeFault.NoShape → long_text (view value.now) ≡ None }
{
    match value.as_str() {
        Some(text) if !text.is_empty() => Ok(LongText::new(alloc, text.as_bytes())?),
        _ => Err(ShapeFault::NoShape),
    }
}

/// A text, or null.
fn value_or_null(alloc: Global, value: &Value) -> Shaped<Option<LongText>>
    ensures ok { IfOk result (λ read. value_or_null (view value.now) ≡ Some read) }
    ensures err { result ≡ Err ShapeFault.NoShape → value_or_null (view value.now) ≡ None }
{
    match value {
        Value::Null => Ok(None),
        Value::String(text) => Ok(Some(LongText::new(alloc, text.as_bytes())?)),
        _ => Err(ShapeFault::NoShape),
    }
}

/// The two items of a list that has just two.
fn both_items(items: &[Value]) -> Option<(&Value, &Value)>
    ensures { option_map (λ p. (view p.0.now, view p.1.now)) result ≡ both_items (items_view items.now) }
{
    if items.len() == 2 {
        Some((&items[0], &items[1]))
    } else {
        None
    }
}

/// A pair of a key and its value.
fn change_in(alloc: Global, value: &Value) -> Shaped<Change>
    ensures ok { IfOk result (λ change. change_of (view value.now) ≡ Some change) }
    ensures err { result ≡ Err ShapeFault.NoShape → change_of (view value.now) ≡ None }
{
    match both_items(items_in(value)?) {
        Some((key, value)) => {
            let key = long_text(alloc, key)?;
            let value = value_or_null(alloc, value)?;
            Ok((key, value))
        }
        None => Err(ShapeFault::NoShape),
    }
}

/// The changes of a list, in its order.
fn each_change(alloc: Global, items: &[Value]) -> Shaped<List<Change>>
    ensures ok { IfOk result (λ changes. each change_of (items_view items.now) ≡ Some changes) }
    ensures err { result ≡ Err ShapeFault.NoShape → each change_of (items_view items.now) ≡ None }
{
    let mut changes = List::with_capacity(alloc, items.len())?;
    for item in items {
        let change = change_in(alloc, item)?;
        changes.push(change)?;
    }
    Ok(changes)
}

/// Whether the keys strictly ascend by their bytes.
fn ascend(changes: &[Change]) -> bool
    ensures { result ≡ ascend_from [] changes.now }
{
    let mut last: &[u8] = &[];
    for change in changes {
        let key = change.0.as_slice();
        if !last.cmp(key).is_lt() {
            return false;
        }
        last = key;
    }
    true
}

/// Changes whose keys strictly ascend by their bytes.
fn changes_in(alloc: Global, value: &Value) -> Shaped<List<Change>>
    ensures ok { IfOk result (λ changes. changes_of (view value.now) ≡ Some changes) }
    ensures err { result ≡ Err ShapeFault.NoShape → changes_of (view value.now) ≡ None }
{
    let items = items_in(value)?;
    let changes = each_change(alloc, items)?;
    if ascend(changes.as_slice()) {
        Ok(changes)
    } else {
        Err(ShapeFault::NoShape)
    }
}

/// Whether no value is null.
fn all_present(changes: &[Change]) -> bool
    ensures { result ≡ list_all (λ c. is_some c.1) changes.now }
{
    changes.iter().all(|change| change.1.is_some())
}

/// The pairs of a map, of which none is null.
fn map_in(alloc: Global, value: &Value) -> Shaped<List<Change>>
    ensures ok { IfOk result (λ map. printed_map_of (view value.now) ≡ Some map) }
    ensures err { result ≡ Err ShapeFault.NoShape → printed_map_of (view value.now) ≡ None }
{
    let changes = changes_in(alloc, value)?;
    if all_present(changes.as_slice()) {
        Ok(changes)
    } else {
        Err(ShapeFault::NoShape)
    }
}

/// The member of an object with this name.
fn member<'v>(value: &'v Value, name: &str) -> Shaped<&'v Value>
    ensures ok { IfOk result (λ found. get name.now (view value.now) ≡ Some (view found.now)) }
    ensures err { result ≡ Err ShapeFault.NoShape → get name.now (view value.now) ≡ None }
{
    match value.get(name) {
        Some(found) => Ok(found),
        None => Err(ShapeFault::NoShape),
    }
}

/// The version that a text value spells.
fn version_in(value: &Value) -> Shaped<TopVer>
    ensures ok { IfOk result (λ top. version_at (view value.now) ≡ Some top) }
    ensures err { result ≡ Err ShapeFault.NoShape → version_at (view value.now) ≡ None }
{
    match value.as_str() {
        Some(text) => version_of(text).ok_or(ShapeFault::NoShape),
        None => Err(ShapeFault::NoShape),
    }
}

/// An entry: an object with just its four members.
fn entry_in(alloc: Global, value: &Value) -> Shaped<HistoryEntry>
    ensures ok { IfOk result (λ entry. printed_entry_of (view value.now) ≡ Some entry) }
    ensures err { result ≡ Err ShapeFault.NoShape → printed_entry_of (view value.now) ≡ None }
{
    let reads = changes_in(alloc, member(value, "reads")?)?;
    let top = version_in(member(value, "top")?)?;
    let tx = long_text(alloc, member(value, "tx")?)?;
    let writes = changes_in(alloc, member(value, "writes")?)?;
    if has_members(value, 4) {
        Ok(HistoryEntry {
            reads,
            top,
            tx,
            writes,
        })
    } else {
        Err(ShapeFault::NoShape)
    }
}

/// The entries of a list, in its order.
fn each_entry(alloc: Global, items: &[Value]) -> Shaped<List<HistoryEntry>>
    ensures ok { IfOk result (λ entries. each printed_entry_of (items_view items.now) ≡ Some entries) }
    ensures err { result ≡ Err ShapeFault.NoShape → each printed_entry_of (items_view items.now) ≡ None }
{
    let mut entries = List::with_capacity(alloc, items.len())?;
    for item in items {
        let entry = entry_in(alloc, item)?;
        entries.push(entry)?;
    }
    Ok(entries)
}

/// The history that a JSON value is: an object with just its two members.
pub fn history_in(alloc: Global, value: &Value) -> Shaped<History>
    ensures ok { IfOk result (λ history. history_of (view value.now) ≡ Some history) }
    ensures err { result ≡ Err ShapeFault.NoShape → history_of (view value.now) ≡ None }
{
    let items = items_in(member(value, "history")?)?;
    let entries = each_entry(alloc, items)?;
    let map = map_in(alloc, member(value, "map")?)?;
    if has_members(value, 2) {
        Ok(History { entries, map })
    } else {
        Err(ShapeFault::NoShape)
    }
}
