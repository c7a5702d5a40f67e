//! The history as JSON.

ghost use Rattle.std.specs.Prelude.{◌≡◌, false, [], ◌∷◌, ◌++◌, string_bytes, IfOk, OnOk};
ghost use Rattle.report_text.specs.Answers as names;
ghost use Rattle.scen_print.specs.Items.{key_text};
ghost use Rattle.serde_json.specs.Data.{array, put, string};
ghost use Rattle.serde_json.specs.View.{members_view, view};
ghost use Rattle.serde_json.specs.Written.{compact_text, has_float};
ghost use Rattle.summary_text.specs.Json as json;
ghost use Rattle.tx_model.specs.History as history;

use ignite_types::{Key, List, Mem, Scenario, TopVer, TxId, Value as Bytes};
use report_text::{map_after, write_top, write_tx};
use scen_print::{TextOut, write_key};
use serde_json::{Map, Value};
use std::alloc::Global;
use tx_model::CommitEntry;

/// The text whose characters have the bytes as their numbers.
fn text_of(alloc: Global, bytes: &[u8]) -> Mem<String>
    ensures { IfOk result (λ text. string_bytes text ≡ json.characters bytes.now) }
{
    let mut text = String::new(alloc);
    for byte in bytes {
        text.push(char::from(*byte))?;
    }
    Ok(text)
}

/// A text of these bytes, as JSON.
fn text_json(alloc: Global, bytes: &[u8]) -> Mem<Value>
    ensures { IfOk result (λ value. view value ≡ string (json.characters bytes.now)) }
{
    Ok(Value::String(text_of(alloc, bytes)?))
}

/// A value, or null for an absent or a removed one.
fn value_json(alloc: Global, value: &Option<Bytes>) -> Mem<Value>
    ensures { IfOk result (λ json_value. view json_value ≡ json.value_data value.now) }
{
    match value {
        Some(value) => text_json(alloc, value.bytes()),
        None => Ok(Value::Null),
    }
}

/// The text of a key.
fn key_name(alloc: Global, scenario: &Scenario, key: &Key) -> Mem<String>
    ensures { IfOk result (λ name. string_bytes name ≡ json.characters (key_text scenario.now key.now)) }
{
    let mut name = TextOut::new(alloc);
    write_key(&mut name, scenario, key)?;
    text_of(alloc, name.into_vec().as_slice())
}

/// Puts what is at a key among the values by the texts of their keys.
fn put_change(
    alloc: Global,
    members: &mut Map<String, Value>,
    scenario: &Scenario,
    key: &Key,
    value: &Option<Bytes>,
) -> Mem<()>
    ensures { OnOk result (members_view members.new.entries ≡ put (json.characters (key_text scenario.now key.now))
        (json.value_data value.now) (members_view members.old.entries)) }
{
    let name = key_name(alloc, scenario, key)?;
    let value = value_json(alloc, value)?;
    serde_json::put(members, alloc, name.as_str(), value)?;
    Ok(())
}

/// A key and its value, as a list of two.
fn pair_json(alloc: Global, key: String, value: Value) -> Mem<Value>
    ensures { IfOk result (λ pair. view pair ≡ json.pair_data (string_bytes key) (view value)) }
{
    let mut pair = Vec::new(alloc);
    serde_json::push(&mut pair, Value::String(key))?;
    serde_json::push(&mut pair, value)?;
    Ok(Value::Array(pair))
}

/// The pairs of the keys and their values, in order.
fn pairs_json(alloc: Global, members: Map<String, Value>) -> Mem<Value>
    ensures { IfOk result (λ list. view list ≡ array (json.pairs (members_view members.entries))) }
{
    let mut list = Vec::new(alloc);
    for (key, value) in members {
        let pair = pair_json(alloc, key, value)?;
        serde_json::push(&mut list, pair)?;
    }
    Ok(Value::Array(list))
}

/// What was read or written, by the texts of the keys.
fn changes_json(alloc: Global, scenario: &Scenario, changes: &[(Key, Option<Bytes>)]) -> Mem<Value>
    ensures { IfOk result (λ list. view list ≡ json.changes_data scenario.now changes.now) }
{
    let mut members = Map::new(alloc);
    for change in changes {
        put_change(alloc, &mut members, scenario, &change.0, &change.1)?;
    }
    pairs_json(alloc, members)
}

/// The text of a version.
fn top_json(alloc: Global, top: &TopVer) -> Mem<Value>
    ensures { IfOk result (λ text. view text ≡ string (json.characters (names.top_text top.now))) }
{
    let mut out = TextOut::new(alloc);
    write_top(&mut out, top)?;
    text_json(alloc, out.into_vec().as_slice())
}

/// The name of a transaction.
fn tx_json(alloc: Global, scenario: &Scenario, tx: &TxId) -> Mem<Value>
    ensures { IfOk result (λ text. view text ≡ string (json.characters (names.tx_text scenario.now tx.now))) }
{
    let mut out = TextOut::new(alloc);
    write_tx(&mut out, scenario, tx)?;
    text_json(alloc, out.into_vec().as_slice())
}

/// A commit, as an object.
fn commit_json(alloc: Global, scenario: &Scenario, entry: &CommitEntry) -> Mem<Value>
    ensures { IfOk result (λ object. view object ≡ json.commit_data scenario.now entry.now) }
{
    let mut members = Map::new(alloc);
    let reads = changes_json(alloc, scenario, entry.reads.as_slice())?;
    serde_json::put(&mut members, alloc, "reads", reads)?;
    let top = top_json(alloc, &entry.top)?;
    serde_json::put(&mut members, alloc, "top", top)?;
    let tx = tx_json(alloc, scenario, &entry.tx)?;
    serde_json::put(&mut members, alloc, "tx", tx)?;
    let writes = changes_json(alloc, scenario, entry.writes.as_slice())?;
    serde_json::put(&mut members, alloc, "writes", writes)?;
    Ok(Value::Object(members))
}

/// The commits, as a list.
fn commits_json(alloc: Global, scenario: &Scenario, commits: &[CommitEntry]) -> Mem<Value>
    ensures { IfOk result (λ list. view list ≡ array (json.commits_data scenario.now commits.now)) }
{
    let mut list = Vec::new(alloc);
    for entry in commits {
        let commit = commit_json(alloc, scenario, entry)?;
        serde_json::push(&mut list, commit)?;
    }
    Ok(Value::Array(list))
}

/// The entries of a map, as what is at their keys.
fn present(alloc: Global, entries: &[(Key, Bytes)]) -> Mem<List<(Key, Option<Bytes>)>>
    ensures { IfOk result (λ changes. changes ≡ json.present_pairs entries.now) }
{
    let mut changes = List::new(alloc);
    for entry in entries {
        changes.push((entry.0, Some(entry.1)))?;
    }
    Ok(changes)
}

/// The map that the commits leave, as a list of pairs.
fn map_json(alloc: Global, scenario: &Scenario, commits: &[CommitEntry]) -> Mem<Value>
    ensures { IfOk result (λ list. view list ≡ json.changes_data scenario.now
        (json.present_pairs (history.map_after_commits [] commits.now))) }
{
    let map = map_after(alloc, commits)?;
    let changes = present(alloc, map.as_slice())?;
    changes_json(alloc, scenario, changes.as_slice())
}

/// The history and the map after it.
fn whole_json(alloc: Global, scenario: &Scenario, commits: &[CommitEntry]) -> Mem<Value>
    ensures { IfOk result (λ object. view object ≡ json.history_data scenario.now commits.now) }
{
    let mut members = Map::new(alloc);
    let history = commits_json(alloc, scenario, commits)?;
    serde_json::put(&mut members, alloc, "history", history)?;
    let map = map_json(alloc, scenario, commits)?;
    serde_json::put(&mut members, alloc, "map", map)?;
    Ok(Value::Object(members))
}

/// The compact text of a value without floats.
fn compact(alloc: Global, value: &Value) -> Mem<String>
    requires { has_float (view value.now) ≡ false }
    ensures { IfOk result (λ text. string_bytes text ≡ compact_text (view value.now)) }
{
    Ok(value.to_string(alloc)?)
}

/// The history of a scenario's commits as JSON: an object with `history` and `map`, in compact form, and a line feed. Reads,
/// writes and the map are lists of pairs in the order of the texts of their keys; null stands for an absent or a removed value.
pub fn history_json(alloc: Global, scenario: &Scenario, commits: &[CommitEntry]) -> Mem<Vec<u8>>
    ensures { IfOk result (λ bytes. bytes.items ≡ json.history_json scenario.now commits.now) }
{
    let whole = whole_json(alloc, scenario, commits)?;
    let mut bytes = compact(alloc, &whole)?.into_bytes();
    bytes.push(b'\n')?;
    Ok(bytes)
}
