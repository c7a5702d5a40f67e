//! What a transaction knows of a key.

ghost use Rattle.std.specs.Prelude.{◌≡◌};
ghost use Rattle.part_model.specs.NearEntries.{near_entry, near_front, near_put, near_updated};
ghost use Rattle.act_rows.specs.Accesses.{access_key, answer_of_value, read_of, value_before, version_read};
ghost use Rattle.ordered_table.specs.Entries.{at};
ghost use Rattle.ignite_types.specs.Names.{key_cmp};

use ignite_types::{Answer, CacheVersion, Command, Found, Key, Value};
use node_state::{Read, TxEntry};
use node_steps::absent_version;

/// What is kept of a read: the value with its version, or that nothing was there.
pub(crate) fn read_of(found: &Found) -> Read
    ensures { result ≡ read_of found.now }
{
    match found {
        Some((value, ver)) => Read {
            found: Some(*value),
            ver: *ver,
        },
        None => Read {
            found: None,
            ver: absent_version(),
        },
    }
}

/// The value before an access: the transaction's own last write of the key, or else what it has read.
pub(crate) fn value_before(entry: &TxEntry, key: &Key) -> Option<Value>
    ensures { result ≡ value_before entry.now key.now }
{
    match entry.writes.get(key) {
        Some(new) => *new,
        None => match entry.reads.get(key) {
            Some(read) => read.found,
            None => None,
        },
    }
}

/// The version that came with the read of a key, if it was read.
pub(crate) fn version_read(entry: &TxEntry, key: &Key) -> Option<CacheVersion>
    ensures { result ≡ version_read (at key_cmp entry.now.reads key.now) }
{
    match entry.reads.get(key) {
        Some(read) => Some(read.ver),
        None => None,
    }
}

pub(crate) fn answer_of(found: &Option<Value>) -> Answer
    ensures { result ≡ answer_of_value found.now }
{
    match found {
        Some(value) => Answer::Found(*value),
        None => Answer::Absent,
    }
}

/// The key of an access.
pub fn access_key(command: &Command) -> Option<Key>
    ensures { result ≡ access_key command.now }
{
    match command {
        Command::Get(key) => Some(*key),
        Command::Put(key, _) => Some(*key),
        Command::Remove(key) => Some(*key),
        Command::Add(key, _) => Some(*key),
        _ => None,
    }
}
