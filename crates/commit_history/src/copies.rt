//! Copies of walks.

ghost use Rattle.std.specs.Prelude.{◌≡◌, IfOk};

use ignite_types::{Key, Mem};
use ordered_table::Table;
use std::alloc::Global;
use tx_model::Walk;

/// The same table once more.
fn table_copied<V: Copy>(alloc: Global, table: &Table<Key, V>) -> Mem<Table<Key, V>>
    ensures { IfOk result (λ copy. copy ≡ table.now) }
{
    let mut copy = Table::new(alloc);
    for (key, value) in table.as_slice() {
        copy.set(*key, *value)?;
    }
    Ok(copy)
}

/// The same walk once more.
pub fn copied(alloc: Global, walk: &Walk) -> Mem<Walk>
    ensures { IfOk result (λ copy. copy ≡ walk.now) }
{
    Ok(Walk {
        top: walk.top,
        started: walk.started,
        block: walk.block,
        skipping: walk.skipping,
        called: walk.called,
        near_read: walk.near_read,
        finds: table_copied(alloc, &walk.finds)?,
        near: table_copied(alloc, &walk.near)?,
        overs: walk.overs.copy(alloc)?,
        committed: walk.committed,
        reads: table_copied(alloc, &walk.reads)?,
        writes: table_copied(alloc, &walk.writes)?,
    })
}
