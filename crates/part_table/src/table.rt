//! The table of the parts.
ghost use Rattle.std.specs.Prelude.{◌≡◌, ◌+◌, ◌<◌, ◌^◌};

use crate::machine::Machine;
use crate::rule::{Law, Plan, Slot, View};
use atomic_table::Table;
use std::alloc::Global;

/// Parts under lock words, with a journal of the events that changed them. Threads share it by reference.
#[derive(Drop)]
pub struct Parts<M: Machine> {
    pub(crate) table: Table<
        Slot<M::State, M::Event>,
        View<M, M::State, M::Event>,
        Plan<M>,
        Law<M>,
        Global,
    >,
    pub(crate) count: usize,
    pub(crate) limit: u64,
    pub(crate) alloc: Global,
    ghost sized: { (table.shared.table_id.words ≡ count + 1)
        × (table.shared.table_id.slots ≡ count + limit + 1)
        × (table.shared.key.parts ≡ count) × (table.shared.key.limit ≡ limit)
        × (limit + table.shared.key.passes < 2 ^ 64) × (count + limit + 1 < 2 ^ 64)
        × (0 < table.shared.key.passes) },
}
