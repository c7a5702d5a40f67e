//! A map kept as a hash table, which contracts see as the list of its entries in the order of their keys.
#![tactic(auto)]

mod entries;
mod exact;
mod table;

pub use entries::{EntryChange, EntryTest};
pub use exact::ExactKey;
pub use table::HashTable;
