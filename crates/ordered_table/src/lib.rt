//! A map kept in the order of its keys, which contracts see as the list of its entries.
#![tactic(auto)]

mod table;

pub use table::Table;
