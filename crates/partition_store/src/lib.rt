//! The copies of a node's partitions, kept as hash tables.
#![tactic(auto)]

mod store;
mod stores;

pub use store::{Batch, Store};
pub use stores::Stores;
