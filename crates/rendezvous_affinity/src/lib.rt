//! Where partitions belong: each server has a weight for each partition, and the servers of greatest weight own it.
#![tactic(auto)]

mod owners;
mod weights;

pub use owners::ideal;
pub use weights::{part_of, weight};
