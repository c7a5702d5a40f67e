//! The map of partitions: which nodes hold each of them.
#![tactic(auto)]

mod claims;
mod held;
mod maps;
mod newest;
mod next;
mod opening;
mod shares;
#[cfg(test)]
mod tests;

pub use ignite_types::{Member, PartMap, Row, Share, Single};
pub use maps::PartMaps;
pub use next::next_map;
pub use opening::opening_map;
