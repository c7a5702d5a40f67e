//! The exchange of a topology version: what a node sees of the topology, its map and the opening of a version.
#![tactic(auto)]

mod coordinating;
mod installing;
mod opening;
mod seeing;

pub use coordinating::{drop_single, on_full, on_installed, on_single};
pub use installing::install;
pub use opening::on_opens;
pub use seeing::learn_all;
