//! How a transaction ends at its starter: its fault, its decision, what is awaited then, and what its session is told.
#![tactic(auto)]

mod decisions;
mod left;
mod telling;

pub use decisions::{decide, fail, finishes_for_lost, orphaned};
pub use left::{near_side_saw_leave, primaries_at, txs_of};
pub use telling::{end, tell};
