//! What becomes of the transactions of a lost starter: each node lists what it holds of them, and the oldest member decides.
#![tactic(auto)]

mod orphans;
mod rounds;
mod verdicts;
mod waits;

pub use orphans::orphans_of;
pub use rounds::{begin_round, is_calm, on_orphans};
pub use verdicts::verdict;
pub use waits::{on_recovery_backup_finished, on_recovery_finished};
