//! The text of a run's report.
#![tactic(auto)]

mod answers;
mod digest;
mod endings;
mod history;
mod plans;
mod sessions;
mod traces;
mod whole;

pub use answers::{write_answer, write_top, write_tx, write_version};
pub use digest::{Deadlock, Digest, Given, digest_of};
pub use endings::{end_status, write_top_line};
pub use history::{map_after, shown_map};
pub use plans::write_count;
pub use sessions::{all_told, answers_to};
pub use whole::report;

#[cfg(test)]
mod tests;
