//! The simulator: from scenario bytes to report bytes.
#![tactic(auto)]

mod drive;
mod options;
mod said;
#[cfg(test)]
mod tests;
mod top;

pub use ignite_types::Status;
pub use options::Options;
pub use top::{SimEnd, sim};
