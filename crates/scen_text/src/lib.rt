//! Scenario texts: reading them, and why one is refused.
#![tactic(auto)]

mod cause;
mod draft;
mod keyword;
mod known;
mod limits;
mod line;
mod lines;
mod meaning;
mod objects;
mod place;
mod plan_line;
mod read;
mod words;

pub use cause::{Cause, ReadFault, What, refusal_line};
pub use read::read_scenario;

#[cfg(test)]
mod tests;
