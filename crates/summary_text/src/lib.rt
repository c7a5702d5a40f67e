//! The other texts of a run: its history as JSON, and the summary of one whose scenario was made up.
#![tactic(auto)]

mod json;
mod made;
#[cfg(test)]
mod tests;

pub use json::history_json;
pub use made::{Made, summary};
