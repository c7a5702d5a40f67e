//! Choices from a seed: the picks of a schedule, and generated scenarios.
#![tactic(auto)]

mod generated;
mod picker;
#[cfg(test)]
mod tests;
mod transaction;

pub use generated::make_scenario;
pub use picker::Picker;
