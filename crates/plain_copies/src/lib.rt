//! Exact copies of the plain types that are not `Copy`, those that a node keeps among them: each costs memory, and each equals
//! its source.
#![tactic(auto)]

mod duplicate;
mod journal;
mod message;
mod placement;
mod plain;
mod primary;
mod scenario;
mod sessions;
mod starter;
mod tables;
#[cfg(test)]
mod tests;
mod topology;

pub use duplicate::Duplicate;
