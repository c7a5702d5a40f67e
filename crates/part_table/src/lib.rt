//! A table of parts that threads take and give back, and the journal that orders all changes of them.
//!
//! What a part is, and which changes there are, is the business of a [`Machine`]. A [`Pass`] is the right to take parts, and a
//! [`Turn`] is parts that are taken. [`Parts`] has the calls.
#![tactic(auto)]

mod calls;
mod holders;
mod machine;
mod rows;
mod rule;
mod steps;
mod table;
#[cfg(test)]
mod tests;

pub use holders::{Full, Pass, TakeFault, Turn};
pub use machine::Machine;
pub use rule::{Entry, Law, Plan, Slot, View};
pub use table::Parts;
