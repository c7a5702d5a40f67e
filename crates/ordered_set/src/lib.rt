//! A small set, which contracts see as the list of its members in ascending order.
#![tactic(auto)]

mod set;

pub use set::Set;
